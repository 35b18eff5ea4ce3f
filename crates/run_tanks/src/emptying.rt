// Every tank's demand from 0: what patterns leave there, and where a load's sum begins.
ghost use Rattle.std.specs.Prelude.{◌≡◌};
ghost use Rattle.run_tanks.specs.Emptying.{tanks_emptied};

use run_tables::NodeList;

pub fn empty_tanks(tanks: &NodeList, demands: &mut [f64; 256])
    ensures { demands.new ≡ tanks_emptied tanks.now.nodes tanks.now.count demands.old }
{
    for k in 0..tanks.count {
        demands[tanks.nodes[k] as usize] = 0.0;
    }
}
