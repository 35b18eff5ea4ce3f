// `update_tanks`, and the tanks' candidate. Only tanks are visited.
ghost use Rattle.std.specs.Prelude.{◌≡◌};
ghost use Rattle.run_tanks.specs.Moving.{heads_after, tank_time_of};

use number::constants::MAX;
use run_tables::TankTable;
use tank::{CubicFeetPerSecond, Feet};

// The smallest over all tanks, zeros too.
pub fn tank_time(t: &TankTable, heads: &[f64; 256], demands: &[f64; 256]) -> u64
    ensures { result ≡ tank_time_of t.now.at.nodes t.now.numbers t.now.overflows t.now.at.count heads.now demands.now }
{
    let mut smallest = MAX;
    for k in 0..t.at.count {
        let j = t.at.nodes[k] as usize;
        let tank = t.tank(k);
        let level = Feet(heads[j] - tank.elevation.0);
        let candidate = tank.time_to_fill_or_drain(level, CubicFeetPerSecond(demands[j]));
        smallest = candidate.min(smallest);
    }
    smallest
}

// Every tank's head after some seconds of its demand.
pub fn move_tanks(t: &TankTable, demands: &[f64; 256], seconds: u64, heads: &mut [f64; 256])
    ensures { heads.new ≡ heads_after t.now.at.nodes t.now.numbers t.now.overflows t.now.at.count demands.now seconds heads.old }
{
    for k in 0..t.at.count {
        let j = t.at.nodes[k] as usize;
        let after = t
            .tank(k)
            .head_after(CubicFeetPerSecond(demands[j]), seconds, Feet(heads[j]));
        heads[j] = after.0;
    }
}
