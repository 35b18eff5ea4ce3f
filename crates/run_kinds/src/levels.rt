// The level controls of tanks: the number of the tank and the target of each, in image order.
ghost use Rattle.std.specs.Prelude.{◌≡◌, ◌≤◌, ◌==◌, position, take, length};
ghost use Rattle.run_kinds.specs.Levels.{level_of, Numbered, LevelsLaid};

use model::*;
use run_tables::NodeList;

// Call i waits for tank tanks[i] of the tank table to be at targets[i]; what stands past the count is free.
#[repr(C)]
#[derive(Clone, Copy)]
pub struct Levels {
    pub count: usize,
    pub tanks: [u32; 64],
    pub targets: [f64; 64],
    pub ghost few: { count ≤ 64 },
}

// The number of the tank at a node.
fn tank_number(tanks: &NodeList, node: usize) -> Option<usize>
    ensures value { result ≡ position (λ j. j == node) (take tanks.now.count tanks.now.nodes) }
    ensures most { tanks.now.count ≤ length tanks.now.nodes }
{
    tanks.nodes[..tanks.count]
        .iter()
        .position(|j| *j as usize == node)
}

// The node and the target of a level control.
fn level_of(condition: ControlCondition) -> Option<(usize, f64)>
    ensures { result ≡ level_of condition }
{
    match condition {
        ControlCondition::HighLevel { tank, target }
        | ControlCondition::LowLevel { tank, target } => Some((tank, target)),
        _ => None,
    }
}

// The levels of the first n controls, by the nodes of the tanks.
pub fn level_calls(controls: &[Control; 64], n: usize, tanks: &NodeList) -> Levels
    requires { n ≤ 64 }
    ensures { LevelsLaid controls.now n tanks.now.nodes tanks.now.count result.tanks result.targets result.count }
{
    let mut numbers = [0; 64];
    let mut targets = [0.0; 64];
    let mut count = 0;
    for i in 0..n {
        if let Some((node, target)) = level_of(controls[i].condition) {
            if let Some(k) = tank_number(tanks, node) {
                numbers[count] = k as u32;
                targets[count] = target;
                count += 1;
            }
        }
    }
    Levels {
        count,
        tanks: numbers,
        targets,
    }
}
