// A row of a table, read by value.
ghost use Rattle.std.specs.Prelude.{◌≡◌, ◌<◌};
ghost use Rattle.run_tables.specs.Rows.{tank_at};

use tank::{Feet, Tank};

// Tank k: five numbers from 5 * k on, and a word that is not 0 where it may overflow.
pub fn tank_at(numbers: &[f64; 1280], overflows: &[u32; 256], k: usize) -> Tank
    requires { k < 256 }
    ensures { result ≡ tank_at numbers.now overflows.now k }
{
    Tank {
        elevation: Feet(numbers[5 * k]),
        initial_level: Feet(numbers[5 * k + 1]),
        min_level: Feet(numbers[5 * k + 2]),
        max_level: Feet(numbers[5 * k + 3]),
        diameter: Feet(numbers[5 * k + 4]),
        overflow: overflows[k] != 0,
    }
}
