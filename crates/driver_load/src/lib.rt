#![tactic(auto)]
// A load out of the bytes that are left of the driver's input, taken into the arrays of a run.
ghost use Rattle.std.specs.Prelude.{◌≤◌};
ghost use Rattle.driver_load.specs.Left.{LoadedAs};

use run_loads::{LoadFault, LoadTable, load_fault};
use run_state::Lists;
use run_tables::NodeList;

// Takes the load that the bytes begin with, of so many numbers, and answers how many bytes it has; none where no byte is left. A load cut by the end is
// of a wrong shape.
pub fn load_left(
    bytes: &[u8],
    count: usize,
    t: &LoadTable,
    tanks: &NodeList,
    lists: &mut Lists,
) -> Result<usize, LoadFault>
    requires { count ≤ 640 }
    ensures { LoadedAs bytes.now count t.now tanks.now lists.old lists.new result }
{
    if bytes.is_empty() {
        return Ok(0);
    }
    let needed = 1 + 2 * count;
    let size = needed * 4;
    if bytes.len() < size {
        return Err(LoadFault::Shape);
    }
    let mut space = [0; 1281];
    let words = &mut space[..needed];
    words::words_of(bytes, words);
    if let Err(fault) = load_fault(count, words) {
        return Err(fault);
    }
    t.take(words, tanks, lists);
    Ok(size)
}
