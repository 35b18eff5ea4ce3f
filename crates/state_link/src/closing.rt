// Whether a tank closes the links that would fill it, or drain it.
ghost use Rattle.std.specs.Prelude.{◌≡◌};
ghost use Rattle.state_link.specs.Closing.{fill_closed, empty_closed};

use tank::Tank;

// A tank at or above its greatest level that does not overflow.
#[tactic(auto, unfolding(crate::specs::Closing::fill_closed))]
pub fn fill_closed(t: Tank, head: f64) -> bool
    ensures { result ≡ fill_closed t head }
{
    (t.elevation.0 + t.max_level.0 <= head) & !t.overflow
}

// A tank at or below its least level.
#[tactic(auto, unfolding(crate::specs::Closing::empty_closed))]
pub fn empty_closed(t: Tank, head: f64) -> bool
    ensures { result ≡ empty_closed t head }
{
    head <= t.elevation.0 + t.min_level.0
}
