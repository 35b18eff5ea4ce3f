// Kind 1.
ghost use Rattle.std.specs.Prelude.{◌≡◌};
ghost use Rattle.table_ranges.specs.Records.{options_ok};

use crate::ranges::{clock_ok, number_ok, time_ok, timestep_ok};
use model::Options;

#[tactic(auto, unfolding(crate::specs::Records::options_ok))]
pub fn options_ok(o: Options) -> bool
    ensures { result ≡ options_ok o }
{
    time_ok(o.duration)
        & time_ok(o.hydraulic)
        & timestep_ok(o.report)
        & timestep_ok(o.pattern)
        & time_ok(o.pattern_start)
        & clock_ok(o.start_clock)
        & number_ok(o.demand_multiplier)
}
