#![tactic(auto)]
// A pattern's multiplier at an instant, and a view that holds the lent multipliers.
ghost use Rattle.std.specs.Prelude.{◌≡◌};
ghost use Rattle.pattern_view.specs.View.{multiplier_in_force};

use model::{multiplier_at, period};

// The multiplier at an instant, from the slice and the numbers.
fn multiplier_by_instant(
    multipliers: &[f64],
    pattern_start: u32,
    pattern_timestep: u32,
    time: u32,
) -> f64
    ensures { result ≡ multiplier_in_force multipliers.now pattern_start pattern_timestep time }
{
    multiplier_at(multipliers, period(pattern_start, pattern_timestep, time))
}

// The multipliers of one pattern, lent, with the times by which a period is found.
#[derive(Clone, Copy)]
pub struct PatternView<'a> {
    pub multipliers: &'a [f64],
    pub pattern_start: u32,
    pub pattern_timestep: u32,
}

pub fn view<'a>(
    multipliers: &'a [f64],
    pattern_start: u32,
    pattern_timestep: u32,
) -> PatternView<'a>
    ensures { (result.multipliers ≡ multipliers.entry) × (result.pattern_start ≡ pattern_start) × (result.pattern_timestep ≡ pattern_timestep) }
{
    PatternView {
        multipliers,
        pattern_start,
        pattern_timestep,
    }
}

// The view is taken apart, and the function on the slice and the numbers is asked.
pub fn multiplier<'a>(v: PatternView<'a>, time: u32) -> f64
    ensures { result ≡ multiplier_in_force v.entry.multipliers.now v.entry.pattern_start v.entry.pattern_timestep time }
{
    multiplier_by_instant(v.multipliers, v.pattern_start, v.pattern_timestep, time)
}

// A view is made and asked once. Its callers need no walk of their own.
pub fn multiplier_in_force(
    multipliers: &[f64],
    pattern_start: u32,
    pattern_timestep: u32,
    time: u32,
) -> f64
    ensures { result ≡ multiplier_in_force multipliers.now pattern_start pattern_timestep time }
{
    multiplier(view(multipliers, pattern_start, pattern_timestep), time)
}
