// `pattern.rs`: which pattern, and its multiplier at a period.
ghost use Rattle.std.specs.Prelude.{◌≡◌};
ghost use Rattle.model.specs.Patterns.{period, multiplier_at};

// The pattern period of an instant; 0 where the timestep is 0.
pub fn period(pattern_start: u32, pattern_timestep: u32, time: u32) -> u64
    ensures { result ≡ period pattern_start pattern_timestep time }
{
    if pattern_timestep == 0 {
        return 0;
    }
    (u64::from(pattern_start) + u64::from(time)) / u64::from(pattern_timestep)
}

// A pattern's multiplier at a period; 1 where it has none.
#[tactic(auto, unfolding(crate::specs::Patterns::multiplier_at, number::specs::Constants::decimal))]
pub fn multiplier_at(multipliers: &[f64], period: u64) -> f64
    ensures { result ≡ multiplier_at multipliers.now period }
{
    if multipliers.is_empty() {
        return 1.0;
    }
    multipliers[(period as usize) % multipliers.len()]
}
