// "Ranges".
ghost use Rattle.std.specs.Prelude.{◌≡◌};
ghost use Rattle.table_ranges.specs.Ranges.{time_ok, timestep_ok, clock_ok, feet_ok, diameter_ok, number_ok, premise_number_ok, status_ok, pattern_index_ok};

// Ten years of seconds.
pub const LONGEST: u32 = 315360000;

// The last second of a day.
pub const LAST_SECOND: u32 = 86399;

// The last code of `LinkStatus`.
pub const LAST_STATUS: u32 = 9;

#[tactic(auto, unfolding(crate::specs::Ranges::time_ok))]
pub fn time_ok(seconds: u32) -> bool
    ensures { result ≡ time_ok seconds }
{
    seconds <= LONGEST
}

#[tactic(auto, unfolding(crate::specs::Ranges::timestep_ok))]
pub fn timestep_ok(seconds: u32) -> bool
    ensures { result ≡ timestep_ok seconds }
{
    (1 <= seconds) & time_ok(seconds)
}

#[tactic(auto, unfolding(crate::specs::Ranges::clock_ok))]
pub fn clock_ok(seconds: u32) -> bool
    ensures { result ≡ clock_ok seconds }
{
    seconds <= LAST_SECOND
}

pub fn feet_ok(x: f64) -> bool
    ensures { result ≡ feet_ok x }
{
    number::within(100000.0, x)
}

pub fn diameter_ok(x: f64) -> bool
    ensures { result ≡ diameter_ok x }
{
    number::in_range(0.001, 10000.0, x)
}

pub fn number_ok(x: f64) -> bool
    ensures { result ≡ number_ok x }
{
    number::within(1000000.0, x)
}

pub fn premise_number_ok(x: f64) -> bool
    ensures { result ≡ premise_number_ok x }
{
    number::within(1000000000000.0, x)
}

#[tactic(auto, unfolding(crate::specs::Ranges::status_ok))]
pub fn status_ok(status: u32) -> bool
    ensures { result ≡ status_ok status }
{
    status <= LAST_STATUS
}

// Whether a pattern, where one is named, is one of the patterns declared.
#[tactic(auto, unfolding(crate::specs::Ranges::pattern_index_ok))]
pub fn pattern_index_ok(patterns: usize, pattern: Option<usize>) -> bool
    ensures { result ≡ pattern_index_ok patterns pattern }
{
    pattern.is_none_or(|i| i < patterns)
}
