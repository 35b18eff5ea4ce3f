#![tactic(auto)]
// When a tank's level is at a target, of the seconds that the Rust answers.
ghost use Rattle.std.specs.Prelude.{◌≡◌};
ghost use Rattle.reach.specs.Reach.{reach_of, seconds_of};

use number::constants::MAX;

// It is there, it will be after some seconds (neither 0 nor MAX), or it never will be.
#[derive(Clone, Copy)]
pub enum Reach {
    Arrived,
    Seconds(u64),
    Never,
}

// The answer for a count of seconds as the Rust has it.
#[tactic(auto, unfolding(crate::specs::Reach::reach_of))]
pub fn reach_of(seconds: u64) -> Reach
    ensures { result ≡ reach_of seconds }
{
    match seconds {
        0 => Reach::Arrived,
        MAX => Reach::Never,
        n => Reach::Seconds(n),
    }
}

// The seconds as the Rust has them, for the clock and for hours: 0 where the level is there, MAX where it never will be.
pub fn seconds_of(reach: Reach) -> u64
    ensures { result ≡ seconds_of reach }
{
    match reach {
        Reach::Arrived => 0,
        Reach::Seconds(n) => n,
        Reach::Never => MAX,
    }
}
