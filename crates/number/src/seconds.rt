// Numbers and counts of seconds.
ghost use Rattle.std.specs.Prelude.{◌≡◌};
ghost use Rattle.number.specs.Seconds.{round_to_u64, u64_to_f64};

// Rust's `x.round() as usize` on a 64-bit target.
pub fn round_to_u64(x: f64) -> u64
    ensures { result ≡ round_to_u64 x }
{
    if x > 0.0 {
        if x < 9007199254740992.0 {
            // twice x is exact
            return (std::num::truncating_f64_to_u64(x + x) + 1) / 2;
        }
        if x < 18446744073709551616.0 {
            // x has no fraction
            return std::num::truncating_f64_to_u64(x);
        }
        return 18446744073709551615;
    }
    0
}

// Rust's `n as f64`: the nearest number, so that MAX gives 2^64.
#[tactic(auto, unfolding(crate::specs::Seconds::u64_to_f64))]
pub fn u64_to_f64(n: u64) -> f64
    ensures { result ≡ u64_to_f64 n }
{
    std::num::nearest_u64_to_f64(n)
}
