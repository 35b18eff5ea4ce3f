// Range tests, and Rust's `abs` and `clamp`.
// kept: document 01 asks for these helpers to be worked out here; specs/Order.antt says each.
ghost use Rattle.std.specs.Prelude.{◌≡◌};
ghost use Rattle.number.specs.Order.{in_range, within, abs, at_least, at_most, clamp};

// Whether least <= x <= greatest.
#[tactic(auto, unfolding(crate::specs::Order::in_range))]
pub fn in_range(least: f64, greatest: f64, x: f64) -> bool
    ensures { result ≡ in_range least greatest x }
{
    (least <= x) & (x <= greatest)
}

// Whether -limit <= x <= limit.
#[tactic(auto, unfolding(crate::specs::Order::within))]
pub fn within(limit: f64, x: f64) -> bool
    ensures { result ≡ within limit x }
{
    in_range(-limit, limit, x)
}

// Rust's `x.abs()`.
pub fn abs(x: f64) -> f64
    ensures { result ≡ abs x }
{
    if x == 0.0 {
        return 0.0;
    }
    if x < 0.0 { -x } else { x }
}

fn at_least(least: f64, x: f64) -> f64
    ensures { result ≡ at_least least x }
{
    if x < least { least } else { x }
}

fn at_most(greatest: f64, x: f64) -> f64
    ensures { result ≡ at_most greatest x }
{
    if x > greatest { greatest } else { x }
}

// Rust's `x.clamp(least, greatest)`.
#[tactic(auto, unfolding(crate::specs::Order::clamp))]
pub fn clamp(x: f64, least: f64, greatest: f64) -> f64
    ensures { result ≡ clamp x least greatest }
{
    at_most(greatest, at_least(least, x))
}
