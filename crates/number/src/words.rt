// A number out of two words, and its bits.
ghost use Rattle.std.specs.Prelude.{◌≡◌, from_bits, to_bits};
ghost use Rattle.std.specs.Float.{binary64};
ghost use Rattle.number.specs.Words.{from_words};

// The f64 with these bits. A NaN is made by a division: its payload is no part of the number.
fn from_bits(bits: u64) -> f64
    ensures { result ≡ from_bits binary64 bits }
{
    if 0x7ff0_0000_0000_0000 < bits % 0x8000_0000_0000_0000 {
        return 0.0 / 0.0;
    }
    f64::from_bits(bits)
}

// The f64 whose bits are these two words, low word first. What is not finite passes no range test.
#[tactic(auto, unfolding(crate::specs::Words::from_words))]
pub fn from_words(lo: u32, hi: u32) -> f64
    ensures { result ≡ from_words lo hi }
{
    from_bits((lo as u64) + (hi as u64) * 0x1_0000_0000)
}

// The bits of a number; a NaN has those of Rust's `f64::NAN`.
pub fn to_bits(x: f64) -> u64
    ensures { result ≡ to_bits binary64 x }
{
    if x != x {
        return 0x7ff8_0000_0000_0000;
    }
    f64::to_bits(x)
}
