// The words of a payload.
ghost use Rattle.std.specs.Prelude.{◌≡◌, ◌+◌, ◌^◌, ◌<◌};
ghost use Rattle.image_entry.specs.Words.{word, number, pattern_index_of};

use number::from_words;

// The word at a place; 0 past the end.
pub fn word(p: &[u32], i: usize) -> u32
    ensures { result ≡ word p.now i }
{
    p.get(i).copied().unwrap_or(0)
}

// The number whose low word is at a place.
pub fn number(p: &[u32], i: usize) -> f64
    requires { i + 1 < 2 ^ 64 }
    ensures { result ≡ number p.now i }
{
    from_words(word(p, i), word(p, i + 1))
}

// The pattern that a word names.
#[tactic(auto, unfolding(crate::specs::Words::pattern_index_of))]
pub fn pattern_index_of(w: u32) -> Option<usize>
    ensures { result ≡ pattern_index_of w }
{
    match w {
        0 => None,
        _ => Some((w - 1) as usize),
    }
}
