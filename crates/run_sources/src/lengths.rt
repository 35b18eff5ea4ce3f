// How many multipliers each pattern has, as words that can be lent.
ghost use Rattle.std.specs.Prelude.{◌≡◌};
ghost use Rattle.run_sources.specs.Lengths.{length_word, LengthsLaid};

// A length, no longer than the table of all multipliers: what is past a count of patterns may be any.
fn length_word(length: usize) -> u32
    ensures { result ≡ length_word length }
{
    length.min(5376) as u32
}

pub fn pattern_lengths(lengths: &[usize; 32]) -> [u32; 32]
    ensures { LengthsLaid lengths.now result }
{
    let mut words = [0; 32];
    for (k, length) in lengths.iter().enumerate() {
        words[k] = length_word(*length);
    }
    words
}
