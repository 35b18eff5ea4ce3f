#![tactic(auto)]
// What the driver's input begins with: the count of the image's words.
ghost use Rattle.std.specs.Prelude.{◌≡◌, ◌≤◌};
ghost use Rattle.driver_image.specs.Opening.{image_words};

// How many words the image has, by the first four bytes of the input, or 0 where they are refused.
// kept: 0 stands for every refusal, which document 01 gives one number, and driver_io asks for the count alone.
#[tactic(auto, unfolding(crate::specs::Opening::image_words))]
pub fn image_words(head: &[u8]) -> usize
    ensures value { result ≡ image_words head.now }
    ensures upper_bound { result ≤ 16384 }
{
    let n = words::word_at(head, 0);
    if 16384 < n {
        return 0;
    }
    n as usize
}
