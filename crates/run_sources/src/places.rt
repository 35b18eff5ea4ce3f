// Where a pattern's multiplier stands in the table of an instant's.
ghost use Rattle.std.specs.Prelude.{◌≡◌};
ghost use Rattle.run_sources.specs.Sources.{place_of};

pub fn place_of(pattern: Option<usize>) -> u32
    ensures { result ≡ place_of pattern }
{
    match pattern {
        Some(k) if k < 32 => k as u32,
        _ => 32,
    }
}
