#![tactic(auto)]
// The clock and its count in the caller's own record.
ghost use Rattle.std.specs.Prelude.{◌≡◌};
ghost use Rattle.clock.specs.Steps.{advanced};
ghost use Rattle.caller_clock.specs.Hand.{clock_of};

use clock::Clock;

// Moves the caller's clock by a step's length in seconds; one of 0, or a move past what 32 bits hold, leaves it.
pub fn advance(c: &mut Clock, length: u32)
    ensures { c.new ≡ advanced c.old length }
{
    *c = c.advanced(length);
}

// A caller: a record of its own is lent, and read back.
pub fn moved(instant: u32, count: u32, length: u32) -> Clock
    ensures { result ≡ advanced (clock_of instant count) length }
{
    let mut c = Clock { instant, count };
    advance(&mut c, length);
    c
}
