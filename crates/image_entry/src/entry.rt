// A record's answer.
ghost use Rattle.std.specs.Prelude.{◌≡◌, true, false, IfOk, IfErr};
ghost use Rattle.image_entry.specs.Faults.{fault_number};

use model::{Control, Link, Node, Options, Premise};

// What a record says. A pattern's multipliers stay in the payload.
#[derive(Clone, Copy)]
pub enum Entry {
    Options(Options),
    Pattern,
    Node(Node),
    Link(Link),
    Control(Control),
    Premise(Premise),
}

// What is wrong with an image, by document 01's numbers: the whole of it has no words or too many; a record's header is wrong, its payload is cut, there
// is one entry more than allowed, a word is out of its range, or an index is to nothing.
#[derive(Clone, Copy)]
pub enum Fault {
    Length = 1,
    Header = 2,
    Cut = 3,
    Count = 4,
    Word = 5,
    Index = 6,
}

impl Fault {
    pub fn number(self) -> u32
        ensures { result ≡ fault_number self }
    {
        self as u32
    }
}

// A fault where a test fails.
pub fn check(holds: bool, fault: Fault) -> Result<(), Fault>
    ensures ok { IfOk result (λ u. holds ≡ true) }
    ensures err { IfErr result (λ e. (holds ≡ false) × (e ≡ fault)) }
{
    if holds { Ok(()) } else { Err(fault) }
}
