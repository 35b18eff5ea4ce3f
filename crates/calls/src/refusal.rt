// Why a call is refused that does not yield a state.
ghost use Rattle.std.specs.Prelude.{◌≡◌};
ghost use Rattle.calls.specs.Refusals.{refusal_number};

// The tables or the state break a limit; there is no such premise.
#[derive(Clone, Copy)]
pub enum Refusal {
    NotInOrder,
    NoPremise,
}

impl Refusal {
    // Document 01's number of it.
    pub fn number(self) -> u32
        ensures { result ≡ refusal_number self }
    {
        match self {
            Refusal::NotInOrder => 10,
            Refusal::NoPremise => 9,
        }
    }
}
