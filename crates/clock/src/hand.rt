// The clock of a run: the instant, and how often it moved.
ghost use Rattle.std.specs.Prelude.{◌≡◌};
ghost use Rattle.clock.specs.Steps.{advanced};

#[repr(C)]
#[derive(Clone, Copy)]
pub struct Clock {
    pub instant: u32,
    pub count: u32,
}

impl Clock {
    // The clock after a step of a length in seconds.
    #[tactic(auto, unfolding(crate::specs::Steps::advanced))]
    pub fn advanced(self, length: u32) -> Clock
        ensures { result ≡ advanced self length }
    {
        if length == 0 {
            return self;
        }
        match (self.instant.checked_add(length), self.count.checked_add(1)) {
            (Some(instant), Some(count)) => Clock { instant, count },
            _ => self,
        }
    }
}
