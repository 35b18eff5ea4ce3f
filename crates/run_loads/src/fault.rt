// What is wrong with a load.
ghost use Rattle.std.specs.Prelude.{◌≡◌};
ghost use Rattle.run_loads.specs.Faults.{load_fault_number};

// Its kind, header or size is wrong, it is cut, or words are left over; a value is not finite or too large.
#[derive(Clone, Copy)]
pub enum LoadFault {
    Shape,
    Value,
}

impl LoadFault {
    // Document 01's number of it.
    pub fn number(self) -> u32
        ensures { result ≡ load_fault_number self }
    {
        match self {
            LoadFault::Shape => 7,
            LoadFault::Value => 8,
        }
    }
}
