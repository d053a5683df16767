// Why a record is dropped.
ghost use Rattle.std.specs.Prelude.{◌≡◌};
ghost use Rattle.mending.specs.Reasons.{reason_number};

#[derive(Clone, Copy, PartialEq, Eq)]
pub enum Reason {
    Malformed,
    Partial,
    Surplus,
}

impl Reason {
    // As the list has it.
    pub fn number(self) -> u8
        ensures { result ≡ reason_number self }
    {
        match self {
            Reason::Malformed => 1,
            Reason::Partial => 2,
            Reason::Surplus => 3,
        }
    }
}
