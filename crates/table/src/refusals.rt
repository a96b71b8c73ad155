// What can be wrong with a table, and a refusal with its place.
ghost use Rattle.std.specs.Prelude.{◌≡◌};

// The faults of document 01 that a table can be refused for, each with its refusal number.
#[derive(Clone, Copy)]
pub enum Fault {
    TooLong = 1,
    Cut = 2,
    NoHead = 3,
    UnknownKind = 4,
    WrongLength = 5,
    OutOfRange = 6,
    OutOfSequence = 7,
    NamedTwice = 8,
    NotZero = 9,
    TooManyRows = 10,
    NoRecord = 13,
}

impl From<Fault> for u32 {
    ghost use Rattle.table.specs.Refusals.{number_of};

    ghost from_gives = { λ fault number. number ≡ number_of fault };

    // The refusal number.
    #[tactic(auto, unfolding(crate::specs::Refusals::number_of))]
    fn from(fault: Fault) -> u32 {
        fault as u32
    }
}

// A fault and the byte place that goes with it.
#[derive(Clone, Copy)]
pub struct Refusal {
    pub fault: Fault,
    pub place: usize,
}
