// Why a call is refused.
ghost use Rattle.std.specs.Prelude.{◌≡◌};

use std::fmt;
use table::refusals::Refusal;

// The table's own refusal; a selection that names a request above N; or a buffer without room for the report.
#[derive(Clone, Copy)]
pub enum Refused {
    Table(Refusal),
    NamesTooMuch,
    NoRoom,
}

impl From<Refusal> for Refused {
    ghost use Rattle.hainscope.specs.declared.refused.Refused.TheVariants.{Table};

    ghost from_gives = { λ refusal refused. refused ≡ Table refusal };

    fn from(refusal: Refusal) -> Self {
        Self::Table(refusal)
    }
}

impl Refused {
    ghost use Rattle.hainscope.specs.Refused.{number_of, place_of};

    // The refusal number.
    pub fn number(self) -> u32
        ensures { result ≡ number_of self }
    {
        match self {
            Refused::Table(refusal) => u32::from(refusal.fault),
            Refused::NamesTooMuch => 11,
            Refused::NoRoom => 12,
        }
    }

    // The byte place that goes with it: the table's refusal has one, the others have 0.
    pub fn place(self) -> usize
        ensures { result ≡ place_of self }
    {
        match self {
            Refused::Table(refusal) => refusal.place,
            Refused::NamesTooMuch | Refused::NoRoom => 0,
        }
    }
}

impl fmt::Display for Refused {
    fn fmt<W: fmt::Write>(&self, f: &mut fmt::Formatter<W>) -> fmt::Result {
        write!(f, "refused {} {}", self.number(), self.place())
    }
}
