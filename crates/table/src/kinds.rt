// The kinds of records.
ghost use Rattle.std.specs.Prelude.{◌≡◌};

// What a record is, by its kind number.
// Kept: a variant for all numbers that are no kind, in place of a TryFrom, since the definition `kind_of` gives every number a kind.
#[derive(Clone, Copy)]
pub enum Kind {
    Head,
    Clause,
    Linear,
    Order,
    Check,
    Unknown,
}

impl From<u16> for Kind {
    ghost use Rattle.table.specs.Kinds.{kind_of};

    ghost from_gives = { λ number kind. kind ≡ kind_of number };

    #[tactic(auto, unfolding(crate::specs::Kinds::kind_of))]
    fn from(number: u16) -> Kind {
        match number {
            1 => Kind::Head,
            2 => Kind::Clause,
            3 => Kind::Linear,
            4 => Kind::Order,
            5 => Kind::Check,
            0 | 6..=65535 => Kind::Unknown,
        }
    }
}
