// The terms of a linear row.
ghost use Rattle.std.specs.Prelude.{◌≡◌, ◌+◌, ◌*◌, ◌<◌, ◌≤◌, length, map};
ghost use Rattle.table.specs.Rows.{terms, term_in};

// A term: weight times the value of the variable.
#[derive(Clone, Copy)]
pub struct Term {
    pub variable: usize,
    pub weight: i32,
}

// The term in its six bytes: a u16, the variable, and an i32, the weight.
#[tactic(auto, unfolding(crate::specs::Rows::term_at, crate::specs::Words::i32_at, crate::specs::Words::u32_at, crate::specs::Words::u16_at))]
pub fn term_in(bytes: &[u8; 6]) -> Term
    ensures { (result ≡ term_in bytes.now) × (result.variable < 65536) }
{
    Term {
        variable: usize::from(u16::from_le_bytes([bytes[0], bytes[1]])),
        weight: i32::from_le_bytes([bytes[2], bytes[3], bytes[4], bytes[5]]),
    }
}

// The bytes of the `count` terms from a place on.
#[tactic(auto, using(crate::proofs::Runs::terms_from))]
pub fn terms(table: &[u8], from: usize, count: usize) -> &[[u8; 6]]
    requires { from + 6 * count ≤ length table.now }
    ensures { map term_in result.now ≡ terms count table.now from }
{
    table[from..from + 6 * count].as_chunks().0
}
