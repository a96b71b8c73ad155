// The rows of a table, as parts of its bytes.
ghost use Rattle.std.specs.Prelude.{◌≡◌, ◌≤◌};
ghost use Rattle.table.specs.Rows.{row_at};
ghost use Rattle.table.specs.Limits.{most_variables, row_in_range};
ghost use Rattle.table.specs.RowParts.{RowWhole, meant};

use crate::kinds::Kind;
use crate::ranges::{terms_within, words_within};
use crate::terms::terms;
use crate::words::{number, signed_number, word, words};

// A row: a clause with its literals, or a linear row with its bound and terms. Role 0 is the host, role r is request r.
#[derive(Clone, Copy)]
pub enum Row<'a> {
    Clause {
        role: usize,
        literals: &'a [[u8; 2]],
    },
    Linear {
        role: usize,
        bound: i32,
        terms: &'a [[u8; 6]],
    },
}

// The row at a place.
#[tactic(auto, unfolding(
// the row as the code holds it
crate::specs::RowParts::meant, crate::specs::RowParts::least_length,
// the row as it is meant
crate::specs::Rows::row_of, crate::specs::Rows::linear_at, crate::specs::Rows::clause_at))]
pub fn row_at(table: &[u8], at: usize) -> Row<'_>
    requires { RowWhole table.now at }
    ensures { meant result ≡ row_at table.now at }
{
    let length = number(table, at);
    let role = number(table, at + 4);
    match Kind::from(word(table, at + 2)) {
        Kind::Linear => Row::Linear {
            role,
            bound: signed_number(table, at + 6),
            terms: terms(table, at + 10, (length - 6) / 6),
        },
        _ => Row::Clause {
            role,
            literals: words(table, at + 6, (length - 2) / 2),
        },
    }
}

impl Row<'_> {
    // Whether the row names its role and variables in range, and weights that are not too far from 0.
    #[tactic(auto, unfolding(crate::specs::Limits::row_in_range, crate::specs::RowParts::meant))]
    pub(crate) fn is_in_range(self, variables: usize, requests: usize) -> bool
        requires { variables ≤ most_variables }
        ensures { result ≡ row_in_range variables requests (meant self.entry) }
    {
        match self {
            Row::Clause { role, literals } => {
                role <= requests && words_within(literals, 0, 2 * variables)
            }
            Row::Linear { role, terms, .. } => role <= requests && terms_within(terms, variables),
        }
    }
}
