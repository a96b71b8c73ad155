// The choice for one level of the search.
ghost use Rattle.std.specs.Prelude.{length};
ghost use Rattle.meaning.specs.WholeRows.{RowsAsked};
ghost use Rattle.choice.specs.Deciding.{Decides};

use crate::blind::blind_below;
use crate::notes::Notes;
use crate::open_rows::OpenRows;
use crate::scores::score_anew;
use crate::variables::best_variable;

// The variable that is decided next, and the value that is tried first.
#[derive(Clone, Copy)]
pub struct Decision {
    pub variable: usize,
    pub first: bool,
}

// The choice at a level where the rows at the places are open, and `blind` levels more are decided blindly; none where all is decided. How
// many of these levels lie below the chosen variable is noted.
// Kept: that the rows may be read is asked by a clause, since the caller moves the places between two calls; from here on it is `OpenRows`.
pub fn choose(
    table: &[u8],
    places: &[u16],
    values: &[Option<bool>],
    notes: &mut Notes,
    blind: usize,
) -> Option<Decision>
    requires { RowsAsked table.now places.now (length places.now) (length values.now) }
    ensures { Decides values.now result }
{
    if blind == 0 {
        score_anew(
            OpenRows {
                table,
                places,
                values,
            },
            notes,
        );
    }
    let variable = best_variable(values, notes)?;
    let first = notes.better_value(variable);
    let below = blind_below(values, notes, blind, places.len());
    notes.note_blind(variable, below);
    Some(Decision { variable, first })
}
