// The rows that a half-made setting leaves open: their places are moved to the front of the list.
ghost use Rattle.std.specs.Prelude.{length};
ghost use Rattle.meaning.specs.WholeRows.{RowsAsked};
ghost use Rattle.question.specs.Narrowing.{Narrowed, Reduced};

use meaning::rows::row_state;
use meaning::state::State;
use table::rows::row_at;

// No completion meets some row; so many rows were tested up to it.
#[derive(Clone, Copy)]
pub struct FailedRow {
    pub tested: usize,
}

// Kept: that the rows at the places may be read is asked of each function that moves the places. In a struct that lends them to be changed, each
// clause would have to say too that table and values stay.

// Moves the open rows at the places to the front, and tells how many they are: every completion meets the others. The place of a row that no
// completion meets is put first, to be tested first in the next branch.
pub fn narrow(table: &[u8], places: &mut [u16], values: &[Option<bool>]) -> Result<usize, FailedRow>
    requires { RowsAsked table.now places.old (length places.old) (length values.now) }
    ensures { Narrowed table.now values.now places.old places.new result }
{
    let mut kept = 0;
    for next in 0..places.len() {
        let place = places[next];
        let state = row_state(row_at(table, usize::from(place)), values);
        if state == State::Fails {
            places.swap(0, next);
            return Err(FailedRow { tested: next + 1 });
        }
        // Kept: `swap` first compares the two places, and that branch made a question 5 % slower, on tables of clauses 6 to 10 %. How many
        // are kept is counted by hand, since not every turn keeps one.
        places[next] = places[kept];
        places[kept] = place;
        kept += usize::from(state == State::Open);
    }
    Ok(kept)
}

// The same, but at a level that is decided blindly the rows are left as they are.
pub fn narrow_unless_blind(
    table: &[u8],
    places: &mut [u16],
    values: &[Option<bool>],
    blind: usize,
) -> Result<usize, FailedRow>
    requires { RowsAsked table.now places.old (length places.old) (length values.now) }
    ensures { Reduced table.now values.now places.old places.new result }
{
    if 0 < blind {
        return Ok(places.len());
    }
    narrow(table, places, values)
}
