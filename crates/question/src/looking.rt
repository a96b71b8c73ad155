// A look at a half-made setting: whether some row fails, whether all are met, or what is decided next.
ghost use Rattle.std.specs.Prelude.{length};
ghost use Rattle.meaning.specs.WholeRows.{RowsAsked};
ghost use Rattle.question.specs.Looking.{Looked};

use crate::narrowing::{narrow, narrow_unless_blind};
use choice::choosing::{Decision, choose};
use choice::notes::Notes;

// No completion meets all rows; some completion does; or the next decision will tell, with so many rows open.
#[derive(Clone, Copy)]
pub enum Seen {
    Fails,
    Met,
    Open { decision: Decision, left: usize },
}

// Looks at the rows at the places; those that stay open are moved to the front. `notes` and `blind`, the number of levels that are still
// decided without a look at the rows, choose the decision and never an answer.
pub fn look(
    table: &[u8],
    places: &mut [u16],
    values: &[Option<bool>],
    notes: &mut Notes,
    blind: usize,
) -> Seen
    requires { RowsAsked table.now places.old (length places.old) (length values.now) }
    ensures { Looked table.now values.now places.old places.new result }
{
    let left = match narrow_unless_blind(table, places, values, blind) {
        Ok(left) => left,
        Err(failed) => {
            notes.blame(values, failed.tested);
            return Seen::Fails;
        }
    };
    if left == 0 {
        return Seen::Met;
    }
    if let Some(decision) = choose(table, &places[..left], values, notes, blind) {
        return Seen::Open { decision, left };
    }
    match narrow(table, &mut places[..left], values) {
        Ok(_) => Seen::Met,
        Err(_) => Seen::Fails,
    }
}
