// The search: a variable that the open rows need most is decided next, and a look at the rows ends a branch as soon as no completion meets
// some row, or no row is open. The branches that are still to be tried stand in the trail, so that the search is one loop.
ghost use Rattle.std.specs.Prelude.{◌≡◌, ◌≤◌, length};
ghost use Rattle.table.specs.Kept.{rows_of};
ghost use Rattle.table.specs.Limits.{most_variables};
ghost use Rattle.meaning.specs.Stands.{stands, by_role};
ghost use Rattle.meaning.specs.WholeRows.{RowsAsked};
ghost use Rattle.question.specs.MayAsk.{MayAsk};
ghost use Rattle.question.specs.Completing.{Completed, MeetsCounting, MeetsEach};

use crate::looking::{Seen, look};
use crate::places::note_places;
use crate::trail::{Decided, Trail};
use choice::notes::Notes;
use table::accepted_table::AcceptedTable;
use table::limits::{MOST_ROWS, MOST_VARIABLES};

// Whether some setting with the decided values meets the rows at the places.
fn complete(table: &[u8], places: &mut [u16], values: &mut [Option<bool>]) -> bool
    requires { RowsAsked table.now places.old (length places.old) (length values.old) × (length values.old ≤ most_variables) }
    ensures { Completed (MeetsEach table.now places.old) values.old result }
{
    let mut notes = Notes::new();
    let mut trail = Trail::new();
    let mut count = places.len();
    let mut blind = 0;
    // Kept: no list is gone through: each turn looks anew, and goes on or back by what it sees. A list of places is an array and a count, since
    // nothing here is on the heap, and the crates stand on std alone.
    loop {
        match look(table, &mut places[..count], values, &mut notes, blind) {
            Seen::Met => return true,
            Seen::Fails => {
                let Some(last) = trail.take_back(values) else {
                    return false;
                };
                trail.turn(values, last);
                count = last.waiting;
                blind = notes.blind_of(last.variable);
            }
            Seen::Open { decision, left } => {
                values[decision.variable] = Some(decision.first);
                trail.push(Decided {
                    variable: decision.variable,
                    waiting: left,
                });
                count = left;
                blind = notes.blind_of(decision.variable);
            }
        }
    }
}

// Kept: that the selection has an entry for each request and the host's is asked of the two functions below and of `note_places` by itself. The
// selection is written anew before each question, so that a struct of it and the table would be made anew, with the same proof, at each.

// Whether some setting with the decided values meets all host rows and all rows of the chosen requests. The list of places is lent to work on.
pub fn can_complete(
    table: AcceptedTable<'_>,
    chosen: &[bool],
    values: &[Option<bool>],
    places: &mut [u16; MOST_ROWS],
) -> bool
    requires { MayAsk table.frame chosen.now × (length values.now ≡ table.frame.variables) }
    ensures { Completed (MeetsCounting table.entry.bytes.now table.entry.frame chosen.now) values.now result }
{
    let noted = note_places(table, chosen, places);
    let entries = values.len();
    let mut work = [None; MOST_VARIABLES];
    work[..entries].copy_from_slice(values);
    complete(table.bytes, &mut places[..noted], &mut work[..entries])
}

// Whether the selection can stand. The list of places is lent to work on.
pub fn can_stand(table: AcceptedTable<'_>, chosen: &[bool], places: &mut [u16; MOST_ROWS]) -> bool
    requires { MayAsk table.frame chosen.now }
    ensures { result ≡ stands (rows_of table.entry.bytes.now table.entry.frame) table.entry.frame.variables (by_role chosen.now) }
{
    let values = [None; MOST_VARIABLES];
    can_complete(table, chosen, &values[..table.frame.variables], places)
}
