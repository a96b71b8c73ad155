// The rows that count in a question, found once before the search: only their places are noted, and each row
// is still read from the table's bytes wherever it is tested.
ghost use Rattle.std.specs.Prelude.{◌≤◌, length};
ghost use Rattle.meaning.specs.Stands.{by_role};
ghost use Rattle.question.specs.MayAsk.{MayAsk};
ghost use Rattle.question.specs.Counting.{Noted};

use crate::rows::Rows;
use table::accepted_table::AcceptedTable;
use table::words::number;

// Notes the places of the rows that count, in the table's sequence, and tells how many they are. Every place
// is written, and the next one over it where its row does not count: that leaves the compiled code no branch.
pub fn note_places(table: AcceptedTable<'_>, chosen: &[bool], places: &mut [u16]) -> usize
    requires { MayAsk table.frame chosen.now × (table.frame.rows ≤ length places.old) }
    ensures { Noted (by_role chosen.now) table.entry.frame.rows table.entry.bytes.now places.new result }
{
    let mut noted = 0;
    for place in Rows::of(table) {
        // Kept: the cast is proved to lose nothing (a table has at most 32,768 bytes), where `try_from` would need an `unwrap` that is proved by the
        // same. How many are noted is counted by hand, since not every turn notes one.
        places[noted] = place as u16;
        noted += usize::from(chosen[number(table.bytes, place + 4)]);
    }
    noted
}
