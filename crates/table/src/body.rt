// The body of a record by the record's number, as a stretch of the caller's own table.
ghost use Rattle.std.specs.Prelude.{◌≡◌};
ghost use Rattle.table.specs.Body.{WholeFrom, place_of_record, stretch_at, stretch_of, body_of};

use crate::reading::read;
use crate::refusals::{Fault, Refusal};
use crate::words::number;

// Where a body stands in its table: its first byte and how many there are.
#[derive(Clone, Copy)]
pub struct Stretch {
    pub start: usize,
    pub length: usize,
}

// Where the body of the record of a number stands in a table whose records are all whole.
#[tactic(auto, unfolding(crate::specs::Body::place_of_record, crate::specs::Body::WholeFrom, crate::specs::Body::stretch_at))]
fn walk(table: &[u8], wanted: usize) -> Result<Stretch, Refusal>
    requires { WholeFrom table.now 0 }
    ensures { result ≡ stretch_at table.now (place_of_record wanted table.now 0) }
{
    let none = Refusal {
        fault: Fault::NoRecord,
        place: table.len(),
    };
    let mut at = 0;
    for _ in 0..wanted {
        if table.len() <= at {
            return Err(none);
        }
        at += 4 + number(table, at);
    }
    if table.len() <= at {
        return Err(none);
    }
    Ok(Stretch {
        start: at + 4,
        length: number(table, at),
    })
}

// Where the body of the record of a number stands: the second call, which tells the refusal of `body` too.
#[tactic(auto, using(crate::proofs::Bodies::accepted_whole, crate::proofs::Bodies::found_in_accepted, crate::proofs::Bodies::refused_body))]
pub fn find_body(table: &[u8], wanted: usize) -> Result<Stretch, Refusal>
    ensures { result ≡ stretch_of table.now wanted }
{
    read(table)?;
    walk(table, wanted)
}

// The body of the record of a number (the first is 0), as that stretch of the table itself; empty where it is
// refused. `find_body` tells the refusal, or that there is none.
#[tactic(auto, using(crate::proofs::Bodies::stretch_within, crate::proofs::Bodies::body_bytes, crate::proofs::Bodies::no_bytes))]
pub fn body(table: &[u8], wanted: usize) -> &[u8]
    ensures { result.now ≡ body_of table.now wanted }
{
    match find_body(table, wanted) {
        Ok(found) => &table[found.start..found.start + found.length],
        Err(_) => &[],
    }
}
