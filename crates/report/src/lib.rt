// The report: one record that tells a method's answer, written into a lent part of a buffer (document 01, "The report").
#![tactic(auto)]

ghost use Rattle.std.specs.Prelude.{◌≡◌, ◌≤◌, length};
ghost use Rattle.std.proofs.lemmas.List.Edits.{sets};
ghost use Rattle.report.specs.Report.{number_of};
ghost use Rattle.report.specs.Written.{Room, Written, head_bytes, most_numbers};

use crate::bytes::put;
use crate::numbers::put_numbers;

mod bytes;
mod numbers;

// What a report's set is: a conflict or a relaxation. The number is that of the record's kind.
#[derive(Clone, Copy)]
pub enum Kind {
    Conflict = 16,
    Relaxation = 17,
}

impl From<Kind> for u16 {
    ghost from_gives = { λ kind number. number ≡ number_of kind };

    // The number of the kind.
    fn from(kind: Kind) -> u16 {
        kind as u16
    }
}

// What a report says before its request numbers: the number of the record's kind, the status, and how many questions were asked.
// Kept: kind and status are numbers, since `write` answers any two of them (`Written`); a narrower type would ask more of its callers.
#[derive(Clone, Copy)]
pub struct Head {
    pub kind: u16,
    pub status: u16,
    pub count: u32,
}

// The first 12 bytes of a report of `k` requests: the record's head and the body's three numbers.
// Kept: the places 0, 2, 4, 6 and 10 are document 01's; bytes put together in an array first would need the same.
fn put_head(part: &mut [u8], head: Head, k: usize)
    requires { (12 ≤ length part.old) × (k ≤ most_numbers) }
    ensures { part.new ≡ sets part.old 0 (head_bytes head.kind head.status head.count k) }
{
    let Head {
        kind,
        status,
        count,
    } = head;
    // Kept: the two casts are proved to lose nothing, where `try_from` would need an `unwrap` that is proved by the same.
    put(part, 0, &((8 + 2 * k) as u16).to_le_bytes());
    put(part, 2, &kind.to_le_bytes());
    put(part, 4, &status.to_le_bytes());
    put(part, 6, &count.to_le_bytes());
    put(part, 10, &(k as u16).to_le_bytes());
}

// Writes the report of the chosen requests from the part's start on, and gives the place after it. Later bytes stay as they were.
pub fn write(part: &mut [u8], head: Head, order: &[u16], flags: &[bool]) -> usize
    requires { Room part.old order.now flags.now }
    ensures { Written head.kind head.status head.count order.now flags.now part.old part.new result }
{
    let k = put_numbers(part, order, flags);
    put_head(part, head, k);
    12 + 2 * k
}
