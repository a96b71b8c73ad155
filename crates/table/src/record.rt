// The records of a table, and what they tell one after another.
ghost use Rattle.std.specs.Prelude.{◌≡◌, ◌<◌, ◌≤◌, length};
ghost use Rattle.table.specs.Rows.{after, kind_at, length_at};

use crate::kinds::Kind;
use crate::words::{number, word};

// A record that stands whole in a table, from its first byte on.
#[derive(Clone, Copy)]
pub struct Record<'a> {
    pub table: &'a [u8],
    pub at: usize,
    ghost whole: { after table.now at ≤ length table.now },
}

impl Record<'_> {
    // How many bytes its body has.
    pub fn length(self) -> usize
        ensures { (result ≡ length_at self.entry.table.now self.entry.at) × (result < 65536) }
    {
        number(self.table, self.at)
    }

    // Its kind.
    pub fn kind(self) -> Kind
        ensures { result ≡ kind_at self.entry.table.now self.entry.at }
    {
        Kind::from(word(self.table, self.at + 2))
    }
}

// How far the table has come: nothing yet, HEAD and rows, ORDER, CHECK.
#[derive(Clone, Copy)]
pub enum Phase {
    Start,
    Rows,
    Ordered,
    Checked,
}

// What is known of a table: V, N, the number of its rows, and the place of its ORDER record.
// Kept: a phase and a frame that begins with zeros, and no bounds in the type: the definition `reading` goes by these two, and every theorem
// speaks of `reading t` and its frame.
#[derive(Clone, Copy)]
pub struct Frame {
    pub variables: usize,
    pub requests: usize,
    pub rows: usize,
    pub order: usize,
}

// What the records so far have told.
#[derive(Clone, Copy)]
pub struct State {
    pub phase: Phase,
    pub frame: Frame,
}
