// The walk over the rows of an accepted table, by their places.
ghost use Rattle.std.specs.Prelude.{◌≡◌};
ghost use Rattle.table.specs.Kept.{first_row};
ghost use Rattle.question.specs.RowPlaces.{row_places};

use std::marker::Model;
use table::accepted_table::AcceptedTable;
use table::words::number;

// The place of the first row: HEAD has eight bytes.
const FIRST_ROW: usize = 8;

// The rows that are left: so many, the first of them at a place. Contracts see the list of their places.
#[derive(Drop)]
pub struct Rows<'a> {
    table: AcceptedTable<'a>,
    at: usize,
    left: usize,
}

impl<'a> Model for Rows<'a> {
    ghost use Rattle.std.specs.Prelude.{List, ℕ};
    ghost use Rattle.question.specs.RowPlaces.{row_places, RowsLeft};

    ghost Value = { List ℕ };

    ghost view = { λ rows. row_places rows.left rows.table.bytes.now rows.at };

    ghost invariant = { λ rows. RowsLeft rows.table.frame rows.table.bytes.now rows.left rows.at };
}

impl<'a> Rows<'a> {
    // All rows of a table.
    pub fn of(table: AcceptedTable<'a>) -> Self
        ensures { result ≡ row_places table.entry.frame.rows table.entry.bytes.now first_row }
    {
        Rows {
            table,
            at: FIRST_ROW,
            left: table.frame.rows,
        }
    }
}

impl<'a> Iterator for Rows<'a> {
    ghost use Rattle.std.specs.Iterator.{YieldsFirst, item_count};

    type Item = usize;

    ghost next_gives = { YieldsFirst (λ rows. rows) };

    ghost remaining = { item_count (λ rows. rows) };

    fn next(&mut self) -> Option<usize> {
        if self.left == 0 {
            return None;
        }
        let place = self.at;
        self.at = place + 4 + number(self.table.bytes, place);
        self.left -= 1;
        Some(place)
    }
}
