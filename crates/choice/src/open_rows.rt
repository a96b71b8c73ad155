// The rows that are open at a level of the search.
ghost use Rattle.std.specs.Prelude.{length};
ghost use Rattle.meaning.specs.WholeRows.{RowsAsked};

// The places of open rows in a table, and the setting that leaves them open. Each of these rows may be read; a ghost field takes only what
// has one proof at most, so that it says so without the number of requests that each row is in range for.
#[derive(Clone, Copy)]
pub(crate) struct OpenRows<'a> {
    pub(crate) table: &'a [u8],
    pub(crate) places: &'a [u16],
    pub(crate) values: &'a [Option<bool>],
    ghost asked: { ∥ RowsAsked table.now places.now (length places.now) (length values.now) ∥₁ },
}
