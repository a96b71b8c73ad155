// The requests of an accepted table in an order: what all the questions of a call are asked about.
ghost use Rattle.std.specs.Prelude.{◌≡◌, ◌≤◌, true, length};
ghost use Rattle.table.specs.Limits.{most_requests, order_in_range};

use table::accepted_table::AcceptedTable;

// An accepted table, and an order over its requests: request numbers, the most important first.
// Kept: that there are as many flags as requests in the order is asked of each function by itself. In a struct of both, lent to be changed, each
// clause would have to say too that table and order stay.
#[derive(Clone, Copy)]
pub struct Ranked<'a> {
    pub table: AcceptedTable<'a>,
    pub order: &'a [u16],
    ghost numbers: { order_in_range table.frame.requests order.now ≡ true },
    ghost few: { length order.now ≤ most_requests },
}
