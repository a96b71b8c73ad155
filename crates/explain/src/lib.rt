// The two methods in code: which requests cannot stand, or which can, over an order that is lent as a slice of
// request numbers. The flags say for each place of the order whether its request is chosen; the methods work
// on them in place. What each gives is its definition in the crate `preference`, at the question of this table.
#![tactic(auto)]

pub mod answers;
mod asking;
mod halving;
mod one_by_one;
pub mod ranked;
mod span;
pub mod workspace;
