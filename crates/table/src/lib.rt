// The table: every byte string is read, and is accepted with its frame or refused with the fault and
// the place that document 01 fixes. The definitions that the contracts cite stand in specs/; read
// specs/Lib.antt first.
#![tactic(auto)]

pub mod accepted_table;
pub mod body;
mod check;
pub mod kinds;
pub mod limits;
mod order;
mod ranges;
pub mod reading;
pub mod record;
pub mod refusals;
pub mod rows;
mod rules;
mod sequence;
pub mod terms;
pub mod words;
