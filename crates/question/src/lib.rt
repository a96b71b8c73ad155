// The question: can a selection of requests stand? The places of the rows that count are noted once; every
// row is read from the table's bytes where it is needed, and nothing is decoded or summed ahead. The
// definitions that the contracts cite stand in specs/; read specs/Lib.antt first.
#![tactic(auto)]

mod looking;
mod narrowing;
mod places;
mod rows;
pub mod search;
mod trail;
