// The public face: the calls that the store's server makes. Every call answers every input; the crate `promises` has
// what each promises (its specs/Calls.antt).
#![tactic(auto)]

pub mod calls;
pub mod refused;
mod reporting;
mod selecting;
