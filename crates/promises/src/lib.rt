// What the public calls promise, and the proofs of the three demands: specs/ and proofs/ alone, no code. The calls
// themselves stand in the crate `hainscope`, and every promise of theirs cites specs/Calls.antt.
#![tactic(auto)]
