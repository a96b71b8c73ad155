// The choice: which variable the search decides next, which value it tries first, and how many levels it then decides blindly. A poor
// choice costs time and never an answer, so that next to nothing is promised of it; what is promised stands in specs/Chosen.antt.
#![tactic(auto)]

mod blind;
pub mod choosing;
pub mod notes;
mod open_rows;
mod scores;
mod variables;
