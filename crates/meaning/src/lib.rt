// What a table means: settings and rows. A setting is half made while the search works, and the functions here tell the state of a row under
// such a setting. The definitions that the contracts cite stand in specs/; read specs/Lib.antt first.
#![tactic(auto)]

pub mod half_made;
mod literals;
pub mod rows;
pub mod state;
pub mod terms;
