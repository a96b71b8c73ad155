// What the questions of a call work on.
use table::limits::{MOST_REQUESTS, MOST_ROWS};

// Two lists, lent from the top of a call so that they stand on the stack once: who is chosen by request number, and the places of rows.
// What they hold between two questions does not matter.
#[derive(Drop)]
pub struct Workspace {
    pub chosen: [bool; MOST_REQUESTS + 1],
    pub places: [u16; MOST_ROWS],
}
