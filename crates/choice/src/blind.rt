// How many levels of the search are decided blindly: where the variables that the open rows name are few beside these rows, all their values
// are tried, and the rows are tested once they are all decided.
use crate::notes::Notes;
use meaning::half_made::is_undecided;

// So many variables are tried blindly at most.
const MOST_BLIND: usize = 12;

// How many undecided variables have a score.
fn count_named(values: &[Option<bool>], notes: &Notes) -> usize {
    (0..values.len())
        .filter(|variable| is_undecided(values, *variable) && notes.score_of(*variable) != 0)
        .count()
}

// How many levels more are decided blindly below a level, where `blind` are at it and so many rows are open.
pub fn blind_below(values: &[Option<bool>], notes: &Notes, blind: usize, rows: usize) -> usize {
    if 0 < blind {
        return blind - 1;
    }
    let named = count_named(values, notes);
    if named == 0 || MOST_BLIND < named || rows < (1 << named) / 8 {
        return 0;
    }
    named - 1
}
