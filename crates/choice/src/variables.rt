// The undecided variable that ranks highest.
ghost use Rattle.std.specs.Prelude.{◌+◌, ◌<◌, length};
ghost use Rattle.choice.specs.Chosen.{Chosen};

use crate::notes::Notes;
use meaning::half_made::is_undecided;

// The better of the best variable so far and the next one; the lower number where both have one rank.
fn better(values: &[Option<bool>], notes: &Notes, best: Option<usize>, next: usize) -> Option<usize>
    requires { Chosen values.now next best × (next < length values.now) }
    ensures { Chosen values.now (next + 1) result }
{
    if !is_undecided(values, next) {
        return best;
    }
    if let Some(variable) = best {
        if notes.rank_of(next) <= notes.rank_of(variable) {
            return best;
        }
    }
    Some(next)
}

// The undecided variable that ranks highest; none where every one is decided.
pub fn best_variable(values: &[Option<bool>], notes: &Notes) -> Option<usize>
    ensures { Chosen values.now (length values.now) result }
{
    let mut best = None;
    for next in 0..values.len() {
        best = better(values, notes, best, next);
    }
    best
}
