// The one-by-one method: each request is tried once, by one question.
ghost use Rattle.std.specs.Prelude.{◌≡◌, ◌<◌, [], length};
ghost use Rattle.preference.specs.OneByOne.{one_conflict, one_relax};
ghost use Rattle.explain.specs.Ranking.{question_over};
ghost use Rattle.explain.specs.Parts.{Worked, tried_at};

use crate::asking::ask;
use crate::ranked::Ranked;
use crate::workspace::Workspace;

// Asks with the flag of a place at a value, and leaves the answer there.
// Kept: the two methods below share this. One function of both would have each one's invariant and clause, which are two definitions that recur
// from opposite ends of the order (`one_conflict`, `one_relax`).
fn try_at(
    ranked: &Ranked<'_>,
    flags: &mut [bool],
    workspace: &mut Workspace,
    place: usize,
    value: bool,
)
    requires { (length flags.old ≡ length ranked.now.order.now) × (place < length flags.old) }
    ensures { flags.new ≡ tried_at (question_over ranked.now) place value flags.old }
{
    flags[place] = value;
    flags[place] = ask(ranked, flags, workspace);
}

// The conflict: from the least important request on, each is removed where what is left without it cannot
// stand. Returns the number of questions.
pub fn remove_one_by_one(ranked: &Ranked<'_>, flags: &mut [bool], workspace: &mut Workspace) -> u32
    requires { length flags.old ≡ length ranked.now.order.now }
    ensures { Worked (one_conflict (question_over ranked.now) (length flags.old) []) flags.new result }
{
    flags.fill(true);
    let mut asked = 0;
    for place in (0..flags.len()).rev() {
        try_at(ranked, flags, workspace, place, false);
        asked += 1;
    }
    asked
}

// The relaxation: from the most important request on, each is added where that can stand. Returns the number of
// questions.
pub fn add_one_by_one(ranked: &Ranked<'_>, flags: &mut [bool], workspace: &mut Workspace) -> u32
    requires { length flags.old ≡ length ranked.now.order.now }
    ensures { Worked (one_relax (question_over ranked.now) [] (length flags.old)) flags.new result }
{
    flags.fill(false);
    let mut asked = 0;
    for place in 0..flags.len() {
        try_at(ranked, flags, workspace, place, true);
        asked += 1;
    }
    asked
}
