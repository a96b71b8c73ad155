// The halving method on a part of the requests, which calls itself on the two halves of the part.
// Kept: two functions and no common one, since they differ in which half is worked first, in what is asked before a part is worked, and in what
// a single request is taken for, as the definitions `halve_conflict` and `halve_relax` do.
ghost use Rattle.std.specs.Prelude.{◌≡◌, ◌&&◌, not, length};
ghost use Rattle.explain.specs.Ranking.{question_over};
ghost use Rattle.explain.specs.Parts.{InGround, OutOfGround, ConflictWorked, RelaxationWorked, WholeTried};

use crate::asking::ask;
use crate::ranked::Ranked;
use crate::span::Span;
use crate::workspace::Workspace;

// What working a part told: how many of its requests matter, and how many questions were asked.
#[derive(Clone, Copy)]
pub struct Worked {
    pub found: u32,
    pub asked: u32,
}

// Whether the ground was to be asked, and cannot stand.
fn ground_fails(
    ranked: &Ranked<'_>,
    flags: &[bool],
    workspace: &mut Workspace,
    asking: bool,
) -> bool
    requires { length flags.now ≡ length ranked.now.order.now }
    ensures { result ≡ (asking && not (question_over ranked.now flags.now)) }
{
    asking && !ask(ranked, flags, workspace)
}

// Works the conflict on a part whose flags are all false: those before it are all chosen, and those after it are decided.
pub fn halve_conflict(
    ranked: &Ranked<'_>,
    flags: &mut [bool],
    workspace: &mut Workspace,
    part: Span,
    asking: bool,
) -> Worked
    requires { (length flags.old ≡ length ranked.now.order.now) × InGround part.from part.count flags.old }
    ensures { ConflictWorked (question_over ranked.now) part.from part.count asking
        flags.old flags.new result.found result.asked }
{
    if ground_fails(ranked, flags, workspace, asking) {
        return Worked { found: 0, asked: 1 };
    }
    let asked = u32::from(asking);
    if part.count == 1 {
        flags[part.from] = true;
        return Worked { found: 1, asked };
    }
    let (first_half, second_half) = part.halves();
    first_half.fill(flags, true);
    let second = halve_conflict(ranked, flags, workspace, second_half, true);
    first_half.fill(flags, false);
    let more = 0 < second.found;
    let first = halve_conflict(ranked, flags, workspace, first_half, more);
    Worked {
        found: second.found + first.found,
        asked: asked + (second.asked + first.asked),
    }
}

// Whether the part was to be asked, and stands whole with what was kept before it. Where it does its flags are
// all true, and otherwise all false, as they were.
fn stands_whole(
    ranked: &Ranked<'_>,
    flags: &mut [bool],
    workspace: &mut Workspace,
    part: Span,
    asking: bool,
) -> bool
    requires { (length flags.old ≡ length ranked.now.order.now) × OutOfGround part.from part.count flags.old }
    ensures { WholeTried (question_over ranked.now) part.from part.count asking flags.old flags.new result }
{
    if !asking {
        return false;
    }
    part.fill(flags, true);
    if ask(ranked, flags, workspace) {
        return true;
    }
    part.fill(flags, false);
    false
}

// Works the relaxation on a part: those before it are decided, and neither the part nor what comes after it is chosen yet.
pub fn halve_relaxation(
    ranked: &Ranked<'_>,
    flags: &mut [bool],
    workspace: &mut Workspace,
    part: Span,
    asking: bool,
) -> Worked
    requires { (length flags.old ≡ length ranked.now.order.now) × OutOfGround part.from part.count flags.old }
    ensures { RelaxationWorked (question_over ranked.now) part.from part.count asking
        flags.old flags.new result.found result.asked }
{
    if stands_whole(ranked, flags, workspace, part, asking) {
        return Worked { found: 0, asked: 1 };
    }
    let asked = u32::from(asking);
    if part.count == 1 {
        return Worked { found: 1, asked };
    }
    let (first_half, second_half) = part.halves();
    let first = halve_relaxation(ranked, flags, workspace, first_half, true);
    let more = 0 < first.found;
    let second = halve_relaxation(ranked, flags, workspace, second_half, more);
    Worked {
        found: first.found + second.found,
        asked: asked + (first.asked + second.asked),
    }
}
