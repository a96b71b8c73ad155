// Asking whether the chosen requests of an order can stand.
ghost use Rattle.std.specs.Prelude.{◌≡◌, true, length};
ghost use Rattle.table.specs.Lists.{every};
ghost use Rattle.table.specs.Limits.{within};
ghost use Rattle.preference.specs.Named.{named};
ghost use Rattle.explain.specs.Asking.{marked};
ghost use Rattle.explain.specs.Ranking.{question_over};

use crate::ranked::Ranked;
use crate::workspace::Workspace;
use question::search::can_stand;
use table::limits::MOST_REQUESTS;

// Marks the chosen requests of an order by their numbers.
fn mark(order: &[u16], flags: &[bool], chosen: &mut [bool])
    requires { every (within 0 (length chosen.old)) order.now ≡ true }
    ensures { chosen.new ≡ marked (named order.now flags.now) chosen.old }
{
    for (request, is_chosen) in order.iter().zip(flags) {
        if *is_chosen {
            chosen[usize::from(*request)] = true;
        }
    }
}

// Whether the chosen requests of the order can stand.
pub fn ask(ranked: &Ranked<'_>, flags: &[bool], workspace: &mut Workspace) -> bool
    requires { length flags.now ≡ length ranked.now.order.now }
    ensures { result ≡ question_over ranked.now flags.now }
{
    workspace.chosen = [false; MOST_REQUESTS + 1];
    workspace.chosen[0] = true;
    mark(ranked.order, flags, &mut workspace.chosen);
    can_stand(ranked.table, &workspace.chosen, &mut workspace.places)
}
