// The whole answer of a method: the start that all of them share, and then the method's own work.
ghost use Rattle.std.specs.Prelude.{◌≡◌, ◌<◌, length};
ghost use Rattle.preference.specs.Selection.{none};
ghost use Rattle.explain.specs.Ranking.{question_over};
ghost use Rattle.explain.specs.Parts.{Worked};
ghost use Rattle.explain.specs.Methods.{whole_by, worked_by, answer_by, number_of, Begins, Answers};

use crate::asking::ask;
use crate::halving::{halve_conflict, halve_relaxation};
use crate::one_by_one::{add_one_by_one, remove_one_by_one};
use crate::ranked::Ranked;
use crate::span::Span;
use crate::workspace::Workspace;

// Conflict or relaxation, by halving or one by one.
// Kept: the four methods are what the theorems range over (`RightAnswer`, `ReportCall`), so that `settle`, `work` and `record_kind` (hainscope) go by
// cases, and take no closure.
#[derive(Clone, Copy)]
pub enum Method {
    ConflictByHalving,
    ConflictOneByOne,
    RelaxationByHalving,
    RelaxationOneByOne,
}

// What the shared start found: all can stand; the host rows cannot, with the number of questions; or neither,
// after two questions.
#[derive(Clone, Copy)]
pub enum Begun {
    AllStand,
    HostFails(u32),
    Open,
}

// What an answer says of the requests: all can stand together, they cannot, or not even the host rows can.
// The number is that of the report.
#[derive(Clone, Copy)]
pub enum Status {
    AllStand = 0,
    NotAllStand = 1,
    HostFails = 2,
}

impl From<Status> for u16 {
    ghost from_gives = { λ status number. number ≡ number_of status };

    fn from(status: Status) -> u16 {
        status as u16
    }
}

// Status and count of an answer; the flags have its set.
#[derive(Clone, Copy)]
pub struct Outcome {
    pub status: Status,
    pub asked: u32,
}

// The start: all requests are asked, and then the host rows alone.
fn begin(ranked: &Ranked<'_>, flags: &mut [bool], workspace: &mut Workspace) -> Begun
    requires { length flags.old ≡ length ranked.now.order.now }
    ensures { Begins (question_over ranked.now) (length flags.old) result flags.new }
{
    flags.fill(true);
    if ask(ranked, flags, workspace) {
        return Begun::AllStand;
    }
    flags.fill(false);
    if flags.is_empty() {
        return Begun::HostFails(1);
    }
    if ask(ranked, flags, workspace) {
        return Begun::Open;
    }
    Begun::HostFails(2)
}

// Sets the flags to the answer where all can stand: no conflict, or the whole as relaxation.
fn settle(method: Method, flags: &mut [bool])
    ensures { flags.new ≡ whole_by method (length flags.old) }
{
    match method {
        Method::ConflictByHalving | Method::ConflictOneByOne => flags.fill(false),
        Method::RelaxationByHalving | Method::RelaxationOneByOne => flags.fill(true),
    }
}

// Works the method where all cannot stand and the host can. Returns the number of questions.
fn work(method: Method, ranked: &Ranked<'_>, flags: &mut [bool], workspace: &mut Workspace) -> u32
    requires { (length flags.old ≡ length ranked.now.order.now) × (flags.old ≡ none (length flags.old)) × (0 < length flags.old) }
    ensures { Worked (worked_by method (question_over ranked.now) (length flags.old)) flags.new result }
{
    let whole = Span {
        from: 0,
        count: flags.len(),
    };
    match method {
        Method::ConflictByHalving => halve_conflict(ranked, flags, workspace, whole, false).asked,
        Method::ConflictOneByOne => remove_one_by_one(ranked, flags, workspace),
        Method::RelaxationByHalving => {
            halve_relaxation(ranked, flags, workspace, whole, false).asked
        }
        Method::RelaxationOneByOne => add_one_by_one(ranked, flags, workspace),
    }
}

// The answer of a method over an order: status and count, and its set in the flags.
pub fn answer(
    method: Method,
    ranked: &Ranked<'_>,
    flags: &mut [bool],
    workspace: &mut Workspace,
) -> Outcome
    requires { length flags.old ≡ length ranked.now.order.now }
    ensures { Answers (answer_by method (question_over ranked.now) (length flags.old))
        (length flags.old) flags.new (number_of result.status) result.asked }
{
    match begin(ranked, flags, workspace) {
        Begun::AllStand => {
            settle(method, flags);
            Outcome {
                status: Status::AllStand,
                asked: 1,
            }
        }
        Begun::HostFails(asked) => Outcome {
            status: Status::HostFails,
            asked,
        },
        Begun::Open => {
            let asked = work(method, ranked, flags, workspace);
            Outcome {
                status: Status::NotAllStand,
                asked: 2 + asked,
            }
        }
    }
}
