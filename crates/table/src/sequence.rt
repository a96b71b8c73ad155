// The sequence of records: HEAD comes first, then rows, one ORDER, one CHECK, and the end.
ghost use Rattle.std.specs.Prelude.{◌≡◌, ◌<◌, ◌≤◌, length};
ghost use Rattle.table.specs.Limits.{most_variables, most_requests};
ghost use Rattle.table.specs.Reading.{step_at};

use crate::kinds::Kind;
use crate::record::{Phase, Record, State};
use crate::refusals::Fault;
use crate::rules::{check, head, order, row};
use crate::words::number;

// What the record at a place does: the state after it, or what is wrong with it.
#[tactic(auto, unfolding(
// the tests of a record, in their order
crate::specs::Reading::step_at, crate::specs::Tests::is_whole, crate::specs::Reading::rule_of,
// what those on its kind and its sequence come to
crate::specs::Kinds::is_row, crate::specs::Kinds::is_known, crate::specs::Kinds::is_head, crate::specs::Tests::head_first, crate::specs::Tests::in_sequence))]
pub fn step(table: &[u8], at: usize, state: State) -> Result<State, Fault>
    requires { (at < length table.now) × (state.frame.variables ≤ most_variables) × (state.frame.requests ≤ most_requests) }
    ensures { result ≡ step_at table.now at state }
{
    let left = table.len() - at;
    if left < 4 || left - 4 < number(table, at) {
        return Err(Fault::Cut);
    }
    let record = Record { table, at };
    let kind = record.kind();
    match (state.phase, kind) {
        (_, Kind::Unknown) => Err(Fault::UnknownKind),
        (Phase::Start, Kind::Head) => head(record),
        (Phase::Start, _) | (_, Kind::Head) => Err(Fault::NoHead),
        (Phase::Rows, Kind::Clause | Kind::Linear) => row(record, kind, state.frame),
        (Phase::Rows, Kind::Order) => order(record, state.frame),
        (Phase::Ordered, Kind::Check) => check(record, state.frame),
        _ => Err(Fault::OutOfSequence),
    }
}
