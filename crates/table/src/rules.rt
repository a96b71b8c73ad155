// The rule of each kind of record where its kind may stand: the tests of document 01 in their order, and the
// state after it. Test 2, that the record is whole, has been passed.
ghost use Rattle.std.specs.Prelude.{◌≡◌, ℕ, ◌<◌, ◌≤◌, true, length};
ghost use Rattle.table.specs.declared.record.Frame.{Frame};
ghost use Rattle.table.specs.declared.record.Phase.TheVariants.{Start, Rows, Ordered};
ghost use Rattle.table.specs.Kinds.{Head, Order, Check, is_row};
ghost use Rattle.table.specs.Rows.{kind_at};
ghost use Rattle.table.specs.Limits.{most_variables, most_requests};
ghost use Rattle.table.specs.Tests.{row_length, length_right};
ghost use Rattle.table.specs.Reading.{rule_of, in_phase};

use crate::check::sum_of;
use crate::kinds::Kind;
use crate::limits::{MOST_LITERALS, MOST_REQUESTS, MOST_ROWS, MOST_TERMS, MOST_VARIABLES};
use crate::order::are_different;
use crate::ranges::words_within;
use crate::record::{Frame, Phase, Record, State};
use crate::refusals::Fault;
use crate::rows::row_at;
use crate::words::{number, words};

// HEAD as the first record.
#[tactic(auto, using(crate::proofs::KindRules::head_rule))]
pub fn head(here: Record<'_>) -> Result<State, Fault>
    ensures { (f : Frame) → result ≡ rule_of Head here.entry.table.now here.entry.at (in_phase Start f) }
{
    if here.length() != 4 {
        return Err(Fault::WrongLength);
    }
    let variables = number(here.table, here.at + 4);
    let requests = number(here.table, here.at + 6);
    if MOST_VARIABLES < variables || MOST_REQUESTS < requests {
        return Err(Fault::OutOfRange);
    }
    Ok(State {
        phase: Phase::Rows,
        frame: Frame {
            variables,
            requests,
            rows: 0,
            order: 0,
        },
    })
}

// Whether so many bytes are `unit` bytes and at most `most` parts of as many bytes each.
#[tactic(auto, unfolding(crate::specs::Tests::row_length))]
fn parts_fit(length: usize, unit: usize, most: usize) -> bool
    requires { (0 < unit) × (unit ≤ 6) × (most ≤ 64) }
    ensures { result ≡ row_length unit most length }
{
    unit <= length && length <= unit + unit * most && length % unit == 0
}

// Whether a row of a kind can be so long: its role and literals, or its role, bound and terms.
#[tactic(auto, unfolding(crate::specs::Tests::row_length, crate::specs::Tests::length_right, crate::specs::Kinds::is_row))]
fn length_fits(kind: Kind, length: usize) -> bool
    requires { is_row kind ≡ true }
    ensures { (requests : ℕ) → result ≡ length_right kind requests length }
{
    match kind {
        Kind::Linear => parts_fit(length, 6, MOST_TERMS),
        _ => parts_fit(length, 2, MOST_LITERALS),
    }
}

// CLAUSE or LINEAR among the rows.
#[tactic(auto, using(crate::proofs::KindRules::row_rule))]
pub fn row(here: Record<'_>, kind: Kind, frame: Frame) -> Result<State, Fault>
    requires { (kind ≡ kind_at here.table.now here.at) × (is_row kind ≡ true) × (frame.variables ≤ most_variables) }
    ensures { result ≡ rule_of kind here.entry.table.now here.entry.at (in_phase Rows frame) }
{
    if MOST_ROWS <= frame.rows {
        return Err(Fault::TooManyRows);
    }
    if !length_fits(kind, here.length()) {
        return Err(Fault::WrongLength);
    }
    if !row_at(here.table, here.at).is_in_range(frame.variables, frame.requests) {
        return Err(Fault::OutOfRange);
    }
    Ok(State {
        phase: Phase::Rows,
        frame: Frame {
            rows: frame.rows + 1,
            order: 0,
            ..frame
        },
    })
}

// ORDER after the rows.
#[tactic(auto, using(crate::proofs::KindRules::order_rule))]
pub fn order(here: Record<'_>, frame: Frame) -> Result<State, Fault>
    requires { frame.requests ≤ most_requests }
    ensures { result ≡ rule_of Order here.entry.table.now here.entry.at (in_phase Rows frame) }
{
    let requests = frame.requests;
    if here.length() != 2 * requests {
        return Err(Fault::WrongLength);
    }
    let named = words(here.table, here.at + 4, requests);
    if !words_within(named, 1, requests + 1) {
        return Err(Fault::OutOfRange);
    }
    if !are_different(named) {
        return Err(Fault::NamedTwice);
    }
    Ok(State {
        phase: Phase::Ordered,
        frame: Frame {
            order: here.at,
            ..frame
        },
    })
}

// CHECK after ORDER.
#[tactic(auto, using(crate::proofs::KindRules::check_rule))]
pub fn check(here: Record<'_>, frame: Frame) -> Result<State, Fault>
    ensures { result ≡ rule_of Check here.entry.table.now here.entry.at (in_phase Ordered frame) }
{
    if here.length() != 2 {
        return Err(Fault::WrongLength);
    }
    if sum_of(words(here.table, 0, (here.at + 6) / 2)) != 0 {
        return Err(Fault::NotZero);
    }
    Ok(State {
        phase: Phase::Checked,
        frame,
    })
}
