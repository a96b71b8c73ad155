// The scores of literals: what the open rows have to say for each. A row says most for a literal that it needs, and less for one that
// others can stand in for.
ghost use Rattle.std.specs.Prelude.{◌<◌, length, map};
ghost use Rattle.table.specs.Rows.{term_in};
ghost use Rattle.table.specs.RowParts.{meant};
ghost use Rattle.meaning.specs.WholeRows.{TermsNamed, RowNamed};

use crate::notes::Notes;
use crate::open_rows::OpenRows;
use meaning::half_made::is_undecided;
use meaning::terms::ends_of;
use table::rows::{Row, row_at};
use table::terms::{Term, term_in};
use table::words::number_in;

// What a row adds to the score of a literal that it needs.
const NEEDED: u32 = 1 << 19;

// What a row adds to the score of a literal that so many others can stand in for: half as much for each of them.
fn share(others: u64) -> u32 {
    NEEDED >> others.min(19)
}

// How many of a clause's literals are not decided.
// Kept: a loop that adds 0 or 1, since a chain of `filter` and `count` branches at each literal (12 to 15 % slower on tables of clauses).
fn count_undecided(literals: &[[u8; 2]], values: &[Option<bool>]) -> u64 {
    let mut undecided = 0;
    for literal in literals {
        undecided += u64::from(is_undecided(values, number_in(literal) / 2));
    }
    undecided
}

// Adds the shares of a clause.
fn score_clause(literals: &[[u8; 2]], values: &[Option<bool>], notes: &mut Notes) {
    let undecided = count_undecided(literals, values);
    if undecided == 0 {
        return;
    }
    let more = share(undecided - 1);
    for literal in literals {
        notes.add_score(number_in(literal), more);
    }
}

// The room of a linear row: how far its least sum lies below its bound, 0 where it does not.
fn room_of(terms: &[[u8; 6]], bound: i32, values: &[Option<bool>]) -> u64
    requires { TermsNamed (length values.now) (map term_in terms.now) }
{
    let room = i64::from(bound) - ends_of(terms, values).least;
    room.max(0).unsigned_abs()
}

// Adds a term's share to the score of the literal that helps its row: that of the value that does not count a positive weight, and counts a
// negative one. A row needs it where its weight is beyond the room; else others can stand in for it as often as the weight goes into the room.
fn score_term(term: Term, room: u64, values: &[Option<bool>], notes: &mut Notes)
    requires { term.variable < 65536 }
{
    let size = u64::from(term.weight.unsigned_abs());
    if size != 0 && is_undecided(values, term.variable) {
        let helping = 2 * term.variable + usize::from(0 < term.weight);
        notes.add_score(helping, share(room / size));
    }
}

// Adds the shares of a linear row.
fn score_linear(terms: &[[u8; 6]], bound: i32, values: &[Option<bool>], notes: &mut Notes)
    requires { TermsNamed (length values.now) (map term_in terms.now) }
{
    let room = room_of(terms, bound, values);
    for term in terms {
        score_term(term_in(term), room, values, notes);
    }
}

// Adds a row's shares.
#[tactic(auto, unfolding(meaning::specs::WholeRows::RowNamed, table::specs::RowParts::meant))]
fn score_row(row: Row<'_>, values: &[Option<bool>], notes: &mut Notes)
    requires { RowNamed (length values.now) (meant row) }
{
    match row {
        Row::Clause { literals, .. } => score_clause(literals, values, notes),
        Row::Linear { bound, terms, .. } => score_linear(terms, bound, values, notes),
    }
}

// Adds the shares of open rows.
fn score_rows(rows: OpenRows<'_>, notes: &mut Notes) {
    for place in rows.places {
        score_row(row_at(rows.table, usize::from(*place)), rows.values, notes);
    }
}

// Scores all literals anew, by open rows.
pub fn score_anew(rows: OpenRows<'_>, notes: &mut Notes) {
    notes.clear_scores();
    score_rows(rows, notes);
}
