// The state of a linear row under a half-made setting, by the least and the most that its terms can add up to. Both sums are exact for any
// i32 weights: so many terms as a row can have do not add up to an i64's limits.
ghost use Rattle.std.specs.Prelude.{◌≡◌, ◌<◌, cond, [], ◌∷◌, length, map, pos};
ghost use Rattle.table.specs.Rows.{term_in};
ghost use Rattle.meaning.specs.States.{EndsTold, linear_state};
ghost use Rattle.meaning.specs.WholeRows.{TermsNamed};

use crate::state::State;
use table::terms::{Term, term_in};

// The least and the most that some terms can add up to.
#[derive(Clone, Copy)]
pub struct Ends {
    pub least: i64,
    pub most: i64,
}

// A weight where it counts, else 0. The product instead of a test leaves the compiled code no branch to mispredict.
fn counted(weight: i32, counts: bool) -> i64
    ensures { result ≡ cond counts weight (pos 0) }
{
    i64::from(weight) * i64::from(counts)
}

// Both ends of what a term can come to: with its variable undecided, its weight counts in the least where it is negative and in the most
// where it is not.
fn ends_of_term(term: Term, values: &[Option<bool>]) -> Ends
    requires { term.variable < length values.now }
    ensures { EndsTold values.now (term ∷ []) result.least result.most }
{
    let value = values[term.variable];
    let undecided = value.is_none();
    let decided = counted(term.weight, value == Some(true));
    let least = decided + counted(term.weight.min(0), undecided);
    let most = decided + counted(term.weight.max(0), undecided);
    Ends { least, most }
}

// Both ends of what some terms can add up to.
// Kept: that the terms name variables which there are is asked of each function by itself. It is a fact of terms and values, and a struct of both
// would be made anew, with the same proof, for each row that is read.
pub fn ends_of(terms: &[[u8; 6]], values: &[Option<bool>]) -> Ends
    requires { TermsNamed (length values.now) (map term_in terms.now) }
    ensures { EndsTold values.now (map term_in terms.now) result.least result.most }
{
    let mut least = 0;
    let mut most = 0;
    for term in terms {
        let here = ends_of_term(term_in(term), values);
        least += here.least;
        most += here.most;
    }
    Ends { least, most }
}

// The state of the row of some terms and a bound.
#[tactic(auto, unfolding(crate::specs::States::linear_state))]
pub fn linear_state(terms: &[[u8; 6]], bound: i32, values: &[Option<bool>]) -> State
    requires { TermsNamed (length values.now) (map term_in terms.now) }
    ensures { result ≡ linear_state values.now bound (map term_in terms.now) }
{
    let told = ends_of(terms, values);
    let bound = i64::from(bound);
    if told.most <= bound {
        return State::Met;
    }
    if told.least <= bound {
        return State::Open;
    }
    State::Fails
}
