// The state of a clause under a half-made setting.
ghost use Rattle.std.specs.Prelude.{◌≡◌, ◌*◌, ◌<◌, length, map};
ghost use Rattle.table.specs.Words.{word_in};
ghost use Rattle.meaning.specs.States.{literal_state, clause_state};
ghost use Rattle.meaning.specs.WholeRows.{LiteralsNamed};

use crate::state::State;
use table::words::number_in;

// The state of a literal.
#[tactic(auto, unfolding(crate::specs::States::literal_state, crate::specs::States::may_be_true, crate::specs::States::must_be_true))]
fn literal_state(literal: usize, values: &[Option<bool>]) -> State
    requires { literal < 2 * length values.now }
    ensures { result ≡ literal_state values.now literal }
{
    match values[literal / 2] {
        None => State::Open,
        Some(value) => {
            if value == (literal % 2 == 0) {
                State::Met
            } else {
                State::Fails
            }
        }
    }
}

// The state of the clause of some literals.
pub fn clause_state(literals: &[[u8; 2]], values: &[Option<bool>]) -> State
    requires { LiteralsNamed (length values.now) (map word_in literals.now) }
    ensures { result ≡ clause_state values.now (map word_in literals.now) }
{
    let mut state = State::Fails;
    for literal in literals {
        match literal_state(number_in(literal), values) {
            State::Met => return State::Met,
            State::Open => state = State::Open,
            State::Fails => {}
        }
    }
    state
}
