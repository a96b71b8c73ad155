// The trail of a search: its decisions, and for each how many rows wait for its other value.
ghost use Rattle.std.specs.Prelude.{◌≡◌, ◌<◌, ◌≤◌, [], ◌∷◌, false, MatchOption, length, get_or, set};
ghost use Rattle.table.specs.Limits.{most_variables};
ghost use Rattle.question.specs.Trail.{TakenBack, EachInside, other_value};

use std::marker::Model;
use table::limits::MOST_VARIABLES;

// A decision: its variable, and how many rows wait for the other value; 0 where both values are tried.
// Kept: a count that may be 0 and no Option, by which the definitions `back_to` and `values_back` take decisions back.
#[derive(Clone, Copy)]
pub struct Decided {
    pub variable: usize,
    pub waiting: usize,
}

// The decisions, in the sequence in which they were made. Contracts see a list of them, the last one first.
// Kept: an array and how much of it is used, since nothing here is on the heap, and the crates stand on std alone.
#[derive(Drop)]
pub struct Trail {
    decided: [Decided; MOST_VARIABLES],
    depth: usize,
}

impl Model for Trail {
    ghost use Rattle.std.specs.Prelude.{◌≤◌, List};
    ghost use Rattle.table.specs.Limits.{most_variables};
    ghost use Rattle.question.specs.declared.trail.Decided.{Decided};
    ghost use Rattle.question.specs.Trail.{decisions};

    ghost Value = { List Decided };

    ghost view = { λ trail. decisions trail.decided trail.depth };

    ghost invariant = { λ trail. trail.depth ≤ most_variables };
}

impl Trail {
    // Nothing is decided yet.
    pub fn new() -> Self
        ensures { result ≡ [] }
    {
        let none = Decided {
            variable: 0,
            waiting: 0,
        };
        Trail {
            decided: [none; MOST_VARIABLES],
            depth: 0,
        }
    }

    // Adds a decision at the end.
    pub fn push(&mut self, decision: Decided)
        requires { length self.old < most_variables }
        ensures { self.new ≡ decision ∷ self.old }
    {
        self.decided[self.depth] = decision;
        self.depth += 1;
    }

    // Takes the last decision off.
    fn pop(&mut self) -> Option<Decided>
        ensures { MatchOption result ((self.old ≡ []) × (self.new ≡ [])) (λ last. self.old ≡ last ∷ self.new) }
    {
        if self.depth == 0 {
            return None;
        }
        self.depth -= 1;
        Some(self.decided[self.depth])
    }

    // Takes back the decisions at the end of which both values are tried, and with them the last one for which rows wait, which is told.
    pub fn take_back(&mut self, values: &mut [Option<bool>]) -> Option<Decided>
        requires { EachInside values.old self.old }
        ensures { TakenBack self.old values.old result self.new values.new }
    {
        while let Some(last) = self.pop() {
            if last.waiting != 0 {
                return Some(last);
            }
            values[last.variable] = None;
        }
        None
    }

    // Gives the variable of a decision that was taken back its other value, for which then nothing waits any more.
    pub fn turn(&mut self, values: &mut [Option<bool>], last: Decided)
        requires room { length self.old < most_variables }
        requires inside { last.variable < length values.old }
        ensures again { self.new ≡ record { variable = last.variable; waiting = 0 } ∷ self.old }
        ensures other { values.new ≡ set values.old last.variable (other_value (get_or values.old last.variable (Some false))) }
    {
        values[last.variable] = values[last.variable].map(|value| !value);
        self.push(Decided {
            variable: last.variable,
            waiting: 0,
        });
    }
}
