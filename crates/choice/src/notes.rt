// What the choice notes for itself while a search goes on, of each variable. A variable that is not there reads as one of which nothing is
// noted, and nothing is written of it; sums wrap.
ghost use Rattle.std.specs.Prelude.{◌≡◌, [], ◌∷◌, replicate};
ghost use Rattle.table.specs.Limits.{most_variables};

use meaning::half_made::is_undecided;
use table::limits::MOST_VARIABLES;

// The notes: of each variable the scores of its two literals, first that of the one that is true where the variable is 1; how dear the
// variable has been; and how many levels below its decision are decided blindly.
// Kept: three arrays, since one array of structs made a question 4 % slower, and tables of sums 2 to 4 %.
#[derive(Drop)]
pub struct Notes {
    scores: [[u32; 2]; MOST_VARIABLES],
    dearness: [u32; MOST_VARIABLES],
    blind: [usize; MOST_VARIABLES],
}

impl Notes {
    // Nothing is noted yet.
    pub fn new() -> Self
        ensures scores { result.scores ≡ replicate most_variables (0 ∷ 0 ∷ []) }
        ensures dearness { result.dearness ≡ replicate most_variables 0 }
        ensures blind { result.blind ≡ replicate most_variables 0 }
    {
        Notes {
            scores: [[0; 2]; MOST_VARIABLES],
            dearness: [0; MOST_VARIABLES],
            blind: [0; MOST_VARIABLES],
        }
    }

    // Adds to the score of a literal.
    pub fn add_score(&mut self, literal: usize, more: u32) {
        if let Some(score) = self.scores.as_flattened_mut().get_mut(literal) {
            *score = score.wrapping_add(more);
        }
    }

    // Sets all scores to 0.
    pub fn clear_scores(&mut self) {
        self.scores.fill([0; 2]);
    }

    // Notes how many levels below a variable's decision are decided blindly, as 16 bits hold it.
    pub fn note_blind(&mut self, variable: usize, blind: usize) {
        if let Some(noted) = self.blind.get_mut(variable) {
            *noted = blind % 65536;
        }
    }

    // How many levels below a variable's decision are decided blindly.
    pub fn blind_of(&self, variable: usize) -> usize {
        self.blind.get(variable).copied().unwrap_or(0)
    }

    // The score of a variable: what its two literals have together.
    pub fn score_of(&self, variable: usize) -> u32 {
        match self.scores.get(variable) {
            Some([one, zero]) => one.wrapping_add(*zero),
            None => 0,
        }
    }

    // Whether the literal that is true where the variable is 0 has the higher score.
    pub fn zero_is_better(&self, variable: usize) -> bool {
        match self.scores.get(variable) {
            Some([one, zero]) => *one < *zero,
            None => false,
        }
    }

    // The value that makes the literal with the higher score true; 1 where both have one score.
    pub(crate) fn better_value(&self, variable: usize) -> bool {
        !self.zero_is_better(variable)
    }

    // What variables are compared by: dearness first, then score; 0 where the variable has no score.
    // Kept: one number, and 0 for none, which is below every other: two that are compared one after the other (a tuple) made a question 4 % slower.
    pub fn rank_of(&self, variable: usize) -> u64 {
        let score = self.score_of(variable);
        if score == 0 {
            return 0;
        }
        let dearness = self.dearness.get(variable).copied().unwrap_or(0);
        (u64::from(dearness) << 32) + u64::from(score)
    }

    // Makes a variable dearer, where it is decided and has a score.
    fn make_dearer(&mut self, values: &[Option<bool>], variable: usize, more: u32) {
        if is_undecided(values, variable) || self.score_of(variable) == 0 {
            return;
        }
        if let Some(dearness) = self.dearness.get_mut(variable) {
            *dearness = dearness.wrapping_add(more);
        }
    }

    // Makes variables dearer where a row failed only after many others were tested: those that were decided since the rows were scored.
    // They choose which row fails; once they are decided early, the same rows fail again and again, and these are tested first.
    pub fn blame(&mut self, values: &[Option<bool>], tested: usize) {
        let more = u32::try_from(tested / 16 % 65536).unwrap_or(u32::MAX);
        if more == 0 {
            return;
        }
        for variable in 0..MOST_VARIABLES {
            self.make_dearer(values, variable, more);
        }
    }
}
