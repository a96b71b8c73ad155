// Whether every number of a run lies in its range.
ghost use Rattle.std.specs.Prelude.{◌≡◌, map};
ghost use Rattle.table.specs.Lists.{every};
ghost use Rattle.table.specs.Words.{word_in};
ghost use Rattle.table.specs.Rows.{term_in};
ghost use Rattle.table.specs.Limits.{within, term_in_range};

use crate::limits::MOST_WEIGHT;
use crate::terms::term_in;
use crate::words::number_in;

// Whether some words are all at least `low` and below `high`.
#[tactic(auto, unfolding(crate::specs::Limits::within))]
pub fn words_within(words: &[[u8; 2]], low: usize, high: usize) -> bool
    ensures { result ≡ every (within low high) (map word_in words.now) }
{
    words
        .iter()
        .map(number_in)
        .all(|word| low <= word && word < high)
}

// Whether some terms all name a variable below `variables` with a weight in range.
#[tactic(auto, unfolding(crate::specs::Limits::term_in_range))]
pub fn terms_within(terms: &[[u8; 6]], variables: usize) -> bool
    ensures { result ≡ every (term_in_range variables) (map term_in terms.now) }
{
    terms.iter().map(term_in).all(|term| term.variable < variables
        && term.weight.unsigned_abs() <= MOST_WEIGHT)
}
