// Whether ORDER names no request twice.
ghost use Rattle.std.specs.Prelude.{◌≡◌, map};
ghost use Rattle.table.specs.Lists.{among, all_different};
ghost use Rattle.table.specs.Words.{word_in};

use crate::words::number_in;

// Whether `wanted` is one of some words.
fn is_among(words: &[[u8; 2]], wanted: usize) -> bool
    ensures { result ≡ among wanted (map word_in words.now) }
{
    words.iter().map(number_in).any(|word| wanted == word)
}

// Whether some words are all different.
#[tactic(auto, unfolding(crate::specs::Lists::all_different))]
pub fn are_different(words: &[[u8; 2]]) -> bool
    ensures { result ≡ all_different (map word_in words.now) }
{
    let mut rest = words;
    while let Some((first, later)) = rest.split_first() {
        if is_among(later, number_in(first)) {
            return false;
        }
        rest = later;
    }
    true
}
