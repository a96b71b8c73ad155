// The CHECK word: the words of a table add to zero, carries past 16 bits thrown away.
ghost use Rattle.std.specs.Prelude.{◌≡◌, ◌%◌, ◌^◌, map};
ghost use Rattle.table.specs.Words.{word_in, total};

use crate::words::value_in;

// The sum of some words.
#[tactic(auto, using(crate::proofs::Sums::total_fold))]
pub fn sum_of(words: &[[u8; 2]]) -> u16
    ensures { result ≡ total (map word_in words.now) % 2 ^ 16 }
{
    words
        .iter()
        .map(value_in)
        .fold(0, |sum: u16, word| sum.wrapping_add(word))
}
