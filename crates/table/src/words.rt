// The little-endian numbers of a table, and runs of its words.
ghost use Rattle.std.specs.Prelude.{◌≡◌, ◌+◌, ◌*◌, ◌<◌, ◌≤◌, length, map};
ghost use Rattle.table.specs.Words.{u16_at, i32_at, words, word_in};

// The u16 at a place that has both of its bytes.
#[tactic(auto, unfolding(crate::specs::Words::u16_at))]
pub fn word(table: &[u8], at: usize) -> u16
    requires { at + 1 < length table.now }
    ensures { (result ≡ u16_at table.now at) × (result < 65536) }
{
    u16::from_le_bytes([table[at], table[at + 1]])
}

// The same number as a usize.
// Kept: `word` and this, `value_in` and `number_in`: what indexes is a usize, what is stored or summed a u16, and one function of any such type would
// have to be told the type where it is used.
pub fn number(table: &[u8], at: usize) -> usize
    requires { at + 1 < length table.now }
    ensures { (result ≡ u16_at table.now at) × (result < 65536) }
{
    usize::from(word(table, at))
}

// The i32 at a place that has its four bytes.
#[tactic(auto, unfolding(crate::specs::Words::i32_at, crate::specs::Words::u32_at, crate::specs::Words::u16_at))]
pub fn signed_number(table: &[u8], at: usize) -> i32
    requires { at + 3 < length table.now }
    ensures { result ≡ i32_at table.now at }
{
    i32::from_le_bytes([table[at], table[at + 1], table[at + 2], table[at + 3]])
}

// The u16 in the two bytes of a word.
#[tactic(auto, unfolding(crate::specs::Words::u16_at))]
pub fn value_in(word: &[u8; 2]) -> u16
    ensures { (result ≡ word_in word.now) × (result < 65536) }
{
    u16::from_le_bytes(*word)
}

// The same number as a usize.
pub fn number_in(word: &[u8; 2]) -> usize
    ensures { (result ≡ word_in word.now) × (result < 65536) }
{
    usize::from(value_in(word))
}

// The `count` words from a place on.
// Kept: this and `terms` are one expression each, of 2 and of 6 bytes. What a function of any size could promise, parts of bytes, each caller
// would have to turn into words or terms.
#[tactic(auto, using(crate::proofs::Runs::words_from))]
pub fn words(table: &[u8], from: usize, count: usize) -> &[[u8; 2]]
    requires { from + 2 * count ≤ length table.now }
    ensures { map word_in result.now ≡ words count table.now from }
{
    table[from..from + 2 * count].as_chunks().0
}
