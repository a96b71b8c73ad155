// Preferred conflicts and relaxations over any yes/no question. The theory is in specs/ and proofs/; what runs here is d, for the bound 2 + 2kd.
#![tactic(auto)]

ghost use Rattle.preference.specs.Depth.{Depth};

// d for each number of requests from 0 to 64.
// Kept: document 01 asks for d set out as a list of 65 entries; the logarithm alone would give the same.
const DEPTHS: [usize; 65] = [
    // 0 and 1
    0, 0,
    // 2
    1,
    // 3 and 4
    2, 2,
    // 5 to 8
    3, 3, 3, 3,
    // 9 to 16
    4, 4, 4, 4, 4, 4, 4, 4,
    // 17 to 32
    5, 5, 5, 5, 5, 5, 5, 5, 5, 5, 5, 5, 5, 5, 5, 5,
    // 33 to 64
    6, 6, 6, 6, 6, 6, 6, 6, 6, 6, 6, 6, 6, 6, 6, 6, 6, 6, 6, 6, 6, 6, 6, 6, 6, 6, 6, 6, 6, 6, 6, 6,
];

// The least number d with 2^d at least `requests`: from the list up to 64, and above that from the logarithm of the number before.
pub fn depth(requests: usize) -> usize
    ensures { Depth requests result }
{
    if requests < DEPTHS.len() {
        return DEPTHS[requests];
    }
    // Kept: the cast of a logarithm, at most 63, is proved to lose nothing; there is no `usize::from` a u32, and `try_from` would need an `unwrap`.
    (requests - 1).ilog2() as usize + 1
}
