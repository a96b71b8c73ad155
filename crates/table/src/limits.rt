// The limits of document 01, "Table bytes". Each is written here once, and once in specs/Limits.antt.
pub const MOST_BYTES: usize = 32768;

pub const MOST_VARIABLES: usize = 20;

pub const MOST_REQUESTS: usize = 64;

pub const MOST_ROWS: usize = 512;

pub const MOST_LITERALS: usize = 64;

pub const MOST_TERMS: usize = 20;

pub const MOST_WEIGHT: u32 = 1000000;
