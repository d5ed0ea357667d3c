//! The limits of `specs/Limits.antt`, as the code has them.

/// How many entries a file may have.
pub const MOST_ENTRIES: usize = 512;

/// How many workers may be kept for whoever shows a key.
pub const MOST_RESERVE: u32 = 1_024;

/// How many characters the digest of a key has, in hexadecimal.
pub const DIGEST_LENGTH: usize = 64;

/// How many characters a key has at least.
pub const SHORTEST_KEY: usize = 32;

/// How many characters a key may have.
pub const LONGEST_KEY: usize = 128;
