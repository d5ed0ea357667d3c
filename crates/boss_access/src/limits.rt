//! The limits of `specs/Limits.antt`, as the code has them.

/// How many rules a file may have.
pub const MOST_RULES: usize = 256;

/// How many characters of a name may stand before the `*` of a pattern.
pub const LONGEST_BEGINNING: usize = 63;
