//! Numbers as devices have them in registers: their scale, the five forms, and the binary32 that is nearest to a fraction, ties to even
//! (IEEE 754-2019, sections 3.4 and 4.3.1), all computed in whole numbers.
#![tactic(auto)]

mod nearest;
mod registers;
mod scale;
mod signed;

pub use registers::{Words, words_of};
pub use scale::{has_form, have_forms, numerator};
pub use signed::bits_of;
