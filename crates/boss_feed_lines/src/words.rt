ghost use Rattle.std.specs.Prelude.{◌≡◌, ℕ, List, ◌∷◌, ◌++◌, MatchOption};
ghost use Rattle.boss_feed_lines.specs.Told.{NoBlank, TellsNumbers};

use crate::number::number_of;
use memchr::memchr;

/// What stands behind a word that the line begins with.
pub(crate) fn behind<'a>(line: &'a [u8], word: &[u8]) -> Option<&'a [u8]>
    ensures { MatchOption result ((rest : List ℕ) → line.now ≡ word.now ++ rest → ⊥) (λ rest. line.now ≡ word.now ++ rest.now) }
{
    line.strip_prefix(word)
}

/// What stands before the first blank, and what behind it.
pub(crate) fn at_blank(text: &[u8]) -> Option<(&[u8], &[u8])>
    ensures { MatchOption result
        ((word rest : List ℕ) → NoBlank word → text.now ≡ word ++ 32 ∷ rest → ⊥)
        (λ parts. NoBlank parts.0.now × (text.now ≡ parts.0.now ++ 32 ∷ parts.1.now)) }
{
    match memchr(b' ', text) {
        Some(place) => Some((&text[..place], &text[place + 1..])),
        None => None,
    }
}

/// The two numbers that these bytes are, with a blank between them.
pub(crate) fn numbers_of(text: &[u8]) -> Option<(u64, u64)>
    ensures { TellsNumbers text.now result }
{
    let (first, second) = at_blank(text)?;
    let first = number_of(first)?;
    let second = number_of(second)?;
    Some((first, second))
}
