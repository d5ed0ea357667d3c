ghost use Rattle.std.specs.Prelude.{◌≡◌};
ghost use Rattle.boss_access.specs.Patterns.{matches, pattern_of, named, beginning};

use crate::LONGEST_BEGINNING;
use boss_model::Name;

/// Which names a rule is for.
#[derive(Debug, Drop)]
pub enum Pattern {
    /// This name alone, as `air.damper`.
    Named(Name),
    /// The names that begin with these 1 to 63 characters, as `air.*`.
    Beginning(Name),
    /// Every name: `*`.
    Any,
}

impl Pattern {
    /// Whether the pattern is for this name.
    pub fn matches(&self, name: &Name) -> bool
        ensures { result ≡ matches self.now name.now }
    {
        match self {
            Pattern::Named(own) => own.bytes() == name.bytes(),
            Pattern::Beginning(start) => name.bytes().starts_with(start.bytes()),
            Pattern::Any => true,
        }
    }

    /// The pattern that a text spells: a name, or up to 63 characters of names and a `*` behind them.
    pub fn spelled(text: &[u8]) -> Option<Pattern>
        ensures { result ≡ pattern_of text.now }
    {
        match text.strip_suffix(b"*") {
            Some(start) => Pattern::beginning(start),
            None => Pattern::named(text),
        }
    }

    /// The pattern for one name.
    fn named(text: &[u8]) -> Option<Pattern>
        ensures { result ≡ named text.now }
    {
        let name = Name::new(text)?;
        Some(Pattern::Named(name))
    }

    /// The pattern for all names that begin so.
    fn beginning(start: &[u8]) -> Option<Pattern>
        ensures { result ≡ beginning start.now }
    {
        if start.is_empty() {
            return Some(Pattern::Any);
        }
        if start.len() > LONGEST_BEGINNING {
            return None;
        }
        let name = Name::new(start)?;
        Some(Pattern::Beginning(name))
    }
}
