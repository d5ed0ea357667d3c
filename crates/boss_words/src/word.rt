ghost use Rattle.std.specs.Prelude.{◌≡◌};
ghost use Rattle.boss_words.specs.Words.{word_of};
ghost use Rattle.boss_words.specs.Given.{Gives};

use crate::WordsRefusal;
use std::alloc::Global;
use std::marker::Model;

/// A word of the command line that names something: any text but the empty one.
/// A contract sees it as the list of its bytes.
#[derive(Debug, Drop)]
pub struct Word {
    text: String,
}

impl Model for Word {
    ghost use Rattle.std.specs.Prelude.{List, ℕ, string_bytes};

    ghost Value = { List ℕ };

    ghost view = { λ word. string_bytes word.text };
}

impl Word {
    /// The word's text.
    pub fn text(&self) -> &str
        ensures { result.now ≡ self.now }
    {
        self.text.as_str()
    }

    /// The word with this text. The empty text is none.
    pub(crate) fn new(alloc: Global, text: &str) -> Result<Word, WordsRefusal>
        ensures { Gives result (word_of text.now) }
    {
        if text.is_empty() {
            return Err(WordsRefusal::Usage);
        }
        let text = String::from_str(alloc, text)?;
        Ok(Word { text })
    }
}
