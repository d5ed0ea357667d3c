ghost use Rattle.std.specs.Prelude.{◌≡◌, ◌≤◌, ℕ, List, [], ◌++◌, codes, length, IfOk};
ghost use Rattle.boss_feed_lines.specs.Told.{item_told};
ghost use Rattle.boss_model.specs.Limits.{longest_line};
ghost use Rattle.def_feed.specs.Items.{Reads};

use crate::digits::Digits;
use crate::number::number_of;
use crate::words::{at_blank, behind, numbers_of};
use boss_model::NoMemory;
use std::alloc::Global;

/// What a line of a feed tells.
#[derive(Clone, Copy, Debug, PartialEq, Eq)]
pub enum Item {
    /// That a state follows, in parts.
    State {
        /// How many events led to it.
        number: u64,
        /// How many bytes it has.
        size: u64,
    },
    /// Bytes of a state. `ItemReader::bytes` gives them.
    Part,
    /// An event. `ItemReader::bytes` gives its bytes.
    Event {
        /// Its number, from 1 on.
        number: u64,
    },
}

/// Reads the lines of a feed, one after another.
#[derive(Debug, Drop)]
pub struct ItemReader {
    told: Digits,
}

impl ItemReader {
    /// Takes all memory that reading wants: 98 KB.
    pub fn new(alloc: Global) -> Result<ItemReader, NoMemory>
        ensures { IfOk result (λ reader. reader.told ≡ []) }
    {
        Ok(ItemReader {
            told: Digits::new(alloc)?,
        })
    }

    /// The bytes that the last line told, where it was a part or an event.
    pub fn bytes(&self) -> &[u8]
        ensures { result.now ≡ self.now.told }
    {
        self.told.bytes()
    }

    /// What a line tells, exactly as it is written; none where it tells nothing of a feed.
    pub fn read(&mut self, line: &[u8]) -> Option<Item>
        requires { length line.now ≤ longest_line }
        ensures { Reads line.now (item_told result self.new.told) }
    {
        if let Some(numbers) = behind(line, b"state ") {
            return state(numbers);
        }
        if let Some(digits) = behind(line, b"part ") {
            return self.part(digits);
        }
        match behind(line, b"event ") {
            Some(event) => self.event(event),
            None => None,
        }
    }

    /// Bytes of a state, by their digits.
    fn part(&mut self, digits: &[u8]) -> Option<Item>
        requires { length digits.now ≤ longest_line }
        ensures { Reads (codes "part " ++ digits.now) (item_told result self.new.told) }
    {
        if self.told.take(digits) {
            Some(Item::Part)
        } else {
            None
        }
    }

    /// An event, by its number and the digits of its bytes.
    fn event(&mut self, text: &[u8]) -> Option<Item>
        requires { length text.now ≤ longest_line }
        ensures { Reads (codes "event " ++ text.now) (item_told result self.new.told) }
    {
        let (number, digits) = at_blank(text)?;
        let number = number_of(number)?;
        if self.told.take(digits) {
            Some(Item::Event { number })
        } else {
            None
        }
    }
}

/// A state, by its number and how many bytes it has.
fn state(numbers: &[u8]) -> Option<Item>
    ensures { (bytes : List ℕ) → Reads (codes "state " ++ numbers.now) (item_told result bytes) }
{
    let (number, size) = numbers_of(numbers)?;
    Some(Item::State { number, size })
}
