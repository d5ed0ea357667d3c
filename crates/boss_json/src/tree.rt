ghost use Rattle.std.specs.Prelude.{◌≡◌, decimal};
ghost use Rattle.std.specs.Option.{option_and_then};
ghost use Rattle.serde_json.specs.Find.{as_i64};
ghost use Rattle.serde_json.specs.Read.{number_of};
ghost use Rattle.boss_json.specs.Trees.{tree_data};

use crate::JsonValue;
use crate::member::bytes_under;

/// A value over the bytes of a line that is spelled compactly. Its lists lie in the room of a reader, so letting it go takes nothing.
#[derive(Clone, Copy)]
pub enum Tree<'a> {
    /// A text, which stands for itself in the line.
    Text(&'a [u8]),
    /// A whole number without a sign.
    Whole(u64),
    /// The items of an array.
    List(&'a [Tree<'a>]),
    /// The members of an object, each behind its key.
    Object(&'a [(&'a [u8], Tree<'a>)]),
}

impl<'a> JsonValue for Tree<'a> {
    ghost meaning = { tree_data };

    #[inline(always)]
    fn under(&self, key: &str) -> Option<&Tree<'a>> {
        match *self {
            Tree::Object(members) => bytes_under(members, key.as_bytes()),
            _ => None,
        }
    }

    #[inline(always)]
    fn text(&self) -> Option<&[u8]> {
        match *self {
            Tree::Text(text) => Some(text),
            _ => None,
        }
    }

    #[inline(always)]
    fn whole(&self) -> Option<i64> {
        match *self {
            Tree::Whole(number) => signed(number),
            _ => None,
        }
    }

    #[inline(always)]
    fn list(&self) -> Option<&[Tree<'a>]> {
        match *self {
            Tree::List(items) => Some(items),
            _ => None,
        }
    }
}

/// The number, if it fits 64 bits with a sign.
#[inline(always)]
#[tactic(auto, using(crate::proofs::Digits::decimal_number))]
fn signed(number: u64) -> Option<i64>
    ensures { result ≡ option_and_then as_i64 (number_of (decimal number)) }
{
    if number <= i64::MAX as u64 {
        Some(number as i64)
    } else {
        None
    }
}
