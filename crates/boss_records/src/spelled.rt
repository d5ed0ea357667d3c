ghost use Rattle.std.specs.Prelude.{◌≡◌, ◌-◌, ℕ, map};
ghost use Rattle.def_bytes.specs.Fields.{Field, items_at};
ghost use Rattle.boss_records.specs.Given.{Gives};

use crate::unread::Unread;
use std::alloc::Global;

/// What can be read as an item of a list: a type with its field.
pub trait Spelled: Drop + Sized {
    /// What contracts see of an item.
    ghost Value: { Type 0 };

    ghost view: { Self → Value };
    /// How it is spelled.
    ghost field: { Field Value };

    /// The item that the bytes begin with, and what is behind it.
    fn read(alloc: Global, bytes: &[u8]) -> Result<(Self, &[u8]), Unread>
        ensures { Gives (λ x. (view x.0, x.1.now)) result (field.at bytes.now) };
}

/// So many items, one behind the other.
pub fn read_items<T: Spelled>(
    alloc: Global,
    count: u32,
    bytes: &[u8],
) -> Result<(Vec<T>, &[u8]), Unread>
    ensures { Gives (λ x. (map T.view x.0.items, x.1.now)) result (items_at T.field count bytes.now) }
{
    let mut items = Vec::new(alloc);
    let mut rest = bytes;
    for _ in 0..count {
        let (item, behind) = T::read(alloc, rest)?;
        items.push(item)?;
        rest = behind;
    }
    Ok((items, rest))
}
