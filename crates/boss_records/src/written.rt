ghost use Rattle.std.specs.Prelude.{◌≡◌, ℕ, ◌+◌, ◌*◌, ◌≤◌, true, List, ◌++◌, length, map, flat_map};
ghost use Rattle.std.specs.List.{list_all};
ghost use Rattle.def_bytes.specs.Exact.{IsShort};
ghost use Rattle.def_bytes.specs.Fields.{Field};

use crate::room::Room;

/// What can be written as an item of a list: a type with its field.
pub trait Written {
    /// What contracts see of an item.
    ghost Value: { Type 0 };

    ghost view: { Self → Value };
    /// How it is spelled.
    ghost field: { Field Value };

    /// The item's spelling, at the end.
    fn write<R: Room>(&self, into: &mut R)
        requires fits { field.fits (view self.now) ≡ true }
        requires room { length (R.bytes into.old) + field.most ≤ R.capacity into.old }
        ensures bytes { R.bytes into.new ≡ R.bytes into.old ++ field.text (view self.now) }
        ensures capacity { R.capacity into.new ≡ R.capacity into.old };

    /// No spelling is longer than the field says.
    ghost is_short: { IsShort field };
}

/// The items' spellings, one behind the other.
pub fn write_items<T: Written, R: Room>(into: &mut R, items: &[T])
    requires fits { list_all T.field.fits (map T.view items.now) ≡ true }
    requires room { length (R.bytes into.old) + length items.now * T.field.most ≤ R.capacity into.old }
    ensures bytes { R.bytes into.new ≡ R.bytes into.old ++ flat_map T.field.text (map T.view items.now) }
    ensures capacity { R.capacity into.new ≡ R.capacity into.old }
{
    for item in items {
        item.write(into);
    }
}
