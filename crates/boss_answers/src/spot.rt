//! Where a line is at fault.

ghost use Rattle.std.specs.Prelude.{◌≡◌, ◌+◌, ◌≤◌, length};
ghost use Rattle.boss_model.specs.declared.spot.Key.TheVariants.{Revert};
ghost use Rattle.def_wire.specs.Spots.{at_place, key_text, spot_text, write_text};
ghost use Rattle.boss_answers.specs.Room.{HasRoom, PutsAtMost};

use crate::parts::write_number;
use boss_model::{Buffer, Key, Spot};

/// The key at fault, with the places that lead to it.
pub(crate) fn write_spot(into: &mut Buffer, spot: Spot)
    requires { HasRoom 96 into.old }
    ensures { PutsAtMost 96 into.old into.new (spot_text spot) }
{
    match spot {
        Spot::Line { key } => into.extend(key_name(key)),
        Spot::Named { place } => put_place(into, b"points", u64::from(place)),
        Spot::Write { place, key } => put_write(into, place, key),
        Spot::Step { write, place } => put_step(into, write, place),
        Spot::Half { write, place, half } => put_half(into, write, place, half),
    }
}

/// A key of the write at this place.
fn put_write(into: &mut Buffer, place: u32, key: Key)
    requires { HasRoom 37 into.old }
    ensures { PutsAtMost 37 into.old into.new (write_text place key) }
{
    put_place(into, b"writes", u64::from(place));
    into.push(b'.');
    into.extend(key_name(key));
}

/// The step at this place in the reversion of a write.
fn put_step(into: &mut Buffer, write: u32, place: u64)
    requires { HasRoom 59 into.old }
    ensures { PutsAtMost 59 into.old into.new (at_place (write_text write Revert) place) }
{
    put_write(into, write, Key::Revert);
    write_number(into, b"[", place);
    into.push(b']');
}

/// One of the two numbers of a step.
fn put_half(into: &mut Buffer, write: u32, place: u64, half: u32)
    requires { HasRoom 81 into.old }
    ensures { PutsAtMost 81 into.old into.new (at_place (at_place (write_text write Revert) place) half) }
{
    put_step(into, write, place);
    write_number(into, b"[", u64::from(half));
    into.push(b']');
}

/// A place behind what stands before it.
fn put_place(into: &mut Buffer, before: &[u8], place: u64)
    requires { HasRoom (length before.now + 22) into.old }
    ensures { PutsAtMost (length before.now + 22) into.old into.new (at_place before.now place) }
{
    into.extend(before);
    write_number(into, b"[", place);
    into.push(b']');
}

/// A key, as it stands in a line.
fn key_name(key: Key) -> &'static [u8]
    ensures text { result.now ≡ key_text key }
    ensures short { length result.now ≤ 8 }
{
    match key {
        Key::Op => b"op",
        Key::On => b"on",
        Key::At => b"at",
        Key::Process => b"process",
        Key::Writes => b"writes",
        Key::Policy => b"policy",
        Key::Seq => b"seq",
        Key::Txn => b"txn",
        Key::Length => b"length",
        Key::Points => b"points",
        Key::From => b"from",
        Key::Max => b"max",
        Key::Point => b"point",
        Key::Value => b"value",
        Key::Priority => b"priority",
        Key::Lease => b"lease",
        Key::Revert => b"revert",
    }
}
