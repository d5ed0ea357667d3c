ghost use Rattle.std.specs.Prelude.{◌+◌, ◌*◌, ◌≤◌, ◌++◌, ◌∷◌, length, map, codes, decimal};
ghost use Rattle.std.specs.Fmt.{signed_decimal};
ghost use Rattle.std.specs.List.{flat_map};
ghost use Rattle.def_wire.specs.Texts.{listed, slot_text};
ghost use Rattle.boss_answers.specs.Room.{HasRoom, PutsAtMost};

use crate::parts::{write_number, write_signed, write_txn};
use boss_model::{Buffer, Slot, Txn};

/// Slots of a priority array, with commas between them.
pub(crate) fn write_slots(into: &mut Buffer, slots: &[Slot])
    requires few { length slots.now ≤ 16 }
    requires room { HasRoom (16 * 113) into.old }
    ensures { PutsAtMost (16 * 113) into.old into.new (listed (map slot_text slots.now)) }
{
    if let Some((first, others)) = slots.split_first() {
        put_slot(into, *first);
        put_others(into, others);
    }
}

/// Slots, with a comma before each.
fn put_others(into: &mut Buffer, slots: &[Slot])
    requires { HasRoom (113 * length slots.now) into.old }
    ensures { PutsAtMost (113 * length slots.now) into.old into.new (flat_map (λ slot. 44 ∷ slot_text slot) slots.now) }
{
    for slot in slots {
        put_other(into, *slot);
    }
}

/// A slot behind a comma.
fn put_other(into: &mut Buffer, slot: Slot)
    requires { HasRoom 113 into.old }
    ensures { PutsAtMost 113 into.old into.new (44 ∷ slot_text slot) }
{
    into.push(b',');
    put_slot(into, slot);
}

fn put_slot(into: &mut Buffer, slot: Slot)
    requires { HasRoom 112 into.old }
    ensures { PutsAtMost 112 into.old into.new (slot_text slot) }
{
    match slot {
        Slot::Empty => into.extend(b"null"),
        Slot::Lease { value, txn, until } => put_held(into, value, txn, b",\"until\":", until),
        Slot::Pending { value, txn, end } => put_held(into, value, txn, b",\"end\":", end),
    }
}

/// A slot that a transaction holds up to a moment, which stands behind its key.
fn put_held(into: &mut Buffer, value: i64, txn: Txn, key: &[u8], moment: u64)
    requires short { length key.now ≤ 9 }
    requires room { HasRoom 112 into.old }
    ensures { PutsAtMost 112 into.old into.new
        (codes "{\"value\":" ++ signed_decimal value ++ codes ",\"txn\":" ++ decimal txn ++ key.now ++ decimal moment ++ codes "}") }
{
    write_signed(into, b"{\"value\":", value);
    write_txn(into, b",\"txn\":", txn);
    write_number(into, key, moment);
    into.push(b'}');
}
