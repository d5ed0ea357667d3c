ghost use Rattle.std.specs.Prelude.{◌≡◌, ℕ, ◌+◌, ◌≤◌, true, List, ◌++◌, length, map, flat_map, OnOk};
ghost use Rattle.std.specs.Int.{w16, w32};
ghost use Rattle.std.specs.List.{list_all};
ghost use Rattle.def_bytes.specs.Parts.{listed};
ghost use Rattle.def_bytes.specs.Fields.{Field};
ghost use Rattle.boss_outside.specs.Counts.{HasCause};
ghost use Rattle.boss_snapshot.specs.Drafts.{Goes, so_far};

use crate::draft::Draft;
use crate::drafting::make_room;
use boss_disk::Disk;
use boss_model::{KeptPart, Lease, Notice, Pending, Txn};
use boss_outside::Failed;
use boss_records::{Written, put_u16, put_u32};

/// What can be written as an item of a list of a kept state, through a draft.
pub trait Spilled {
    /// What contracts see of an item.
    ghost Value: { Type 0 };

    ghost view: { Self → Value };
    /// How it is spelled.
    ghost field: { Field Value };

    /// The item's spelling, behind what was written so far.
    fn spill<D: Disk>(&self, disk: &mut D, draft: &mut Draft) -> Result<(), Failed>
        requires fits { field.fits (view self.now) ≡ true }
        requires placed { D.tells → draft.old.place ≡ length (D.reads disk.old) }
        ensures placed { D.tells → OnOk result (draft.new.place ≡ length (D.reads disk.new)) }
        ensures text { D.tells → OnOk result (so_far (D.reads disk.new) draft.new
            ≡ so_far (D.reads disk.old) draft.old ++ field.text (view self.now)) }
        ensures goes { D.tells → Goes (D.story disk.old) (D.story disk.new) }
        ensures cause { HasCause (D.faults disk.old) (D.faults disk.new) result };
}

/// An item that is short enough to be gathered whole.
#[tactic(auto, using(crate::proofs::Drafts::then_goes))]
fn spill_short<T: Written, D: Disk>(disk: &mut D, draft: &mut Draft, item: &T) -> Result<(), Failed>
    requires short { T.field.most ≤ 160 }
    requires fits { T.field.fits (T.view item.now) ≡ true }
    requires placed { D.tells → draft.old.place ≡ length (D.reads disk.old) }
    ensures placed { D.tells → OnOk result (draft.new.place ≡ length (D.reads disk.new)) }
    ensures text { D.tells → OnOk result (so_far (D.reads disk.new) draft.new
        ≡ so_far (D.reads disk.old) draft.old ++ T.field.text (T.view item.now)) }
    ensures goes { D.tells → Goes (D.story disk.old) (D.story disk.new) }
    ensures cause { HasCause (D.faults disk.old) (D.faults disk.new) result }
{
    make_room(disk, draft)?;
    item.write(&mut draft.block);
    Ok(())
}

/// The items' spellings, one behind the other.
pub fn spill_items<T: Spilled, D: Disk>(
    disk: &mut D,
    draft: &mut Draft,
    items: &[T],
) -> Result<(), Failed>
    requires fits { list_all T.field.fits (map T.view items.now) ≡ true }
    requires placed { D.tells → draft.old.place ≡ length (D.reads disk.old) }
    ensures placed { D.tells → OnOk result (draft.new.place ≡ length (D.reads disk.new)) }
    ensures text { D.tells → OnOk result (so_far (D.reads disk.new) draft.new
        ≡ so_far (D.reads disk.old) draft.old ++ flat_map T.field.text (map T.view items.now)) }
    ensures goes { D.tells → Goes (D.story disk.old) (D.story disk.new) }
    ensures cause { HasCause (D.faults disk.old) (D.faults disk.new) result }
{
    for item in items {
        item.spill(disk, draft)?;
    }
    Ok(())
}

/// A list with the number of its items in 16 bits.
#[tactic(auto, using(crate::proofs::Drafts::then_goes))]
pub fn spill_list16<T: Spilled, D: Disk>(
    disk: &mut D,
    draft: &mut Draft,
    items: &[T],
) -> Result<(), Failed>
    requires fits { (listed w16 T.field).fits (map T.view items.now) ≡ true }
    requires placed { D.tells → draft.old.place ≡ length (D.reads disk.old) }
    ensures placed { D.tells → OnOk result (draft.new.place ≡ length (D.reads disk.new)) }
    ensures text { D.tells → OnOk result (so_far (D.reads disk.new) draft.new
        ≡ so_far (D.reads disk.old) draft.old ++ (listed w16 T.field).text (map T.view items.now)) }
    ensures goes { D.tells → Goes (D.story disk.old) (D.story disk.new) }
    ensures cause { HasCause (D.faults disk.old) (D.faults disk.new) result }
{
    make_room(disk, draft)?;
    put_u16(&mut draft.block, items.len() as u16);
    spill_items(disk, draft, items)
}

/// A list with the number of its items in 32 bits.
#[tactic(auto, using(crate::proofs::Drafts::then_goes))]
pub fn spill_list32<T: Spilled, D: Disk>(
    disk: &mut D,
    draft: &mut Draft,
    items: &[T],
) -> Result<(), Failed>
    requires fits { (listed w32 T.field).fits (map T.view items.now) ≡ true }
    requires placed { D.tells → draft.old.place ≡ length (D.reads disk.old) }
    ensures placed { D.tells → OnOk result (draft.new.place ≡ length (D.reads disk.new)) }
    ensures text { D.tells → OnOk result (so_far (D.reads disk.new) draft.new
        ≡ so_far (D.reads disk.old) draft.old ++ (listed w32 T.field).text (map T.view items.now)) }
    ensures goes { D.tells → Goes (D.story disk.old) (D.story disk.new) }
    ensures cause { HasCause (D.faults disk.old) (D.faults disk.new) result }
{
    make_room(disk, draft)?;
    put_u32(&mut draft.block, items.len() as u32);
    spill_items(disk, draft, items)
}

impl Spilled for Txn {
    ghost use Rattle.std.specs.Prelude.{ℕ};
    ghost use Rattle.std.specs.Int.{w64};
    ghost use Rattle.def_bytes.specs.Fields.{number};

    ghost Value = { ℕ };

    ghost view = { λ x. x };

    ghost field = { number w64 };

    fn spill<D: Disk>(&self, disk: &mut D, draft: &mut Draft) -> Result<(), Failed> {
        spill_short(disk, draft, self)
    }
}

impl Spilled for Lease {
    ghost use Rattle.boss_model.specs.declared.state.Lease.{Lease};
    ghost use Rattle.def_bytes.specs.States.{lease};

    ghost Value = { Lease };

    ghost view = { λ x. x };

    ghost field = { lease };

    fn spill<D: Disk>(&self, disk: &mut D, draft: &mut Draft) -> Result<(), Failed> {
        spill_short(disk, draft, self)
    }
}

impl Spilled for Pending {
    ghost use Rattle.boss_model.specs.declared.state.Pending.{Pending};
    ghost use Rattle.def_bytes.specs.States.{pending};

    ghost Value = { Pending };

    ghost view = { λ x. x };

    ghost field = { pending };

    fn spill<D: Disk>(&self, disk: &mut D, draft: &mut Draft) -> Result<(), Failed> {
        spill_short(disk, draft, self)
    }
}

impl Spilled for KeptPart {
    ghost use Rattle.boss_model.specs.Records.{Part};
    ghost use Rattle.boss_model.specs.Seen.{seen_part};
    ghost use Rattle.def_bytes.specs.States.{part};

    ghost Value = { Part };

    ghost view = { seen_part };

    ghost field = { part };

    fn spill<D: Disk>(&self, disk: &mut D, draft: &mut Draft) -> Result<(), Failed> {
        spill_short(disk, draft, self)
    }
}

impl Spilled for Notice {
    ghost use Rattle.std.specs.Prelude.{ℕ};
    ghost use Rattle.boss_model.specs.declared.notice.What.{What};
    ghost use Rattle.def_bytes.specs.States.{told, told_of};

    ghost Value = { ℕ × (ℕ × What) };

    ghost view = { told_of };

    ghost field = { told };

    fn spill<D: Disk>(&self, disk: &mut D, draft: &mut Draft) -> Result<(), Failed> {
        spill_short(disk, draft, self)
    }
}
