ghost use Rattle.std.specs.Prelude.{◌≡◌, ℕ, ◌+◌, ◌^◌, ◌≤◌, [], ◌++◌, length, OnOk, IfOk};
ghost use Rattle.boss_outside.specs.Counts.{HasCause};
ghost use Rattle.boss_snapshot.specs.Drafts.{Goes, so_far};

use crate::draft::Draft;
use boss_disk::Disk;
use boss_outside::Failed;

/// The room that an item may take.
const ITEM: usize = 160;

/// Writes all gathered bytes to the disk.
pub fn spill<D: Disk>(disk: &mut D, draft: &mut Draft) -> Result<(), Failed>
    requires placed { D.tells → draft.old.place ≡ length (D.reads disk.old) }
    ensures empty { OnOk result (draft.new.block ≡ []) }
    ensures low { OnOk result (draft.new.place ≤ 2 ^ 62) }
    ensures placed { D.tells → OnOk result (draft.new.place ≡ length (D.reads disk.new)) }
    ensures text { D.tells → OnOk result (D.reads disk.new ≡ so_far (D.reads disk.old) draft.old) }
    ensures goes { D.tells → Goes (D.story disk.old) (D.story disk.new) }
    ensures cause { HasCause (D.faults disk.old) (D.faults disk.new) result }
{
    draft.place = add(disk, draft.place, draft.block.bytes())?;
    draft.block.clear();
    Ok(())
}

/// Spills the draft where it has no room for an item.
#[tactic(auto, using(crate::proofs::Drafts::goes_still))]
pub fn make_room<D: Disk>(disk: &mut D, draft: &mut Draft) -> Result<(), Failed>
    requires placed { D.tells → draft.old.place ≡ length (D.reads disk.old) }
    ensures room { OnOk result (length draft.new.block + 160 ≤ 4096) }
    ensures placed { D.tells → OnOk result (draft.new.place ≡ length (D.reads disk.new)) }
    ensures text { D.tells → OnOk result (so_far (D.reads disk.new) draft.new ≡ so_far (D.reads disk.old) draft.old) }
    ensures goes { D.tells → Goes (D.story disk.old) (D.story disk.new) }
    ensures cause { HasCause (D.faults disk.old) (D.faults disk.new) result }
{
    if draft.block.left() < ITEM {
        spill(disk, draft)?;
    }
    Ok(())
}

/// Writes these bytes at the end of the disk, and tells the new end.
#[tactic(auto, using(crate::proofs::Drafts::written_behind, crate::proofs::Drafts::end_behind, crate::proofs::Drafts::goes_on))]
fn add<D: Disk>(disk: &mut D, end: u64, bytes: &[u8]) -> Result<u64, Failed>
    requires placed { D.tells → end ≡ length (D.reads disk.old) }
    requires behind { 1 ≤ end }
    ensures end { IfOk result (λ next. next ≡ end + length bytes.now) }
    ensures low { IfOk result (λ next. next ≤ 2 ^ 62) }
    ensures placed { D.tells → IfOk result (λ next. next ≡ length (D.reads disk.new)) }
    ensures text { D.tells → OnOk result (D.reads disk.new ≡ D.reads disk.old ++ bytes.now) }
    ensures goes { D.tells → Goes (D.story disk.old) (D.story disk.new) }
    ensures cause { HasCause (D.faults disk.old) (D.faults disk.new) result }
{
    disk.write_at(end, bytes)?;
    Ok(end + bytes.len() as u64)
}
