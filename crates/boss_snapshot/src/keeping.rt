ghost use Rattle.std.specs.Prelude.{◌≡◌, ℕ, ◌+◌, ◌≤◌, true, ◌++◌, length, map, OnOk};
ghost use Rattle.std.specs.Int.{w16, w32, w64};
ghost use Rattle.def_bytes.specs.Parts.{listed, name};
ghost use Rattle.def_bytes.specs.States.{lease, pending, process, replies, sent, state, told_of, transaction};
ghost use Rattle.def_bytes.specs.Fields.{number, number_text, tagged};
ghost use Rattle.boss_model.specs.Seen.{seen};
ghost use Rattle.boss_outside.specs.Counts.{HasCause};
ghost use Rattle.boss_snapshot.specs.Drafts.{Goes, so_far};
ghost use Rattle.boss_snapshot.specs.Writes.{state_text};

use crate::draft::Draft;
use crate::drafting::make_room;
use crate::spilled::{Spilled, spill_items, spill_list16, spill_list32};
use boss_disk::Disk;
use boss_model::{Kept, KeptProcess, KeptReply, KeptTxn, Name, Notice};
use boss_outside::Failed;
use boss_records::{put_name, put_policy, put_reply, put_u8, put_u16, put_u64};

/// A name.
#[tactic(auto, using(crate::proofs::Drafts::then_goes))]
fn spill_name<D: Disk>(disk: &mut D, draft: &mut Draft, written: &Name) -> Result<(), Failed>
    requires placed { D.tells → draft.old.place ≡ length (D.reads disk.old) }
    ensures placed { D.tells → OnOk result (draft.new.place ≡ length (D.reads disk.new)) }
    ensures text { D.tells → OnOk result (so_far (D.reads disk.new) draft.new
        ≡ so_far (D.reads disk.old) draft.old ++ name.text written.now) }
    ensures goes { D.tells → Goes (D.story disk.old) (D.story disk.new) }
    ensures cause { HasCause (D.faults disk.old) (D.faults disk.new) result }
{
    make_room(disk, draft)?;
    put_name(&mut draft.block, written);
    Ok(())
}

/// How many notices there were, and the last of them.
#[tactic(auto, using(crate::proofs::Drafts::then_goes))]
fn spill_sent<D: Disk>(
    disk: &mut D,
    draft: &mut Draft,
    count: u64,
    notices: &[Notice],
) -> Result<(), Failed>
    requires fits { sent.fits (count, map told_of notices.now) ≡ true }
    requires placed { D.tells → draft.old.place ≡ length (D.reads disk.old) }
    ensures placed { D.tells → OnOk result (draft.new.place ≡ length (D.reads disk.new)) }
    ensures text { D.tells → OnOk result (so_far (D.reads disk.new) draft.new
        ≡ so_far (D.reads disk.old) draft.old ++ sent.text (count, map told_of notices.now)) }
    ensures goes { D.tells → Goes (D.story disk.old) (D.story disk.new) }
    ensures cause { HasCause (D.faults disk.old) (D.faults disk.new) result }
{
    make_room(disk, draft)?;
    put_u64(&mut draft.block, count);
    put_u16(&mut draft.block, notices.len() as u16);
    spill_items(disk, draft, notices)
}

/// A kept reply, or none.
#[tactic(auto, using(crate::proofs::Drafts::then_goes))]
fn spill_reply<D: Disk>(
    disk: &mut D,
    draft: &mut Draft,
    reply: Option<KeptReply>,
) -> Result<(), Failed>
    requires placed { D.tells → draft.old.place ≡ length (D.reads disk.old) }
    ensures placed { D.tells → OnOk result (draft.new.place ≡ length (D.reads disk.new)) }
    ensures text { D.tells → OnOk result (so_far (D.reads disk.new) draft.new
        ≡ so_far (D.reads disk.old) draft.old ++ (tagged replies).text reply) }
    ensures goes { D.tells → Goes (D.story disk.old) (D.story disk.new) }
    ensures cause { HasCause (D.faults disk.old) (D.faults disk.new) result }
{
    make_room(disk, draft)?;
    put_reply(&mut draft.block, reply);
    Ok(())
}

impl Spilled for KeptProcess {
    ghost use Rattle.boss_model.specs.State.{Process};
    ghost use Rattle.boss_model.specs.Seen.{seen_process};
    ghost use Rattle.def_bytes.specs.States.{process};

    ghost Value = { Process };

    ghost view = { seen_process };

    ghost field = { process 2 };

    #[tactic(auto, using(crate::proofs::Drafts::then_goes, crate::proofs::KeptProcesses::sent_fits, crate::proofs::KeptProcesses::process_text))]
    fn spill<D: Disk>(&self, disk: &mut D, draft: &mut Draft) -> Result<(), Failed> {
        spill_name(disk, draft, &self.name)?;
        spill_sent(disk, draft, self.count, self.notices.slice())?;
        spill_reply(disk, draft, self.reply)
    }
}

impl Spilled for KeptTxn {
    ghost use Rattle.boss_model.specs.Records.{Transaction};
    ghost use Rattle.boss_model.specs.Seen.{seen_txn};
    ghost use Rattle.def_bytes.specs.States.{transaction};

    ghost Value = { Transaction };

    ghost view = { seen_txn };

    ghost field = { transaction };

    #[tactic(auto, using(crate::proofs::Drafts::then_goes))]
    fn spill<D: Disk>(&self, disk: &mut D, draft: &mut Draft) -> Result<(), Failed> {
        make_room(disk, draft)?;
        put_u64(&mut draft.block, self.txn.0);
        put_u16(&mut draft.block, self.owner.0);
        put_policy(&mut draft.block, self.policy);
        put_u8(&mut draft.block, self.parts.slice().len() as u8);
        spill_items(disk, draft, self.parts.slice())
    }
}

/// The moment, the number of the next transaction, the processes and the transactions.
#[tactic(auto, using(crate::proofs::Drafts::then_goes))]
fn spill_first<D: Disk>(disk: &mut D, draft: &mut Draft, kept: &Kept) -> Result<(), Failed>
    requires processes { (listed w16 (process 2)).fits (seen kept.now).processes ≡ true }
    requires txns { (listed w32 transaction).fits (seen kept.now).txns ≡ true }
    requires placed { D.tells → draft.old.place ≡ length (D.reads disk.old) }
    ensures placed { D.tells → OnOk result (draft.new.place ≡ length (D.reads disk.new)) }
    ensures text { D.tells → let d = seen kept.entry.now in OnOk result (so_far (D.reads disk.new) draft.new
        ≡ so_far (D.reads disk.old) draft.old ++ (number_text w64 d.now ++ (number_text w64 d.next
        ++ ((listed w16 (process 2)).text d.processes ++ (listed w32 transaction).text d.txns)))) }
    ensures goes { D.tells → Goes (D.story disk.old) (D.story disk.new) }
    ensures cause { HasCause (D.faults disk.old) (D.faults disk.new) result }
{
    make_room(disk, draft)?;
    put_u64(&mut draft.block, kept.now);
    put_u64(&mut draft.block, kept.next.0);
    spill_list16(disk, draft, kept.processes.slice())?;
    spill_list32(disk, draft, kept.txns.slice())
}

/// The transactions that are done, the leases and the reversions.
#[tactic(auto, using(crate::proofs::Drafts::then_goes))]
fn spill_last<D: Disk>(disk: &mut D, draft: &mut Draft, kept: &Kept) -> Result<(), Failed>
    requires done { (listed w16 (number w64)).fits (seen kept.now).done ≡ true }
    requires leases { (listed w32 lease).fits (seen kept.now).leases ≡ true }
    requires pending { (listed w32 pending).fits (seen kept.now).pending ≡ true }
    requires placed { D.tells → draft.old.place ≡ length (D.reads disk.old) }
    ensures placed { D.tells → OnOk result (draft.new.place ≡ length (D.reads disk.new)) }
    ensures text { D.tells → let d = seen kept.entry.now in OnOk result (so_far (D.reads disk.new) draft.new
        ≡ so_far (D.reads disk.old) draft.old ++ ((listed w16 (number w64)).text d.done
        ++ ((listed w32 lease).text d.leases ++ (listed w32 pending).text d.pending))) }
    ensures goes { D.tells → Goes (D.story disk.old) (D.story disk.new) }
    ensures cause { HasCause (D.faults disk.old) (D.faults disk.new) result }
{
    spill_list16(disk, draft, kept.done.slice())?;
    spill_list32(disk, draft, kept.leases.slice())?;
    spill_list32(disk, draft, kept.pending.slice())
}

/// A state's spelling in version 2.
#[tactic(auto, using(crate::proofs::Drafts::then_goes))]
pub fn spill_kept<D: Disk>(disk: &mut D, draft: &mut Draft, kept: &Kept) -> Result<(), Failed>
    requires fits { (state 2).fits (seen kept.now) ≡ true }
    requires placed { D.tells → draft.old.place ≡ length (D.reads disk.old) }
    ensures placed { D.tells → OnOk result (draft.new.place ≡ length (D.reads disk.new)) }
    ensures text { D.tells → OnOk result (so_far (D.reads disk.new) draft.new
        ≡ so_far (D.reads disk.old) draft.old ++ state_text (seen kept.entry.now)) }
    ensures goes { D.tells → Goes (D.story disk.old) (D.story disk.new) }
    ensures cause { HasCause (D.faults disk.old) (D.faults disk.new) result }
{
    spill_first(disk, draft, kept)?;
    spill_last(disk, draft, kept)?;
    Ok(())
}
