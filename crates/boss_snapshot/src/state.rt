ghost use Rattle.std.specs.Prelude.{◌≡◌, IfOk, IfSome, MatchOption};
ghost use Rattle.boss_model.specs.Seen.{seen};
ghost use Rattle.boss_model.specs.State.{Persistent};
ghost use Rattle.def_bytes.specs.States.{state};
ghost use Rattle.boss_records.specs.Given.{Gives};
ghost use Rattle.boss_snapshot.specs.Spells.{SpellsState};

use crate::lists::{read_list16, read_list32};
use crate::processes::read_processes;
use boss_model::{Items, Kept, NoMemory, Txn};
use boss_records::{Unread, read_u64};
use std::alloc::Global;

/// The state that the bytes begin with, and what is behind it.
fn kept_at(alloc: Global, version: u8, bytes: &[u8]) -> Result<(Kept, &[u8]), Unread>
    ensures { Gives (λ x. (seen x.0, x.1.now)) result ((state version).at bytes.now) }
{
    let (now, rest) = read_u64(bytes)?;
    let (next, rest) = read_u64(rest)?;
    let (processes, rest) = read_processes(alloc, version, rest)?;
    let (txns, rest) = read_list32(alloc, rest)?;
    let (done, rest) = read_list16(alloc, rest)?;
    let (leases, rest) = read_list32(alloc, rest)?;
    let (pending, rest) = read_list32(alloc, rest)?;
    let kept = Kept {
        now,
        next: Txn(next),
        processes: Items::from_vec(processes),
        txns: Items::from_vec(txns),
        done: Items::from_vec(done),
        leases: Items::from_vec(leases),
        pending: Items::from_vec(pending),
    };
    Ok((kept, rest))
}

/// The state that these bytes spell in this version; none exactly where they spell none.
pub fn read_kept(alloc: Global, version: u8, bytes: &[u8]) -> Result<Option<Kept>, NoMemory>
    // What is read is spelled so.
    ensures found { IfOk result (λ read. IfSome read (λ kept. SpellsState version (seen kept) bytes.now)) }
    // What is spelled so is read.
    ensures only { (d : Persistent) → SpellsState version d bytes.now →
        IfOk result (λ read. MatchOption read ⊥ (λ kept. seen kept ≡ d)) }
{
    match kept_at(alloc, version, bytes) {
        Ok((kept, rest)) => {
            if rest.is_empty() {
                Ok(Some(kept))
            } else {
                Ok(None)
            }
        }
        Err(Unread::NoSpelling) => Ok(None),
        Err(Unread::NoMemory) => Err(NoMemory),
    }
}
