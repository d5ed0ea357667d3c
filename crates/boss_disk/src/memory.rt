ghost use Rattle.std.specs.Prelude.{◌≡◌, ℕ, ◌+◌, ◌^◌, ◌≤◌, ◌<◌, ◌∷◌, [], ◌++◌, List, length, take, drop, Ok, true, false, OnOk, OnErr, IfOk, IsErr, vec_len, vec_capacity};
ghost use Rattle.std.specs.List.{fold};
ghost use Rattle.boss_outside.specs.Counts.{HasCause};
ghost use Rattle.boss_outside.specs.Plan.{new_plan};
ghost use Rattle.boss_disk.specs.declared.memory.DiskCall.TheVariants.{Write, Cut, Sync, WriteWhole};
ghost use Rattle.boss_disk.specs.Calls.{HasNoted, HasRead};
ghost use Rattle.boss_disk.specs.Picked.{IsPicked};
ghost use Rattle.boss_disk.specs.Record.{state_of};
ghost use Rattle.boss_disk.specs.Story.{Steps, WritesWhole};
ghost use Rattle.boss_disk.specs.Window.{IsImage, settled, after_write, after_cut, overwritten};

use crate::Disk;
use crate::failures::Failures;
use crate::image::{replay, torn};
use boss_model::{Items, NoMemory};
use boss_outside::Failed;
use std::alloc::{AllocError, Global};
use std::marker::Model;

/// The greatest length of a disk.
pub const MOST: u64 = 1 << 62;

/// A call of a disk in memory that left something behind.
#[derive(Debug, Drop)]
pub enum DiskCall {
    /// These bytes were written from this place on.
    Write { at: u64, bytes: Items<u8> },
    /// All bytes from this place on were dropped.
    Cut { size: u64 },
    /// What was written and cut outlasts a crash.
    Sync,
    /// These bytes were written from this place on and synced, whole.
    WriteWhole { at: u64, bytes: Items<u8> },
}

/// A disk in memory, with a record of its calls. It is one that a crash may tear, or one that writes bytes whole.
#[derive(Debug, Drop)]
pub struct MemoryDisk {
    alloc: Global,
    start: Items<u8>,
    bytes: Vec<u8>,
    calls: Vec<DiskCall>,
    settled: usize,
    failures: Failures,
    is_whole: bool,
}

impl Model for MemoryDisk {
    ghost use Rattle.boss_disk.specs.Kept.{IsKept};
    ghost use Rattle.boss_disk.specs.Record.{DiskRecord};

    ghost Value = { DiskRecord };

    ghost view = { λ d. record { start = d.start; calls = d.calls.items; failures = d.failures; is_whole = d.is_whole } };

    ghost invariant = { λ d. IsKept d.start d.bytes.items d.calls.items d.settled };
}

impl MemoryDisk {
    /// A disk of these bytes, synced, that a crash may tear, of which the calls with these numbers fail, counted from 1. It takes memory for a
    /// second copy of the bytes, and has none for more than `2 ^ 62`.
    pub fn new(
        alloc: Global,
        contents: Items<u8>,
        fails: Items<u64>,
    ) -> Result<MemoryDisk, NoMemory>
        ensures { IfOk result (λ disk. disk ≡ record {
          start = contents;
          calls = [];
          failures = record { plan = new_plan fails; left = None };
          is_whole = false;
        }) }
    {
        MemoryDisk::of_kind(alloc, contents, fails, false)
    }

    /// The same, one that writes bytes whole or not.
    fn of_kind(
        alloc: Global,
        contents: Items<u8>,
        fails: Items<u64>,
        is_whole: bool,
    ) -> Result<MemoryDisk, NoMemory>
        ensures { IfOk result (λ disk. disk ≡ record {
          start = contents;
          calls = [];
          failures = record { plan = new_plan fails; left = None };
          is_whole = is_whole;
        }) }
    {
        if contents.slice().len() as u64 > MOST {
            return Err(NoMemory);
        }
        let bytes = contents.slice().to_vec(alloc)?;
        Ok(MemoryDisk {
            alloc,
            start: contents,
            bytes,
            calls: Vec::new(alloc),
            settled: 0,
            failures: Failures::new(fails),
            is_whole,
        })
    }

    /// From now on it writes bytes whole where it is asked to.
    pub fn make_whole(&mut self)
        ensures { self.new ≡ record self.old { is_whole = true } }
    {
        self.is_whole = true;
    }

    /// How many of its calls failed.
    pub fn faults(&self) -> u64
        ensures { result ≡ self.now.failures.plan.faults }
    {
        self.failures.faults()
    }

    /// The bytes that a read gives. No memory is taken.
    pub fn into_bytes(self) -> Items<u8>
        ensures { result ≡ (state_of self).bytes }
    {
        Items::from_vec(self.bytes)
    }

    /// After so many calls more all calls fail, as after a crash.
    pub fn stop_after(&mut self, calls: u64)
        ensures { self.new ≡ record self.old { failures = record self.old.failures { left = Some calls } } }
    {
        self.failures.stop_after(calls);
    }

    /// A disk of what a crash may leave of this one now, of the same kind, of which no call fails. 0 picks what the last sync left. Any other
    /// number picks an image of the present length, in which each byte that need not stay is as it is now for 1, 255 less
    /// that for 2, and else as it is now where the bit of the number at its place (modulo 64) is set, and 0 elsewhere.
    pub fn image(&self, alloc: Global, pick: u64) -> Result<MemoryDisk, NoMemory>
        ensures image { IfOk result (λ image. IsImage (state_of self.now).story.window image.start) }
        ensures picked { IfOk result (λ image. IsPicked pick (state_of self.now) image.start) }
        ensures new { IfOk result (λ image. image ≡ record {
          start = image.start;
          calls = [];
          failures = record { plan = new_plan []; left = None };
          is_whole = self.now.is_whole;
        }) }
    {
        let contents = self.contents(alloc, pick)?;
        MemoryDisk::of_kind(alloc, contents, Items::new(alloc), self.is_whole)
    }

    /// The bytes of the image that a number picks.
    fn contents(&self, alloc: Global, pick: u64) -> Result<Items<u8>, NoMemory>
        ensures { IfOk result (IsPicked pick (state_of self.now)) }
    {
        let mut bytes = self.start.slice().to_vec(alloc)?;
        replay(&mut bytes, &self.calls[..self.settled])?;
        if pick != 0 {
            bytes = torn(
                alloc,
                &bytes,
                &self.calls[self.settled..],
                &self.bytes,
                pick,
            )?;
        }
        Ok(Items::from_vec(bytes))
    }
}

impl Disk for MemoryDisk {
    ghost use Rattle.boss_disk.specs.Record.{fresh};
    ghost use Rattle.boss_disk.specs.Images.{holds_along, holds_fresh};

    ghost tells = { Unit {0} };

    ghost reads = { λ disk. (state_of disk).bytes };

    ghost story = { λ disk. (state_of disk).story };

    ghost faults = { λ disk. disk.failures.plan.faults };

    ghost reads_stay = { λ disk told. (holds_along (fresh disk.start) disk.calls (holds_fresh disk.start)).bytes };

    fn length(&mut self) -> Result<u64, Failed>
        ensures within { IfOk result (λ size. size ≤ 2 ^ 62) }
        ensures size { IfOk result (λ size. size ≡ length (state_of self.old).bytes) }
        ensures cause { HasCause self.old.failures.plan.faults self.new.failures.plan.faults result }
        ensures read { HasRead self.old self.new result }
    {
        self.failures.call()?;
        Ok(self.bytes.len() as u64)
    }

    fn read_at(&mut self, at: u64, into: &mut [u8]) -> Result<(), Failed>
        requires { at + length into.old ≤ length (state_of self.old).bytes }
        ensures given { OnOk result (into.new ≡ take (length into.old) (drop at (state_of self.old).bytes)) }
        ensures cause { HasCause self.old.failures.plan.faults self.new.failures.plan.faults result }
        ensures read { HasRead self.old self.new result }
    {
        self.failures.call()?;
        let at = at as usize;
        into.copy_from_slice(&self.bytes[at..at + into.len()]);
        Ok(())
    }

    fn write_at(&mut self, at: u64, bytes: &[u8]) -> Result<(), Failed>
        requires { at ≤ length (state_of self.old).bytes }
        ensures limit { 2 ^ 62 < at + length bytes.now → IsErr result }
        ensures bytes { OnOk result ((state_of self.new).bytes ≡ overwritten at bytes.now (state_of self.old).bytes) }
        ensures windows { let torn = after_write at (length bytes.now) (state_of self.old).story.window in Steps torn torn (state_of self.old).story (state_of self.new).story result }
        ensures cause { HasCause self.old.failures.plan.faults self.new.failures.plan.faults result }
        ensures noted { HasNoted (Write at bytes.now) self.old self.new result }
    {
        self.failures.call()?;
        let Some(end) = at.checked_add(bytes.len() as u64) else {
            return Err(self.failures.fault());
        };
        if end > MOST {
            return Err(self.failures.fault());
        }
        let Ok(copy) = bytes.to_vec(self.alloc) else {
            return Err(self.failures.fault());
        };
        if self.calls.reserve(1).is_err()
            || overwrite(&mut self.bytes, at as usize, bytes).is_err()
        {
            return Err(self.failures.fault());
        }
        let bytes = Items::from_vec(copy);
        push_in_room(&mut self.calls, DiskCall::Write { at, bytes });
        Ok(())
    }

    fn cut(&mut self, size: u64) -> Result<(), Failed>
        requires { size ≤ length (state_of self.old).bytes }
        ensures bytes { OnOk result ((state_of self.new).bytes ≡ take size (state_of self.old).bytes) }
        ensures windows { let torn = after_cut size (state_of self.old).story.window in Steps torn torn (state_of self.old).story (state_of self.new).story result }
        ensures cause { HasCause self.old.failures.plan.faults self.new.failures.plan.faults result }
        ensures noted { HasNoted (Cut size) self.old self.new result }
    {
        self.failures.call()?;
        if self.calls.push(DiskCall::Cut { size }).is_err() {
            return Err(self.failures.fault());
        }
        self.bytes.truncate(size as usize);
        Ok(())
    }

    #[tactic(auto, using(crate::proofs::Kept::kept_after_sync))]
    fn sync(&mut self) -> Result<(), Failed>
        ensures bytes { (state_of self.new).bytes ≡ (state_of self.old).bytes }
        ensures windows { Steps (settled (state_of self.old).bytes) (state_of self.old).story.window (state_of self.old).story (state_of self.new).story result }
        ensures cause { HasCause self.old.failures.plan.faults self.new.failures.plan.faults result }
        ensures noted { HasNoted Sync self.old self.new result }
    {
        self.failures.call()?;
        if self.calls.push(DiskCall::Sync).is_err() {
            return Err(self.failures.fault());
        }
        self.settled = self.calls.len();
        Ok(())
    }

    fn write_whole(&mut self, at: u64, bytes: &[u8]) -> Result<bool, Failed>
        requires { at ≤ length (state_of self.old).bytes }
        ensures limit { result ≡ Ok true → at + length bytes.now ≤ 2 ^ 62 }
        ensures windows { WritesWhole at bytes.now (state_of self.old).bytes (state_of self.new).bytes (state_of self.old).story (state_of self.new).story result }
        ensures cause { HasCause self.old.failures.plan.faults self.new.failures.plan.faults result }
        ensures kind { IfOk result (λ done. done ≡ self.old.is_whole) }
        ensures noted { self.old.is_whole ≡ true → HasNoted (WriteWhole at bytes.now) self.old self.new result }
        ensures passed { self.old.is_whole ≡ false → self.new ≡ self.old }
    {
        if !self.is_whole {
            return Ok(false);
        }
        self.failures.call()?;
        let Some(end) = at.checked_add(bytes.len() as u64) else {
            return Err(self.failures.fault());
        };
        if end > MOST {
            return Err(self.failures.fault());
        }
        let Ok(kept) = bytes.to_vec(self.alloc) else {
            return Err(self.failures.fault());
        };
        if self.calls.reserve(1).is_err()
            || overwrite(&mut self.bytes, at as usize, bytes).is_err()
        {
            return Err(self.failures.fault());
        }
        let bytes = Items::from_vec(kept);
        push_in_room(&mut self.calls, DiskCall::WriteWhole { at, bytes });
        self.settled = self.calls.len();
        Ok(true)
    }
}

/// Puts an item into room that was reserved.
fn push_in_room(calls: &mut Vec<DiskCall>, call: DiskCall)
    requires { vec_len calls.old < vec_capacity calls.old }
    ensures { calls.new.items ≡ calls.old.items ++ call ∷ [] }
{
    let pushed = calls.push(call);
    let Ok(()) = pushed else { unreachable!() };
}

/// Puts these bytes at this place, or behind all others where it is past the end.
pub fn overwrite(held: &mut Vec<u8>, at: usize, bytes: &[u8]) -> Result<(), AllocError>
    ensures done { OnOk result (held.new.items ≡ overwritten at bytes.now held.old.items) }
    ensures failed { OnErr result (held.new.items ≡ held.old.items) }
{
    let at = at.min(held.len());
    let inside = bytes.len().min(held.len() - at);
    held.extend_from_slice(&bytes[inside..])?;
    held[at..at + inside].copy_from_slice(&bytes[..inside]);
    Ok(())
}
