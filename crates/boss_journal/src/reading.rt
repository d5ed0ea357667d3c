ghost use Rattle.std.specs.Prelude.{◌≡◌, ℕ, ◌+◌, ◌^◌, ◌≤◌, ◌<◌, List, [], ◌∷◌, ◌++◌, length, take, drop, true, false, IfOk, OnOk, OnErr};
ghost use Rattle.boss_model.specs.Limits.{longest_record};
ghost use Rattle.boss_outside.specs.Counts.{HasCause};
ghost use Rattle.boss_disk.specs.Runs.{Since};
ghost use Rattle.boss_disk.specs.Window.{settled};
ghost use Rattle.boss_journal.specs.Places.{IsAt, IsAtEnd, IsAtRest};
ghost use Rattle.boss_journal.specs.Reads.{Tells, Passes, NextCause, NextStops, Repairs};

use crate::Journal;
use crate::heading::{Heading, read_heading};
use boss_disk::{Disk, write_through};
use boss_model::Buffer;
use boss_outside::Failed;

/// How many bytes of a record are read at once.
const PIECE: usize = 4_096;

/// What a journal has next.
#[derive(Clone, Copy, Debug, PartialEq, Eq)]
pub enum NextRecord {
    /// A record, whose gate is at this place. Its bytes are in the buffer; it may have none.
    Bytes { place: u64 },
    /// No record more: the gate is not 1.
    Finish,
    /// The gate at this place is 1, and no record of at most 65,535 bytes with a next gate stands behind it.
    Damaged { place: u64 },
    /// The disk failed, and the journal is stopped.
    DiskFault,
}

impl<D: Disk> Journal<D> {
    /// Reads the next record into the buffer, which is emptied first.
    pub fn next(&mut self, into: &mut Buffer) -> NextRecord
        requires { longest_record ≤ into.old.capacity }
        ensures tells { D.tells → (front : List ℕ) (records : List (List ℕ))
            → IsAt front records self.old.place (D.reads self.old.disk)
            → Tells front records self.new.place (D.reads self.old.disk) into.new.bytes result }
        ensures short { (place : ℕ) → result ≡ NextRecord.Bytes place → length into.new.bytes ≤ longest_record }
        ensures passes { Passes self.old.place self.new.place into.new.bytes result }
        ensures room { into.new.capacity ≡ into.old.capacity }
        ensures reads { D.tells → D.reads self.new.disk ≡ D.reads self.old.disk }
        ensures windows { D.tells → D.story self.new.disk ≡ D.story self.old.disk }
        ensures cause { NextCause (D.faults self.old.disk) (D.faults self.new.disk) result }
        ensures stops { NextStops self.old.stopped self.new.stopped result }
        ensures first { self.new.first ≡ self.old.first }
        ensures version { self.new.version ≡ self.old.version }
    {
        into.clear();
        let place = self.place;
        match read_heading(&mut self.disk, place) {
            Ok(Heading::Shut) => NextRecord::Finish,
            Ok(Heading::Broken) => NextRecord::Damaged { place },
            Ok(Heading::Whole { size }) => {
                let Ok(()) = read_bytes(&mut self.disk, place + 5, size as usize, into) else {
                    self.stopped = true;
                    return NextRecord::DiskFault;
                };
                self.place = place + u64::from(size) + 5;
                NextRecord::Bytes { place }
            }
            Err(Failed) => {
                self.stopped = true;
                NextRecord::DiskFault
            }
        }
    }

    /// Shuts the last gate, where it is not 0, so that records can be appended. After a failure the journal is stopped, and
    /// of one that was stopped before nothing is done.
    pub fn ready(&mut self) -> Result<(), Failed>
        ensures rests { D.tells → (front : List ℕ) (records : List (List ℕ))
            → IsAtEnd front records self.old.place (D.reads self.old.disk)
            → (D.story self.old.disk).window ≡ settled (D.reads self.old.disk)
            → self.old.stopped ≡ false
            → OnOk result (IsAtRest front records self.new.place (D.reads self.new.disk) (D.story self.new.disk).window) }
        ensures images { D.tells → (front : List ℕ) (records : List (List ℕ))
            → (last : IsAtEnd front records self.old.place (D.reads self.old.disk))
            → (D.story self.old.disk).window ≡ settled (D.reads self.old.disk)
            → Since (Repairs front records last.log.gate last.log.tail) (D.story self.old.disk) (D.story self.new.disk) }
        ensures cause { HasCause (D.faults self.old.disk) (D.faults self.new.disk) result }
        ensures fine { OnOk result (self.new.stopped ≡ self.old.stopped) }
        ensures stops { OnErr result (self.new.stopped ≡ true) }
        ensures still { self.old.stopped ≡ true → self.new ≡ self.old }
        ensures first { self.new.first ≡ self.old.first }
        ensures place { self.new.place ≡ self.old.place }
        ensures version { self.new.version ≡ self.old.version }
    {
        if self.stopped {
            return Ok(());
        }
        match shut_gate(&mut self.disk, self.place) {
            Ok(()) => Ok(()),
            Err(Failed) => {
                self.stopped = true;
                Err(Failed)
            }
        }
    }
}

/// Writes the gate at this place as 0, where it is not 0, and syncs the disk.
fn shut_gate<D: Disk>(disk: &mut D, place: u64) -> Result<(), Failed>
    requires at_gate { D.tells → place < length (D.reads disk.old) }
    ensures inside { D.tells → OnOk result (place < length (D.reads disk.new)) }
    ensures rests { D.tells → (front : List ℕ) (records : List (List ℕ))
        → IsAtEnd front records place (D.reads disk.old)
        → (D.story disk.old).window ≡ settled (D.reads disk.old)
        → OnOk result (IsAtRest front records place (D.reads disk.new) (D.story disk.new).window) }
    ensures images { D.tells → (front : List ℕ) (records : List (List ℕ))
        → (last : IsAtEnd front records place (D.reads disk.old))
        → (D.story disk.old).window ≡ settled (D.reads disk.old)
        → Since (Repairs front records last.log.gate last.log.tail) (D.story disk.old) (D.story disk.new) }
    ensures cause { HasCause (D.faults disk.old) (D.faults disk.new) result }
{
    let gate = read_byte(disk, place)?;
    if gate == 0 {
        return Ok(());
    }
    write_through(disk, place, &[0])?;
    Ok(())
}

/// The byte at a place of a disk.
fn read_byte<D: Disk>(disk: &mut D, place: u64) -> Result<u8, Failed>
    requires { D.tells → place < length (D.reads disk.old) }
    ensures given { D.tells → IfOk result (λ byte. take 1 (drop place (D.reads disk.old)) ≡ byte ∷ []) }
    ensures reads { D.tells → D.reads disk.new ≡ D.reads disk.old }
    ensures windows { D.tells → D.story disk.new ≡ D.story disk.old }
    ensures cause { HasCause (D.faults disk.old) (D.faults disk.new) result }
{
    let mut byte = [0u8; 1];
    disk.read_at(place, &mut byte)?;
    Ok(byte[0])
}

/// Reads so many bytes from this place on, behind those in the buffer.
fn read_bytes<D: Disk>(disk: &mut D, at: u64, count: usize, into: &mut Buffer) -> Result<(), Failed>
    requires low { at + count ≤ 2 ^ 62 }
    requires room { length into.old.bytes + count ≤ into.old.capacity }
    requires there { D.tells → at + count ≤ length (D.reads disk.old) }
    ensures given { D.tells → OnOk result (into.new.bytes ≡ into.old.bytes ++ take count (drop at (D.reads disk.old))) }
    ensures size { OnOk result (length into.new.bytes ≡ length into.old.bytes + count) }
    ensures room { into.new.capacity ≡ into.old.capacity }
    ensures reads { D.tells → D.reads disk.new ≡ D.reads disk.old }
    ensures windows { D.tells → D.story disk.new ≡ D.story disk.old }
    ensures cause { HasCause (D.faults disk.old) (D.faults disk.new) result }
{
    let mut done = 0;
    while done < count {
        let size = PIECE.min(count - done);
        read_piece(disk, at + done as u64, size, into)?;
        done += size;
    }
    Ok(())
}

/// The same, of a piece.
fn read_piece<D: Disk>(disk: &mut D, at: u64, count: usize, into: &mut Buffer) -> Result<(), Failed>
    requires piece { count ≤ 4096 }
    requires room { length into.old.bytes + count ≤ into.old.capacity }
    requires there { D.tells → at + count ≤ length (D.reads disk.old) }
    ensures given { D.tells → OnOk result (into.new.bytes ≡ into.old.bytes ++ take count (drop at (D.reads disk.old))) }
    ensures size { OnOk result (length into.new.bytes ≡ length into.old.bytes + count) }
    ensures room { into.new.capacity ≡ into.old.capacity }
    ensures reads { D.tells → D.reads disk.new ≡ D.reads disk.old }
    ensures windows { D.tells → D.story disk.new ≡ D.story disk.old }
    ensures cause { HasCause (D.faults disk.old) (D.faults disk.new) result }
{
    let mut piece = [0u8; PIECE];
    let bytes = &mut piece[..count];
    disk.read_at(at, bytes)?;
    into.extend(bytes);
    Ok(())
}
