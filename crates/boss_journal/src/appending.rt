ghost use Rattle.std.specs.Prelude.{◌≡◌, ℕ, ◌+◌, ◌^◌, ◌≤◌, ◌<◌, List, [], ◌∷◌, ◌++◌, length, IfOk};
ghost use Rattle.boss_model.specs.Limits.{longest_record};
ghost use Rattle.boss_outside.specs.Counts.{HasCause};
ghost use Rattle.boss_disk.specs.Runs.{Since};
ghost use Rattle.boss_journal.specs.Places.{IsAtRest};
ghost use Rattle.boss_journal.specs.Appends.{BeforeOrAfter, AppendCause, Stops};

use crate::Journal;
use crate::frame::put_framed;
use boss_disk::Disk;
use boss_outside::Failed;

/// What became of a record that was to be appended.
#[derive(Clone, Copy, Debug, PartialEq, Eq)]
pub enum Appended {
    /// It stands in the journal, and outlasts a crash.
    Done,
    /// The disk failed. The record stands there whole or not at all, and the journal is stopped.
    DiskFault,
    /// The journal was stopped before, and nothing was done.
    Stopped,
}

impl<D: Disk> Journal<D> {
    /// Appends a record of 1 to 65,535 bytes, without memory: in one call of a disk that writes it whole, and else in four.
    pub fn append(&mut self, bytes: &[u8]) -> Appended
        requires some { 1 ≤ length bytes.now }
        requires within { length bytes.now ≤ longest_record }
        ensures rests { D.tells → (front : List ℕ) (records : List (List ℕ))
            → IsAtRest front records self.old.place (D.reads self.old.disk) (D.story self.old.disk).window
            → result ≡ Appended.Done
            → IsAtRest front (records ++ bytes.now ∷ []) self.new.place (D.reads self.new.disk) (D.story self.new.disk).window }
        ensures images { D.tells → (front : List ℕ) (records : List (List ℕ))
            → IsAtRest front records self.old.place (D.reads self.old.disk) (D.story self.old.disk).window
            → Since (BeforeOrAfter front records bytes.now) (D.story self.old.disk) (D.story self.new.disk) }
        ensures cause { AppendCause (D.faults self.old.disk) (D.faults self.new.disk) result }
        ensures stops { Stops self.old.stopped self.new.stopped result }
        ensures still { result ≡ Appended.Stopped → self.new ≡ self.old }
        ensures place { result ≡ Appended.Done → self.new.place ≡ self.old.place + length bytes.now + 5 }
        ensures first { self.new.first ≡ self.old.first }
        ensures version { self.new.version ≡ self.old.version }
    {
        if self.stopped {
            return Appended::Stopped;
        }
        match put_record(&mut self.disk, self.place, bytes) {
            Ok(next) => {
                self.place = next;
                Appended::Done
            }
            Err(Failed) => {
                self.stopped = true;
                Appended::DiskFault
            }
        }
    }
}

/// Puts a record behind the gate at this place, opens the gate, and gives the place of the next gate.
fn put_record<D: Disk>(disk: &mut D, place: u64, bytes: &[u8]) -> Result<u64, Failed>
    requires low { place ≤ 2 ^ 62 }
    requires at_gate { D.tells → place < length (D.reads disk.old) }
    requires within { length bytes.now ≤ longest_record }
    ensures next { IfOk result (λ next. next ≡ place + length bytes.now + 5) }
    ensures low { IfOk result (λ next. next ≤ 2 ^ 62) }
    ensures inside { D.tells → IfOk result (λ next. next < length (D.reads disk.new)) }
    ensures rests { D.tells → (front : List ℕ) (records : List (List ℕ))
        → IsAtRest front records place (D.reads disk.old) (D.story disk.old).window
        → IfOk result (λ next. IsAtRest front (records ++ bytes.now ∷ []) next (D.reads disk.new) (D.story disk.new).window) }
    ensures images { D.tells → (front : List ℕ) (records : List (List ℕ))
        → IsAtRest front records place (D.reads disk.old) (D.story disk.old).window
        → Since (BeforeOrAfter front records bytes.now) (D.story disk.old) (D.story disk.new) }
    ensures cause { HasCause (D.faults disk.old) (D.faults disk.new) result }
{
    put_framed(disk, place, bytes)?;
    Ok(place + bytes.len() as u64 + 5)
}
