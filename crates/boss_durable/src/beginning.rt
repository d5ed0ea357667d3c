ghost use Rattle.std.specs.Prelude.{◌≡◌, ◌≢◌, ◌+◌, ◌≤◌, false, true, List, IfOk};
ghost use Rattle.boss_model.specs.Limits.{record_room};
ghost use Rattle.def_bytes.specs.States.{state};
ghost use Rattle.boss_durable.specs.Begun.{BegunCause, is_fault};
ghost use Rattle.boss_durable.specs.Words.{keeps, lasting, leaves, log, passes};
ghost use Rattle.boss_model.specs.declared.event.Event.{Event};
ghost use Rattle.boss_model.specs.Seen.{seen};
ghost use Rattle.boss_model.specs.Sound.{IsSoundPersistent};
ghost use Rattle.boss_disk_pair.specs.Causes.{counts_of};

use crate::Durable;
use boss_disk::Disk;
use boss_model::{Kept, NoMemory, RECORD_ROOM};
use boss_outside::Failed;

/// How a call begins.
#[derive(Clone, Copy, Debug, PartialEq, Eq)]
pub enum Begun {
    /// The log has room for a record.
    Ready,
    /// It has not, and no memory was to be had for a kept state to begin a new one with. Nothing has changed.
    NoMemory,
    /// A disk failed.
    DiskFault,
}

impl<D: Disk> Durable<D> {
    /// Sees to room in the log for a record. Where there is none a new log begins, behind a kept state of what lasts. The engine
    /// stays as it is, and what the disks stand for too.
    pub(crate) fn begin(&mut self) -> Begun
        requires { self.old.disks.stopped ≡ false }
        ensures keeps { (before : List Event) → keeps self.old before → result ≢ Begun.DiskFault → keeps self.new before }
        ensures leaves { (before : List Event) → keeps self.old before → leaves self.new (lasting self.old) (lasting self.old) }
        ensures passes { (before : List Event) → keeps self.old before → passes self.old self.new (lasting self.old) (lasting self.old) }
        ensures engine { self.new.engine ≡ self.old.engine }
        ensures events { self.new.disks.events ≡ self.old.disks.events }
        ensures limit { self.new.log_limit ≡ self.old.log_limit }
        ensures digest { self.new.disks.digest ≡ self.old.disks.digest }
        ensures confirmed { self.new.confirmed ≡ self.old.confirmed }
        ensures cause { BegunCause (counts_of self.old.disks) (counts_of self.new.disks) result }
        ensures stops { self.new.disks.stopped ≡ is_fault result }
        ensures memory { result ≡ Begun.NoMemory → self.new ≡ self.old }
        ensures room { result ≡ Begun.Ready → log self.new + record_room ≤ self.new.log_limit }
        ensures still { log self.old + record_room ≤ self.old.log_limit → (result ≡ Begun.Ready) × (self.new ≡ self.old) }
    {
        if self.disks.log() <= self.log_limit - RECORD_ROOM as u64 {
            return Begun::Ready;
        }
        match self.keep() {
            Ok(kept) => self.go_on_behind(&kept),
            Err(NoMemory) => Begun::NoMemory,
        }
    }

    /// What lasts of the engine, as plain lists. It is sound, and has a spelling.
    pub fn keep(&self) -> Result<Kept, NoMemory>
        ensures kept { IfOk result (λ kept. seen kept ≡ lasting self.now) }
        ensures fits { IfOk result (λ kept. (state 2).fits (seen kept) ≡ true) }
        ensures sound { IsSoundPersistent self.now.engine.plant (lasting self.now) }
    {
        self.engine.keep(self.alloc)
    }

    /// A new log begins, behind this kept state, which is what lasts of the engine.
    fn go_on_behind(&mut self, kept: &Kept) -> Begun
        requires going { self.old.disks.stopped ≡ false }
        requires kept { seen kept.now ≡ lasting self.old }
        requires fits { (state 2).fits (seen kept.now) ≡ true }
        requires sound { IsSoundPersistent self.old.engine.plant (lasting self.old) }
        ensures keeps { (before : List Event) → keeps self.old before → result ≢ Begun.DiskFault → keeps self.new before }
        ensures leaves { (before : List Event) → keeps self.old before → leaves self.new (lasting self.old) (lasting self.old) }
        ensures passes { (before : List Event) → keeps self.old before → passes self.old self.new (lasting self.old) (lasting self.old) }
        ensures engine { self.new.engine ≡ self.old.engine }
        ensures events { self.new.disks.events ≡ self.old.disks.events }
        ensures limit { self.new.log_limit ≡ self.old.log_limit }
        ensures digest { self.new.disks.digest ≡ self.old.disks.digest }
        ensures confirmed { self.new.confirmed ≡ self.old.confirmed }
        ensures cause { BegunCause (counts_of self.old.disks) (counts_of self.new.disks) result }
        ensures stops { self.new.disks.stopped ≡ is_fault result }
        ensures tried { result ≢ Begun.NoMemory }
        ensures room { result ≡ Begun.Ready → log self.new + record_room ≤ self.new.log_limit }
    {
        match self.disks.next_generation(kept) {
            Ok(()) => Begun::Ready,
            Err(Failed) => Begun::DiskFault,
        }
    }
}
