ghost use Rattle.std.specs.Prelude.{◌≡◌, ◌≢◌, ◌+◌, ◌≤◌, false, is_err, List, OnOk, OnErr};
ghost use Rattle.boss_model.specs.Limits.{record_room};
ghost use Rattle.boss_durable.specs.Begun.{BegunCause, is_fault};
ghost use Rattle.boss_durable.specs.Confirmed.{IsAsked, IsConfirmed, latest, latest_of};
ghost use Rattle.boss_durable.specs.Words.{keeps, lasting, leaves, log, passes};
ghost use Rattle.boss_model.specs.declared.event.Event.{Event};
ghost use Rattle.boss_disk_pair.specs.Causes.{CallCause, counts_of};

use crate::Durable;
use crate::beginning::Begun;
use boss_disk::Disk;
use boss_model::Command;
use boss_outside::Failed;
use boss_shared::Asked;

/// For how long a confirmation serves, in milliseconds.
const CONFIRMED_FOR: u64 = 1_000;

impl<D: Disk> Durable<D> {
    /// Sees that the disk in force was asked within the last second before this moment, in milliseconds, and then to room in the log for
    /// a record, as `begin` does.
    pub(crate) fn begin_at(&mut self, moment: u64) -> Begun
        requires { self.old.disks.stopped ≡ false }
        ensures keeps { (before : List Event) → keeps self.old before → result ≢ Begun.DiskFault → keeps self.new before }
        ensures leaves { (before : List Event) → keeps self.old before → leaves self.new (lasting self.old) (lasting self.old) }
        ensures passes { (before : List Event) → keeps self.old before → passes self.old self.new (lasting self.old) (lasting self.old) }
        ensures engine { self.new.engine ≡ self.old.engine }
        ensures limit { self.new.log_limit ≡ self.old.log_limit }
        ensures digest { self.new.disks.digest ≡ self.old.disks.digest }
        ensures cause { BegunCause (counts_of self.old.disks) (counts_of self.new.disks) result }
        ensures stops { self.new.disks.stopped ≡ is_fault result }
        ensures room { result ≡ Begun.Ready → log self.new + record_room ≤ self.new.log_limit }
        ensures confirmed { result ≢ Begun.DiskFault → IsConfirmed self.new.confirmed moment }
    {
        match self.confirm(moment) {
            Ok(()) => self.begin(),
            Err(Failed) => Begun::DiskFault,
        }
    }

    /// Asks the disk in force, by a sync, unless it was asked less than a second before this moment. A moment that lies a second or
    /// more before that of the last time is of a clock that was set back.
    fn confirm(&mut self, moment: u64) -> Result<(), Failed>
        requires { self.old.disks.stopped ≡ false }
        ensures keeps { (before : List Event) → keeps self.old before → OnOk result (keeps self.new before) }
        ensures leaves { (before : List Event) → keeps self.old before → leaves self.new (lasting self.old) (lasting self.old) }
        ensures passes { (before : List Event) → keeps self.old before → passes self.old self.new (lasting self.old) (lasting self.old) }
        ensures engine { self.new.engine ≡ self.old.engine }
        ensures limit { self.new.log_limit ≡ self.old.log_limit }
        ensures digest { self.new.disks.digest ≡ self.old.disks.digest }
        ensures cause { CallCause false (counts_of self.old.disks) (counts_of self.new.disks) result }
        ensures stops { self.new.disks.stopped ≡ is_err result }
        ensures confirmed { OnOk result (IsConfirmed self.new.confirmed moment) }
        ensures asked { OnOk result (IsAsked self.old self.new) }
    {
        if !is_due(self.confirmed, moment) {
            return Ok(());
        }
        match self.disks.confirm() {
            Ok(()) => {
                self.confirmed = Some(moment);
                Ok(())
            }
            Err(Failed) => Err(Failed),
        }
    }
}

/// Whether a disk has to be asked before a call of this moment that was asked last at the other, or never.
fn is_due(confirmed: Option<u64>, moment: u64) -> bool
    ensures { result ≡ false → IsConfirmed confirmed moment }
{
    match confirmed {
        Some(last) => moment.abs_diff(last) >= CONFIRMED_FOR,
        None => true,
    }
}

/// The latest moment of commands, in milliseconds.
pub fn latest(commands: &[(Command, u64)]) -> u64
    ensures { result ≡ latest commands.now }
{
    let mut most = 0;
    for call in commands {
        most = call.1.max(most);
    }
    most
}

/// The latest moment of all that callers ask for, in milliseconds.
pub fn latest_of(group: &[Asked]) -> u64
    ensures { result ≡ latest_of group.now }
{
    let mut most = 0;
    for asked in group {
        most = latest(asked.commands.slice()).max(most);
    }
    most
}
