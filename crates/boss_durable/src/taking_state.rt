ghost use Rattle.std.specs.Prelude.{◌≡◌, ◌≤◌, ◌^◌, true, false, List};
ghost use Rattle.def_bytes.specs.States.{state};
ghost use Rattle.boss_durable.specs.Followed.{FollowedCause, has_failed, lasts_after, may_last, Takes, was_stopped};
ghost use Rattle.boss_durable.specs.Redone.{opened_at};
ghost use Rattle.boss_durable.specs.Words.{keeps, lasting, leaves, log, passes};
ghost use Rattle.boss_model.specs.Catalogue.{actuators};
ghost use Rattle.boss_model.specs.declared.event.Event.{Event};
ghost use Rattle.boss_model.specs.Seen.{seen};
ghost use Rattle.boss_model.specs.Sound.{IsSoundPersistent};
ghost use Rattle.boss_disk_pair.specs.Causes.{counts_of};

use crate::sound_engine::SoundEngine;
use crate::{Durable, Followed};
use boss_disk::Disk;
use boss_engine::RestoreRefusal;
use boss_model::Kept;
use boss_outside::Failed;
use boss_points::Catalogue;

impl<D: Disk> Durable<D> {
    /// Takes a state of another history on, in place of its own, after so many events of it: at most `2 ^ 62`. A new log begins
    /// behind it, on the other disk. The value goes by this catalogue. All points are open after it: nobody is attached, and every
    /// point wants its target.
    ///
    /// Stopped comes exactly where a disk failed in an earlier call; DiskFault where one fails in this call, and then the value
    /// has its own engine. What a crash leaves meanwhile, or after a DiskFault, opens to what lasted before or to the state; after
    /// Done to the latter, and after any other answer to what lasted before.
    pub fn take_state(&mut self, catalogue: &Catalogue, kept: &Kept, events: u64) -> Followed
        requires plant { self.old.engine.plant ≡ actuators catalogue.now }
        requires few { events ≤ 2 ^ 62 }
        ensures takes { Takes self.old self.new (seen kept.entry.now) events result }
        ensures passes { (before : List Event) → keeps self.old before →
            passes self.old self.new (lasting self.old) (may_last result (lasting self.old) (seen kept.entry.now)) }
        ensures leaves { (before : List Event) → keeps self.old before →
            leaves self.new (lasts_after result (lasting self.old) (seen kept.entry.now)) (may_last result (lasting self.old) (seen kept.entry.now)) }
        ensures cause { FollowedCause (counts_of self.old.disks) (counts_of self.new.disks) result }
        ensures stopped { was_stopped result ≡ self.old.disks.stopped }
        ensures stops { has_failed result ≡ self.new.disks.stopped }
        ensures plant { self.new.engine.plant ≡ self.old.engine.plant }
        ensures count { result ≡ Followed.Done → self.new.disks.events ≡ events }
        ensures log { result ≡ Followed.Done → log self.new ≡ 0 }
        ensures limit { self.new.log_limit ≡ self.old.log_limit }
        ensures digest { self.new.disks.digest ≡ self.old.disks.digest }
    {
        if self.disks.stopped() {
            return Followed::Stopped;
        }
        match SoundEngine::restore(self.alloc, catalogue, kept) {
            Ok(engine) => self.go_on_with(engine, kept, events),
            Err(RestoreRefusal::NotSound) => Followed::NotSound,
            Err(RestoreRefusal::NoMemory) => Followed::NoMemory,
        }
    }

    /// Goes on with this engine, behind a kept state of what lasts of it. The engine of before is given up only once the disks have
    /// the state.
    fn go_on_with(&mut self, engine: SoundEngine, kept: &Kept, events: u64) -> Followed
        requires going { self.old.disks.stopped ≡ false }
        requires engine { engine ≡ opened_at self.old.engine.plant (seen kept.now) }
        requires sound { IsSoundPersistent self.old.engine.plant (seen kept.now) }
        requires fits { (state 2).fits (seen kept.now) ≡ true }
        requires few { events ≤ 2 ^ 62 }
        ensures takes { Takes self.old self.new (seen kept.entry.now) events result }
        ensures passes { (before : List Event) → keeps self.old before →
            passes self.old self.new (lasting self.old) (may_last result (lasting self.old) (seen kept.entry.now)) }
        ensures leaves { (before : List Event) → keeps self.old before →
            leaves self.new (lasts_after result (lasting self.old) (seen kept.entry.now)) (may_last result (lasting self.old) (seen kept.entry.now)) }
        ensures cause { FollowedCause (counts_of self.old.disks) (counts_of self.new.disks) result }
        ensures going { was_stopped result ≡ false }
        ensures stops { has_failed result ≡ self.new.disks.stopped }
        ensures plant { self.new.engine.plant ≡ self.old.engine.plant }
        ensures count { result ≡ Followed.Done → self.new.disks.events ≡ events }
        ensures log { result ≡ Followed.Done → log self.new ≡ 0 }
        ensures limit { self.new.log_limit ≡ self.old.log_limit }
        ensures digest { self.new.disks.digest ≡ self.old.disks.digest }
    {
        match self.disks.take_state(kept, events) {
            Ok(()) => {
                self.engine = engine;
                Followed::Done
            }
            Err(Failed) => Followed::DiskFault,
        }
    }
}
