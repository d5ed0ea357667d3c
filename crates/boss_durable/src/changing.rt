ghost use Rattle.std.specs.Prelude.{◌≡◌, ◌+◌, ◌%◌, ◌^◌, false, true, List, is_err, OnErr, OnOk};
ghost use Rattle.def_bytes.specs.States.{state};
ghost use Rattle.boss_durable.specs.Words.{changes, keeps};
ghost use Rattle.boss_model.specs.declared.event.Event.{Event};
ghost use Rattle.boss_model.specs.Plants.{IsPlant};
ghost use Rattle.boss_model.specs.Seen.{seen};
ghost use Rattle.boss_model.specs.Sound.{IsSound};
ghost use Rattle.boss_disk_pair.specs.Causes.{CallCause, counts_of};

use crate::Durable;
use crate::sound_engine::SoundEngine;
use boss_disk::Disk;
use boss_engine::Engine;
use boss_model::Kept;
use boss_outside::Failed;

impl<D: Disk> Durable<D> {
    /// Goes on with another engine, whose catalogue the digest names, behind a kept state of what lasts of it: a new log begins, on
    /// the other disk. The number of events goes on. Whatever a crash leaves in between opens to what lasted before under the old
    /// digest, or to the kept state under the new one. It takes no memory.
    ///
    /// After a failure the value is stopped, with its own engine and digest.
    pub fn change(&mut self, engine: Engine, kept: &Kept, digest: &[u8; 32]) -> Result<(), Failed>
        requires going { self.old.disks.stopped ≡ false }
        requires plant { IsPlant engine.plant }
        requires sound { IsSound engine.plant engine.state }
        requires kept { seen kept.now ≡ engine.state.persistent }
        requires fits { (state 2).fits (seen kept.now) ≡ true }
        ensures keeps { (before : List Event) → keeps self.old before → OnOk result (keeps self.new before) }
        ensures changes { (before : List Event) → keeps self.old before → changes self.old self.new engine.plant digest.now engine.state.persistent }
        ensures engine { OnOk result (self.new.engine ≡ engine) }
        ensures old_engine { OnErr result (self.new.engine ≡ self.old.engine) }
        ensures digest { OnOk result (self.new.disks.digest ≡ digest.now) }
        ensures old_digest { OnErr result (self.new.disks.digest ≡ self.old.disks.digest) }
        ensures generation { OnOk result (self.new.disks.generation ≡ (self.old.disks.generation + 1) % 2 ^ 64) }
        ensures events { self.new.disks.events ≡ self.old.disks.events }
        ensures limit { self.new.log_limit ≡ self.old.log_limit }
        ensures cause { CallCause false (counts_of self.old.disks) (counts_of self.new.disks) result }
        ensures stops { self.new.disks.stopped ≡ is_err result }
    {
        match self.disks.change(kept, digest) {
            Ok(()) => {
                self.engine = SoundEngine::new(engine);
                Ok(())
            }
            Err(Failed) => Err(Failed),
        }
    }
}
