ghost use Rattle.std.specs.Prelude.{◌≡◌, ℕ, ◌+◌, ◌^◌, ◌%◌, ◌≤◌, true, false, not, List, OnOk, OnErr};
ghost use Rattle.def_bytes.specs.States.{state};
ghost use Rattle.boss_model.specs.declared.state.Actuator.{Actuator};
ghost use Rattle.boss_model.specs.Seen.{seen};
ghost use Rattle.boss_model.specs.Sound.{IsSoundPersistent};
ghost use Rattle.boss_model.specs.State.{Persistent};
ghost use Rattle.boss_disk_pair.specs.Causes.{CallCause, counts_of};
ghost use Rattle.boss_disk_pair.specs.Rests.{changes, counted, rests, leaves, passes};
ghost use Rattle.def_log.specs.Versions.{newest_version};

use crate::TwoDisks;
use crate::seeds::seed_by;
use boss_disk::Disk;
use boss_model::Kept;
use boss_outside::Failed;
use boss_snapshot::write_state;
use def_log::NEWEST_VERSION;

impl<D: Disk> TwoDisks<D> {
    /// Writes a kept state to the disk that is not in force, as the next generation and in the newest version, and goes on behind it: that
    /// disk is in force then, and its log is empty. After a failure the pair is stopped, and one that was stopped before stays as
    /// it is, without a call of a disk. It takes no memory.
    pub fn next_generation(&mut self, kept: &Kept) -> Result<(), Failed>
        requires { (state 2).fits (seen kept.now) ≡ true }
        ensures rests { (plant : List Actuator) (d : Persistent) (count : ℕ) → rests self.old plant d count
            → seen kept.entry.now ≡ d → IsSoundPersistent plant d → OnOk result (rests self.new plant d count) }
        ensures passes { (plant : List Actuator) (d : Persistent) (count : ℕ) → rests self.old plant d count
            → seen kept.entry.now ≡ d → IsSoundPersistent plant d → passes self.old self.new plant d d }
        ensures leaves { (plant : List Actuator) (d : Persistent) (count : ℕ) → rests self.old plant d count
            → seen kept.entry.now ≡ d → IsSoundPersistent plant d → leaves self.new plant d d }
        ensures cause { CallCause self.old.stopped (counts_of self.old) (counts_of self.new) result }
        ensures fine { OnOk result (self.new.stopped ≡ false) }
        ensures stops { OnErr result (self.new.stopped ≡ true) }
        ensures still { self.old.stopped ≡ true → self.new ≡ self.old }
        ensures log { OnOk result (self.new.journal.place ≡ self.new.journal.first) }
        ensures version { OnOk result (self.new.journal.version ≡ newest_version) }
        ensures generation { OnOk result (self.new.generation ≡ (self.old.generation + 1) % 2 ^ 64) }
        ensures order { OnOk result (self.new.second ≡ not self.old.second) }
        ensures events { self.new.events ≡ self.old.events }
        ensures digest { self.new.digest ≡ self.old.digest }
    {
        let events = self.events;
        self.take_state(kept, events)
    }

    /// Takes on a kept state from elsewhere, of the same plant, after so many events: up to `2 ^ 62`, which is then the pair's own
    /// number. Whatever a crash leaves in between opens to the state of before, or to the kept one. After a failure the pair has its
    /// own number.
    pub fn take_state(&mut self, kept: &Kept, events: u64) -> Result<(), Failed>
        requires fits { (state 2).fits (seen kept.now) ≡ true }
        requires few { events ≤ 2 ^ 62 }
        ensures rests { (plant : List Actuator) (d e : Persistent) (count many : ℕ) → rests self.old plant d count
            → seen kept.entry.now ≡ e → IsSoundPersistent plant e → (D.tells → counted many ≡ events) → OnOk result (rests self.new plant e many) }
        ensures passes { (plant : List Actuator) (d e : Persistent) (count : ℕ) → rests self.old plant d count
            → seen kept.entry.now ≡ e → IsSoundPersistent plant e → passes self.old self.new plant d e }
        ensures leaves { (plant : List Actuator) (d e : Persistent) (count : ℕ) → rests self.old plant d count
            → seen kept.entry.now ≡ e → IsSoundPersistent plant e → leaves self.new plant d e }
        ensures cause { CallCause self.old.stopped (counts_of self.old) (counts_of self.new) result }
        ensures fine { OnOk result (self.new.stopped ≡ false) }
        ensures stops { OnErr result (self.new.stopped ≡ true) }
        ensures still { self.old.stopped ≡ true → self.new ≡ self.old }
        ensures log { OnOk result (self.new.journal.place ≡ self.new.journal.first) }
        ensures version { OnOk result (self.new.journal.version ≡ newest_version) }
        ensures generation { OnOk result (self.new.generation ≡ (self.old.generation + 1) % 2 ^ 64) }
        ensures order { OnOk result (self.new.second ≡ not self.old.second) }
        ensures events { OnOk result (self.new.events ≡ events) }
        ensures old_events { OnErr result (self.new.events ≡ self.old.events) }
        ensures digest { self.new.digest ≡ self.old.digest }
    {
        let digest = self.digest;
        self.go_on_behind(kept, &digest, events)
    }

    /// The same under another catalogue, which the digest names: the kept state is one of its plant, and from then on the pair is
    /// told under that digest. Whatever a crash leaves in between opens to the state of before under the old digest, or to the
    /// kept one under the new. After a failure the pair goes by the old digest.
    pub fn change(&mut self, kept: &Kept, digest: &[u8; 32]) -> Result<(), Failed>
        requires { (state 2).fits (seen kept.now) ≡ true }
        ensures rests { (plant new_plant : List Actuator) (d e : Persistent) (count : ℕ) → rests self.old plant d count
            → seen kept.entry.now ≡ e → IsSoundPersistent new_plant e → OnOk result (rests self.new new_plant e count) }
        ensures changes { (plant new_plant : List Actuator) (d e : Persistent) (count : ℕ) → rests self.old plant d count
            → seen kept.entry.now ≡ e → IsSoundPersistent new_plant e → changes self.old self.new plant d new_plant digest.now e }
        ensures cause { CallCause self.old.stopped (counts_of self.old) (counts_of self.new) result }
        ensures fine { OnOk result (self.new.stopped ≡ false) }
        ensures stops { OnErr result (self.new.stopped ≡ true) }
        ensures still { self.old.stopped ≡ true → self.new ≡ self.old }
        ensures log { OnOk result (self.new.journal.place ≡ self.new.journal.first) }
        ensures version { OnOk result (self.new.journal.version ≡ newest_version) }
        ensures generation { OnOk result (self.new.generation ≡ (self.old.generation + 1) % 2 ^ 64) }
        ensures order { OnOk result (self.new.second ≡ not self.old.second) }
        ensures events { self.new.events ≡ self.old.events }
        ensures digest { OnOk result (self.new.digest ≡ digest.now) }
        ensures old_digest { OnErr result (self.new.digest ≡ self.old.digest) }
    {
        let events = self.events;
        self.go_on_behind(kept, digest, events)
    }

    /// Writes a kept state, under this digest and after so many events, to the disk that is not in force, and goes on behind it.
    fn go_on_behind(&mut self, kept: &Kept, digest: &[u8; 32], events: u64) -> Result<(), Failed>
        requires fits { (state 2).fits (seen kept.now) ≡ true }
        requires few { events ≤ 2 ^ 62 }
        ensures rests { (plant new_plant : List Actuator) (d e : Persistent) (count many : ℕ) → rests self.old plant d count
            → seen kept.entry.now ≡ e → IsSoundPersistent new_plant e → (D.tells → counted many ≡ events)
            → OnOk result (rests self.new new_plant e many) }
        ensures changes { (plant new_plant : List Actuator) (d e : Persistent) (count : ℕ) → rests self.old plant d count
            → seen kept.entry.now ≡ e → IsSoundPersistent new_plant e → changes self.old self.new plant d new_plant digest.now e }
        ensures cause { CallCause self.old.stopped (counts_of self.old) (counts_of self.new) result }
        ensures fine { OnOk result (self.new.stopped ≡ false) }
        ensures stops { OnErr result (self.new.stopped ≡ true) }
        ensures still { self.old.stopped ≡ true → self.new ≡ self.old }
        ensures log { OnOk result (self.new.journal.place ≡ self.new.journal.first) }
        ensures version { OnOk result (self.new.journal.version ≡ newest_version) }
        ensures generation { OnOk result (self.new.generation ≡ (self.old.generation + 1) % 2 ^ 64) }
        ensures order { OnOk result (self.new.second ≡ not self.old.second) }
        ensures events { OnOk result (self.new.events ≡ events) }
        ensures old_events { OnErr result (self.new.events ≡ self.old.events) }
        ensures digest { OnOk result (self.new.digest ≡ digest.now) }
        ensures old_digest { OnErr result (self.new.digest ≡ self.old.digest) }
    {
        if self.stopped {
            return Err(Failed);
        }
        let generation = self.generation.wrapping_add(1);
        match write_state(kept, &mut self.spare, digest, generation, events) {
            Ok(place) => {
                self.journal.go_on_in(&mut self.spare, place);
                self.second = !self.second;
                self.generation = generation;
                self.events = events;
                self.digest = *digest;
                self.seed = seed_by(NEWEST_VERSION, place, generation, events, digest);
                Ok(())
            }
            Err(Failed) => {
                self.stopped = true;
                Err(Failed)
            }
        }
    }
}
