ghost use Rattle.std.specs.Prelude.{◌≡◌, ◌+◌, ◌≤◌, true, false, List};
ghost use Rattle.def_bytes.specs.Events.{event as spelling};
ghost use Rattle.boss_durable.specs.Followed.{CountsFollowed, FollowedCause, Follows, has_failed, lasts_after, may_last, was_stopped};
ghost use Rattle.boss_durable.specs.Redone.{after};
ghost use Rattle.boss_durable.specs.Words.{keeps, lasting, leaves, log, passes};
ghost use Rattle.boss_model.specs.declared.event.Event.{Event};
ghost use Rattle.boss_model.specs.Limits.{record_room};
ghost use Rattle.boss_disk_pair.specs.Causes.{counts_of};

use crate::beginning::Begun;
use crate::{Durable, Followed};
use boss_disk::Disk;
use boss_model::{Event, NoMemory};
use boss_outside::Failed;

impl<D: Disk> Durable<D> {
    /// Does an event of another history again, as the next one of this, in a record of its own. The event has a spelling. All
    /// points are open after it: nobody is attached, and every point wants its target.
    ///
    /// Stopped comes exactly where a disk failed in an earlier call; DiskFault where one fails in this call. What a crash leaves
    /// meanwhile, or after a DiskFault, opens to what lasted before or to what the event makes of it; after Done to the latter, and
    /// after any other answer to what lasted before. After Done the log is within its limit.
    pub fn follow_event(&mut self, event: &Event) -> Followed
        requires { spelling.fits event.now ≡ true }
        ensures follows { Follows self.old self.new event.now result }
        ensures passes { (before : List Event) → keeps self.old before →
            passes self.old self.new (lasting self.old) (may_last result (lasting self.old) (after self.old.engine.plant event.now (lasting self.old))) }
        ensures leaves { (before : List Event) → keeps self.old before →
            leaves self.new (lasts_after result (lasting self.old) (after self.old.engine.plant event.now (lasting self.old)))
            (may_last result (lasting self.old) (after self.old.engine.plant event.now (lasting self.old))) }
        ensures events { CountsFollowed self.old.disks.events self.new.disks.events result }
        ensures cause { FollowedCause (counts_of self.old.disks) (counts_of self.new.disks) result }
        ensures stopped { was_stopped result ≡ self.old.disks.stopped }
        ensures stops { has_failed result ≡ self.new.disks.stopped }
        ensures plant { self.new.engine.plant ≡ self.old.engine.plant }
        ensures log { result ≡ Followed.Done → log self.new ≤ self.new.log_limit }
        ensures limit { self.new.log_limit ≡ self.old.log_limit }
        ensures digest { self.new.disks.digest ≡ self.old.disks.digest }
    {
        if self.disks.stopped() {
            return Followed::Stopped;
        }
        match self.begin() {
            Begun::Ready => self.follow(event),
            Begun::NoMemory => Followed::NoMemory,
            Begun::DiskFault => Followed::DiskFault,
        }
    }

    /// The same in the log as it is.
    fn follow(&mut self, event: &Event) -> Followed
        requires going { self.old.disks.stopped ≡ false }
        requires fits { spelling.fits event.now ≡ true }
        ensures follows { Follows self.old self.new event.now result }
        ensures passes { (before : List Event) → keeps self.old before →
            passes self.old self.new (lasting self.old) (may_last result (lasting self.old) (after self.old.engine.plant event.now (lasting self.old))) }
        ensures leaves { (before : List Event) → keeps self.old before →
            leaves self.new (lasts_after result (lasting self.old) (after self.old.engine.plant event.now (lasting self.old)))
            (may_last result (lasting self.old) (after self.old.engine.plant event.now (lasting self.old))) }
        ensures events { CountsFollowed self.old.disks.events self.new.disks.events result }
        ensures cause { FollowedCause (counts_of self.old.disks) (counts_of self.new.disks) result }
        ensures going { was_stopped result ≡ false }
        ensures stops { has_failed result ≡ self.new.disks.stopped }
        ensures plant { self.new.engine.plant ≡ self.old.engine.plant }
        ensures log { result ≡ Followed.Done → log self.new ≤ log self.old + record_room }
        ensures limit { self.new.log_limit ≡ self.old.log_limit }
        ensures digest { self.new.disks.digest ≡ self.old.disks.digest }
    {
        match self.engine.replay(event) {
            Ok(done) => {
                if done {
                    match self.batch.append_event(event, &mut self.disks) {
                        Ok(()) => Followed::Done,
                        Err(Failed) => Followed::DiskFault,
                    }
                } else {
                    Followed::NotEffective
                }
            }
            Err(NoMemory) => Followed::NoMemory,
        }
    }
}
