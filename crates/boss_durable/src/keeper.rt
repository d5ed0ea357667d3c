ghost use Rattle.boss_durable.specs.Words.{faults, keeps, leaves, passes_in_plant};

use crate::Durable;
use boss_disk::Disk;
use boss_model::{Answer, Command, DriverId, Items, Name, SessionId};
use boss_shared::{Asked, Keeper};
use def_history::{Outcome, Outcomes};

impl<D: Disk> Keeper for Durable<D> {
    ghost plant = { λ durable. durable.engine.plant };

    ghost state = { λ durable. durable.engine.state };

    ghost stopped = { λ durable. durable.disks.stopped };

    ghost faults = { λ durable. faults durable };

    ghost leaves = { λ durable first second. leaves durable first second };

    ghost passes = { λ old new first second. passes_in_plant old new first second };

    ghost keeps = { λ durable events. keeps durable events };

    ghost under = { λ durable. durable.disks.digest };

    fn apply(&mut self, session: SessionId, command: &Command, moment: u64) -> Outcome {
        Durable::apply(self, session, command, moment)
    }

    fn apply_all(
        &mut self,
        session: SessionId,
        commands: &Items<(Command, u64)>,
        answers: &mut Vec<Answer>,
    ) -> Outcomes {
        Durable::apply_all(self, session, commands, answers)
    }

    fn apply_together(&mut self, group: &mut [Asked]) {
        Durable::apply_together(self, group);
    }

    fn wanting(&self) -> Option<DriverId> {
        Durable::wanting(self)
    }

    fn has_want(&self, driver: DriverId) -> bool {
        self.engine.engine().has_want(driver)
    }

    fn first_due(&self) -> u64 {
        self.engine.engine().first_due()
    }

    fn next_noticed(&mut self) -> Option<Name> {
        self.engine.next_noticed()
    }

    fn has_stopped(&self) -> bool {
        self.stopped()
    }
}
