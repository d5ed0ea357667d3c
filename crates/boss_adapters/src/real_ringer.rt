ghost use Rattle.std.specs.Prelude.{[]};

use crate::shared::Shared;
use boss_bells::Ringer as Right;
use boss_outside::{Ringer, TIME_BELL};
use std::alloc::Global;
use std::marker::Model;
use std::sync::Arc;
use std::sync::atomic::Ordering;

/// What rings the bells of a server, and wakes who sleeps by them.
#[derive(Drop)]
pub struct RealRinger {
    pub(crate) shared: Arc<Shared, Global>,
    pub(crate) right: Right,
}

impl Model for RealRinger {
    ghost use Rattle.std.specs.Prelude.{◌≡◌};
    ghost use Rattle.std.specs.Arc.{arc_value};

    ghost Value = { Unit {0} };

    ghost view = { λ ringer. tt };

    ghost invariant = { λ ringer. ringer.right.row ≡ (arc_value ringer.shared).bells };
}

impl Ringer for RealRinger {
    ghost tells = { ⊥ };

    ghost rung = { λ ringer. [] };

    ghost whole = { λ ringer. Unit {0} };

    ghost alarm = { λ ringer. 0 };

    fn ring(&mut self, bell: u32) {
        let bell = bell as usize;
        if bell < self.shared.bells.len() {
            self.shared.bells.ring(&mut self.right, bell);
        }
    }

    /// Where it comes earlier than before the worker for time is woken, and sleeps no longer than until then.
    fn set_alarm(&mut self, moment: u64) {
        let before = self.shared.alarm.swap(moment, Ordering::SeqCst);
        if moment < before {
            self.ring(TIME_BELL);
        }
    }
}
