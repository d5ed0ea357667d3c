ghost use Rattle.std.specs.Prelude.{◌≡◌, ◌⊎◌, [], ◌∷◌, ◌++◌, true, IsTrue};
ghost use Rattle.boss_outside.specs.Ringing.{new_rung};

use crate::Ringer;
use std::alloc::Global;
use std::marker::Model;

/// A ringer in memory, which notes the bells that it rang.
#[derive(Debug, Drop)]
pub struct ListRinger {
    rung: Vec<u32>,
    whole: bool,
    alarm: u64,
}

impl Model for ListRinger {
    ghost use Rattle.boss_outside.specs.Ringing.{Rung};

    ghost Value = { Rung };

    ghost view = { λ r. record { rung = r.rung.items; whole = r.whole; alarm = r.alarm } };
}

impl ListRinger {
    /// A ringer that rang nothing yet, and whose alarm was never set.
    pub fn new(alloc: Global) -> ListRinger
        ensures { result ≡ new_rung }
    {
        ListRinger {
            rung: Vec::new(alloc),
            whole: true,
            alarm: u64::MAX,
        }
    }

    /// The bells that it rang, in order, but for those that there was no memory to note.
    pub fn rung(&self) -> &[u32]
        ensures { result.now ≡ self.now.rung }
    {
        self.rung.as_slice()
    }

    /// Whether no bell is missing among them.
    pub fn is_whole(&self) -> bool
        ensures { result ≡ self.now.whole }
    {
        self.whole
    }

    /// The moment that the alarm was set to last, in milliseconds since 1970; `u64::MAX` where it never was.
    pub fn alarm(&self) -> u64
        ensures { result ≡ self.now.alarm }
    {
        self.alarm
    }
}

impl Ringer for ListRinger {
    ghost tells = { Unit {0} };

    ghost rung = { λ ringer. ringer.rung };

    ghost whole = { λ ringer. IsTrue ringer.whole };

    ghost alarm = { λ ringer. ringer.alarm };

    fn ring(&mut self, bell: u32)
        ensures rung { IsTrue self.new.whole → IsTrue self.old.whole × (self.new.rung ≡ self.old.rung ++ bell ∷ []) }
        // Even where its record is not whole, the bell was noted or left out, and nothing else.
        ensures noted { (self.new.rung ≡ self.old.rung) ⊎ (self.new.rung ≡ self.old.rung ++ bell ∷ []) }
        ensures alarm { self.new.alarm ≡ self.old.alarm }
    {
        if self.rung.push(bell).is_err() {
            self.whole = false;
        }
    }

    fn set_alarm(&mut self, moment: u64)
        ensures { self.new ≡ record self.old { alarm = moment } }
    {
        self.alarm = moment;
    }
}
