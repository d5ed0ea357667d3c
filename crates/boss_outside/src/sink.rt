ghost use Rattle.std.specs.Prelude.{◌≡◌, ℕ, List, [], IfOk, OnErr, IsTrue, IsErr, is_err};
ghost use Rattle.boss_outside.specs.Counts.{HasCause};
ghost use Rattle.boss_outside.specs.Plan.{new_plan, fails_next, after_call};
ghost use Rattle.boss_outside.specs.Streams.{Writes};

use crate::Failed;
use crate::plan::FaultPlan;
use boss_model::{Items, NoMemory};
use std::alloc::Global;
use std::marker::Model;

/// Something that bytes are written to.
pub trait Sink {
    /// That the values of this type tell which bytes they took. A form in memory does; a real one can't.
    ghost tells: { Type 0 };

    /// All bytes that it took, in order.
    ghost taken: { Self → List ℕ };

    /// The number of writes that failed, up to `2 ^ 64 - 1`, where it stands still.
    ghost faults: { Self → ℕ };

    /// Writes all these bytes, or fails after some of them.
    fn write(&mut self, bytes: &[u8]) -> Result<(), Failed>
        ensures bytes { tells → Writes (taken self.old) (taken self.new) bytes.now result }
        ensures cause { HasCause (faults self.old) (faults self.new) result };
}

/// A sink in memory. A write that fails takes nothing.
#[derive(Debug, Drop)]
pub struct BytesSink {
    taken: Vec<u8>,
    plan: FaultPlan,
}

impl Model for BytesSink {
    ghost use Rattle.boss_outside.specs.Stores.{Intake};

    ghost Value = { Intake };

    ghost view = { λ s. record { taken = s.taken.items; plan = s.plan } };
}

impl BytesSink {
    /// A sink that took nothing yet, of which the writes with these numbers fail, counted from 1.
    pub fn new(alloc: Global, fails: Items<u64>) -> Result<BytesSink, NoMemory>
        ensures { IfOk result (λ sink. sink ≡ record { taken = []; plan = new_plan fails }) }
    {
        Ok(BytesSink {
            taken: Vec::new(alloc),
            plan: FaultPlan::new(fails),
        })
    }

    /// All bytes that it took, in order.
    pub fn taken(&self) -> &[u8]
        ensures { result.now ≡ self.now.taken }
    {
        self.taken.as_slice()
    }
}

impl Sink for BytesSink {
    ghost tells = { Unit {0} };

    ghost taken = { λ sink. sink.taken };

    ghost faults = { λ sink. sink.plan.faults };

    fn write(&mut self, bytes: &[u8]) -> Result<(), Failed>
        ensures bytes { Writes self.old.taken self.new.taken bytes.now result }
        ensures cause { HasCause self.old.plan.faults self.new.plan.faults result }
        ensures none { OnErr result (self.new.taken ≡ self.old.taken) }
        ensures fails { IsTrue (fails_next self.old.plan) → IsErr result }
        ensures plan { self.new.plan ≡ after_call self.old.plan (is_err result) }
    {
        self.plan.call()?;
        if self.taken.extend_from_slice(bytes).is_err() {
            return Err(self.plan.fault());
        }
        Ok(())
    }
}
