ghost use Rattle.std.specs.Prelude.{◌≡◌, ◌⊎◌, ℕ, List, [], ◌∷◌, ◌++◌, true, false, is_ok, is_err, IfOk, OnOk, OnErr, IsTrue, IsErr};
ghost use Rattle.boss_model.specs.declared.places.DriverPlan.{DriverPlan as Part};
ghost use Rattle.boss_outside.specs.Counts.{HasCause};
ghost use Rattle.boss_outside.specs.DeviceCall.{DeviceCall as Called};
ghost use Rattle.boss_outside.specs.Plan.{new_plan, fails_next, after_call};

use crate::Failed;
use crate::plan::FaultPlan;
use boss_model::{DriverPlan, Items, NoMemory, PointId};
use std::alloc::Global;
use std::marker::Model;

/// The devices behind one driver, each of which takes the commands to one point.
pub trait Actuators {
    /// That the values of this type tell which calls were made of them. A form in memory does; a real one can't.
    ghost tells: { Type 0 };

    /// The calls so far, in order.
    ghost calls: { Self → List Called };

    /// That no call is missing among them. A form in memory leaves out a failed call that it has no memory to note, and
    /// its record is never whole again.
    ghost whole: { Self → Type 0 };

    /// The number of writes that failed, up to `2 ^ 64 - 1`, where it stands still.
    ghost faults: { Self → ℕ };

    /// What being assigned a part does: how the devices were, the part, and how they are then.
    ghost assigned: { Self → Part → Self → Type 0 };

    /// Commands a point to take a value: thousandths of the unit for an analog point, a state number otherwise.
    fn write(&mut self, point: PointId, value: i64) -> Result<(), Failed>
        // As long as the record is whole it was so before, and it gained this call.
        ensures recorded { tells → whole self.new → whole self.old × (calls self.new
            ≡ calls self.old ++ record { point = point; value = value; ok = is_ok result } ∷ []) }
        // A call that the device took is always noted, and leaves a whole record whole.
        ensures noted { tells → OnOk result ((whole self.old → whole self.new) × (calls self.new
            ≡ calls self.old ++ record { point = point; value = value; ok = true } ∷ [])) }
        ensures cause { HasCause (faults self.old) (faults self.new) result };

    /// Looks after what the devices took: reads one of them, where that is due at this moment, in milliseconds. It commands nothing.
    fn look(&mut self, now: u64) -> Look
        ensures calls { tells → calls self.new ≡ calls self.old }
        ensures whole { tells → (whole self.old → whole self.new) × (whole self.new → whole self.old) }
        ensures faults { faults self.new ≡ faults self.old };

    /// For how many milliseconds from this moment on no look is due, as far as that is known now; `2 ^ 64 - 1` where none ever is.
    fn rests(&self, now: u64) -> u64;

    /// Tells the devices where their points are. It comes before the first write, or between two, and writes nothing.
    fn assign(&mut self, part: DriverPlan)
        ensures assigned { assigned self.old part self.new }
        ensures calls { tells → calls self.new ≡ calls self.old }
        ensures whole { tells → (whole self.old → whole self.new) × (whole self.new → whole self.old) }
        ensures faults { faults self.new ≡ faults self.old };
}

/// What came of looking after the devices.
#[derive(Clone, Copy, Debug, PartialEq, Eq)]
pub enum Look {
    /// None was to be looked after.
    Quiet,
    /// One was, and nothing is to be done about it.
    Seen,
    /// What this point's device has may be another value than the one that it took.
    Doubt {
        point: PointId,
        /// Another one was found there.
        differs: bool,
    },
}

/// One command to a device, and whether the device took it.
#[derive(Clone, Copy, Debug, PartialEq, Eq)]
pub struct DeviceCall {
    pub point: PointId,
    pub value: i64,
    pub ok: bool,
}

impl Model for DeviceCall {
    ghost use Rattle.boss_outside.specs.DeviceCall.{DeviceCall as Called};

    ghost Value = { Called };

    ghost view = { λ c. record { point = c.point; value = c.value; ok = c.ok } };

    ghost inverse = { λ c. record { point = c.point; value = c.value; ok = c.ok } };
}

/// Simulated devices, which take every command but those that are to fail, and note each.
#[derive(Debug, Drop)]
pub struct SimActuators {
    calls: Vec<DeviceCall>,
    whole: bool,
    plan: FaultPlan,
}

impl Model for SimActuators {
    ghost use Rattle.boss_outside.specs.Stores.{Devices};

    ghost Value = { Devices };

    ghost view = { λ s. record { calls = s.calls.items; whole = s.whole; plan = s.plan } };
}

impl SimActuators {
    /// Devices before their first call, of which the writes with these numbers fail, counted from 1.
    pub fn new(alloc: Global, fails: Items<u64>) -> Result<SimActuators, NoMemory>
        ensures { IfOk result (λ devices. devices
            ≡ record { calls = []; whole = true; plan = new_plan fails }) }
    {
        Ok(SimActuators {
            calls: Vec::new(alloc),
            whole: true,
            plan: FaultPlan::new(fails),
        })
    }

    /// The calls so far, in order, but for failed ones that there was no memory to note.
    pub fn calls(&self) -> &[DeviceCall]
        ensures { result.now ≡ self.now.calls }
    {
        self.calls.as_slice()
    }

    /// Whether no call is missing among them.
    pub fn is_whole(&self) -> bool
        ensures { result ≡ self.now.whole }
    {
        self.whole
    }
}

impl Actuators for SimActuators {
    ghost tells = { Unit {0} };

    ghost calls = { λ devices. devices.calls };

    ghost whole = { λ devices. IsTrue devices.whole };

    ghost faults = { λ devices. devices.plan.faults };

    ghost assigned = { λ old part new. new ≡ old };

    fn write(&mut self, point: PointId, value: i64) -> Result<(), Failed>
        ensures recorded { IsTrue self.new.whole → IsTrue self.old.whole × (self.new.calls
            ≡ self.old.calls ++ record { point = point; value = value; ok = is_ok result } ∷ []) }
        ensures noted { OnOk result ((IsTrue self.old.whole → IsTrue self.new.whole) × (self.new.calls
            ≡ self.old.calls ++ record { point = point; value = value; ok = true } ∷ [])) }
        ensures cause { HasCause self.old.plan.faults self.new.plan.faults result }
        // Even where its record is not whole, a call that failed was noted or left out, and nothing else.
        ensures failed { OnErr result ((self.new.calls ≡ self.old.calls) ⊎ (self.new.calls
            ≡ self.old.calls ++ record { point = point; value = value; ok = false } ∷ [])) }
        ensures fails { IsTrue (fails_next self.old.plan) → IsErr result }
        ensures plan { self.new.plan ≡ after_call self.old.plan (is_err result) }
    {
        let answer = self.plan.call();
        let ok = answer.is_ok();
        if self.calls.push(DeviceCall { point, value, ok }).is_ok() {
            return answer;
        }
        self.whole = false;
        answer?;
        Err(self.plan.fault())
    }

    fn look(&mut self, _now: u64) -> Look {
        Look::Quiet
    }

    fn rests(&self, _now: u64) -> u64 {
        u64::MAX
    }

    fn assign(&mut self, _part: DriverPlan) {}
}

/// Devices that take every command and note nothing.
#[derive(Debug, Drop)]
pub struct IdleActuators;

impl IdleActuators {
    /// The devices. They take no memory, and never fail.
    pub fn new() -> IdleActuators {
        IdleActuators
    }
}

impl Actuators for IdleActuators {
    ghost tells = { ⊥ };

    ghost calls = { λ devices. [] };

    ghost whole = { λ devices. Unit {0} };

    ghost faults = { λ devices. 0 };

    ghost assigned = { λ old part new. new ≡ old };

    fn write(&mut self, _point: PointId, _value: i64) -> Result<(), Failed> {
        Ok(())
    }

    fn look(&mut self, _now: u64) -> Look {
        Look::Quiet
    }

    fn rests(&self, _now: u64) -> u64 {
        u64::MAX
    }

    fn assign(&mut self, _part: DriverPlan) {}
}
