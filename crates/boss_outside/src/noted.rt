ghost use Rattle.std.specs.Prelude.{◌≡◌, ◌<◌, ◌++◌, ◌∷◌, [], true, is_ok, IfOk, OnOk, vec_len, vec_capacity};
ghost use Rattle.boss_outside.specs.Counts.{HasCause, one_more};

use crate::{Actuators, DeviceCall, Failed, Look};
use boss_model::{DriverPlan, NoMemory, PointId};
use std::alloc::Global;

/// Devices that tell which calls were made of them, over others that need not: each call that reaches those is noted.
#[derive(Debug, Drop)]
pub struct Noted<A> {
    devices: A,
    calls: Vec<DeviceCall>,
    whole: bool,
    faults: u64,
}

impl<A: Actuators> Noted<A> {
    /// These devices, before the first call that is noted.
    pub fn new(alloc: Global, devices: A) -> Noted<A>
        ensures devices { result.devices ≡ devices }
        ensures calls { result.calls.items ≡ [] }
        ensures whole { result.whole ≡ true }
        ensures faults { result.faults ≡ 0 }
    {
        Noted {
            devices,
            calls: Vec::new(alloc),
            whole: true,
            faults: 0,
        }
    }

    /// The devices.
    pub fn devices(&self) -> &A
        ensures { result.now ≡ self.now.devices }
    {
        &self.devices
    }

    /// The calls so far, in order, but for those that failed because there was no memory to note them.
    pub fn calls(&self) -> &[DeviceCall]
        ensures { result.now ≡ self.now.calls.items }
    {
        self.calls.as_slice()
    }

    /// Whether no call is missing among them.
    pub fn is_whole(&self) -> bool
        ensures { result ≡ self.now.whole }
    {
        self.whole
    }

    /// Counts a call that failed.
    fn fault(&mut self) -> Failed
        ensures { self.new ≡ record self.old { faults = one_more self.old.faults } }
    {
        self.faults = self.faults.saturating_add(1);
        Failed
    }
}

impl<A: Actuators> Actuators for Noted<A> {
    ghost use Rattle.std.specs.Prelude.{IsTrue};

    ghost tells = { Unit {0} };

    ghost calls = { λ noted. noted.calls.items };

    ghost whole = { λ noted. IsTrue noted.whole };

    ghost faults = { λ noted. noted.faults };

    ghost assigned = { λ old part new. A.assigned old.devices part new.devices };

    /// A call that there is no room to note fails, and the devices are not asked: one that they took has to be noted.
    fn write(&mut self, point: PointId, value: i64) -> Result<(), Failed>
        ensures recorded { IsTrue self.new.whole → IsTrue self.old.whole × (self.new.calls.items
            ≡ self.old.calls.items ++ record { point = point; value = value; ok = is_ok result } ∷ []) }
        ensures noted { OnOk result ((IsTrue self.old.whole → IsTrue self.new.whole) × (self.new.calls.items
            ≡ self.old.calls.items ++ record { point = point; value = value; ok = true } ∷ [])) }
        ensures cause { HasCause self.old.faults self.new.faults result }
        // A call is answered Ok only where the devices took it.
        ensures taken { OnOk result (A.faults self.new.devices ≡ A.faults self.old.devices) }
    {
        if self.calls.reserve(1).is_err() {
            self.whole = false;
            return Err(self.fault());
        }
        let answer = self.devices.write(point, value);
        let ok = answer.is_ok();
        note_in_room(&mut self.calls, DeviceCall { point, value, ok });
        if ok {
            return Ok(());
        }
        Err(self.fault())
    }

    fn look(&mut self, now: u64) -> Look {
        self.devices.look(now)
    }

    fn rests(&self, now: u64) -> u64 {
        self.devices.rests(now)
    }

    fn assign(&mut self, part: DriverPlan) {
        self.devices.assign(part);
    }
}

/// Notes a call, for which there is room.
fn note_in_room(calls: &mut Vec<DeviceCall>, call: DeviceCall)
    requires { vec_len calls.old < vec_capacity calls.old }
    ensures { calls.new.items ≡ calls.old.items ++ call ∷ [] }
{
    let pushed = calls.push(call);
    let Ok(()) = pushed else { unreachable!() };
}
