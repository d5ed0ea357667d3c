ghost use Rattle.std.specs.Prelude.{◌≡◌, ℕ, suc, ◌+◌, List, [], ◌∷◌, ◌++◌, length};
ghost use Rattle.def_lanes.specs.Devices.{AllTaken, DevicesBack};
ghost use Rattle.def_lanes.specs.Works.{Course, Work, drive, AreOf, AreApart, calls_in};
ghost use Rattle.boss_model.specs.DeviceCall.{DeviceCall};
ghost use Rattle.boss_outside_server.specs.declared.waited.Waited.{Waited};

use boss_outside::Actuators;

/// Devices are taken out one after another, each with a note of how it was, and come back in the order of their drivers, each
/// with the calls of its own driver's work, as far as devices tell their calls and miss none: the works of all others leave it
/// alone.
pub fn devices_come_back<A: Actuators, O>()
    ensures taken { (device was : O → A) (devices : List A) (out : List O) (next : O) → AllTaken device was devices out → was next ≡ device next →
        AllTaken device was (devices ++ device next ∷ []) (out ++ next ∷ []) }
    ensures next { (workers : ℕ) (works others : List Work) (was now : List A) (old new : A) →
        DevicesBack A.calls (λ device. A.tells × A.whole device) 0 was now works → AreOf workers 0 (workers + 1 + length was) works →
        AreOf workers (workers + 1 + length was) (suc (workers + 1 + length was)) others →
        (A.tells → A.whole new → A.calls new ≡ A.calls old ++ calls_in (length was) others) →
        DevicesBack A.calls (λ device. A.tells × A.whole device) 0 (was ++ old ∷ []) (now ++ new ∷ []) (works ++ others) }
{}

/// Where no two works are done in one lane, the calls of a driver's devices are those of its one work.
pub fn one_work_has_all_calls()
    ensures { (driver : ℕ) (calls : List DeviceCall) (waited : Waited) (course : Course) (before behind : List Work) →
        AreApart (before ++ drive driver calls waited course ∷ behind) →
        calls_in driver (before ++ drive driver calls waited course ∷ behind) ≡ calls }
{}
