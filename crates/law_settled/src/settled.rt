ghost use Rattle.std.specs.Prelude.{◌≡◌, ◌⊎◌, ℕ, ◌<◌, Bool, false, List, Option, Some, None, length, slice_get};
ghost use Rattle.std.specs.List.{AllByRecursion};
ghost use Rattle.boss_keys.specs.declared.entry.Entry.{Entry as KeyEntry};
ghost use Rattle.boss_model.specs.Catalogue.{Catalogue, actuators, driver_of};
ghost use Rattle.boss_model.specs.DeviceCall.{DeviceCall};
ghost use Rattle.boss_model.specs.Settle.{opened};
ghost use Rattle.boss_model.specs.Sound.{IsSound};
ghost use Rattle.boss_model.specs.State.{Persistent, State};
ghost use Rattle.boss_model.specs.Target.{target};
ghost use Rattle.boss_model.specs.declared.state.Actuator.{Actuator};
ghost use Rattle.boss_outside_server.specs.Hosts.{Served};
ghost use Rattle.boss_outside_server.specs.declared.waited.Waited.{Waited};
ghost use Rattle.boss_server.specs.Accounts.{Account};
ghost use Rattle.boss_server.specs.Hosted.{Hosted};
ghost use Rattle.boss_server.specs.Kept.{Ran};
ghost use Rattle.boss_shared.specs.Gates.{Gate};
ghost use Rattle.boss_worker.specs.Saying.{IsDriven, says, terms_of};
ghost use Rattle.boss_worker.specs.declared.flags.Flags.{Flags};
ghost use Rattle.def_guards.specs.Guards.{is_guarded};
ghost use Rattle.def_history.specs.History.{IsLegal, deeds, run};
ghost use Rattle.def_history.specs.declared.entry.Entry.{Entry};
ghost use Rattle.def_lanes.specs.Lanes.{done_in, of_driver};
ghost use Rattle.def_lanes.specs.Parts.{Agreed};
ghost use Rattle.def_lanes.specs.Works.{Course, Work, calls_in};
ghost use Rattle.law_settled.specs.Settled.{IsApart, IsSettled, last_call, last_taken, taking_target};

use boss_outside::Actuators;
use boss_outside_server::{Clock, Host, Waiter};
use boss_shared::Keeper;

/// A settled point has as its target the last value that its device took. Over a history from an opened state, where no device was
/// written yet, the last of all calls to a settled point, taken or not, is one that its device took, with the point's target. So
/// there is such a call, and no other value was asked of the device since. This holds of a driver whose worker keeps minimum times
/// and of one whose worker does not, and of a last turn that was cut: a value that was written and not reported leaves its point
/// unsettled, and so does a write that failed.
pub fn a_settled_point_has_what_its_device_took<H: Host, W: Waiter>()
    // of all that a server's workers did, where the inputs of its connections tell their bytes
    ensures served { (catalogue : Catalogue) (gates : List Gate) (keys : Option (List KeyEntry)) (d : Persistent) (log : List Entry) (works : List Work) (point : ℕ) →
        let plant = actuators catalogue in
        H.In.tells → point < length plant → IsLegal plant log (opened plant d) → Agreed plant (says catalogue gates keys H.In.tells H.Out.tells W.tells) log works →
        IsSettled (run plant log (opened plant d)) point →
        last_call point (calls_in (driver_of plant point) works) ≡ Some (taking_target plant (run plant log (opened plant d)) point) }
    // of one driver's worker, where no connection asks for wants or reports them
    ensures worker { (catalogue : Catalogue) (d : Persistent) (log : List Entry) (calls : List DeviceCall) (pauses : ℕ) (course : Course) (point : ℕ) →
        let plant = actuators catalogue in let driver = driver_of plant point in
        point < length plant → IsLegal plant log (opened plant d) → AllByRecursion IsApart (deeds log) →
        IsDriven (is_guarded catalogue driver) catalogue driver calls W.tells pauses course (done_in plant (of_driver driver) log) →
        IsSettled (run plant log (opened plant d)) point → last_call point calls ≡ Some (taking_target plant (run plant log (opened plant d)) point) }
    // from any sound state: that, or the point has no call, and was settled before with this target
    ensures goes_on { (catalogue : Catalogue) (gates : List Gate) (keys : Option (List KeyEntry)) (s : State) (log : List Entry) (works : List Work) (point : ℕ) →
        let plant = actuators catalogue in
        H.In.tells → point < length plant → IsSound plant s → IsLegal plant log s → Agreed plant (says catalogue gates keys H.In.tells H.Out.tells W.tells) log works →
        IsSettled (run plant log s) point →
        (last_call point (calls_in (driver_of plant point) works) ≡ Some (taking_target plant (run plant log s) point))
        ⊎ ((last_call point (calls_in (driver_of plant point) works) ≡ None) × IsSettled s point
        × (target plant s.persistent point ≡ target plant (run plant log s).persistent point)) }
    // where the last call was taken, its value is the last one that was
    ensures taken { (plant : List Actuator) (s : State) (calls : List DeviceCall) (point : ℕ) → last_call point calls ≡ Some (taking_target plant s point) →
        last_taken point calls ≡ Some (target plant s.persistent point) }
{}

/// The same of the devices that a server gives back: that of the driver of a settled point stands in its driver's place. If it tells
/// its calls and misses none, its last call to the point is one that it took, with the point's target, whatever was written before
/// the server began.
pub fn a_device_has_the_target_of_a_settled_point<
    K: Keeper,
    H: Host,
    C: Clock,
    W: Waiter,
    A: Actuators,
>()
    ensures account { (catalogue : Catalogue) (gates : List Gate) (keys : Option (List KeyEntry)) (workers n shares : ℕ) (d : Persistent) (log seen : List Entry)
        (served served' : List Served) (given given' : List ℕ) (hosted hosted' : Hosted) (ticked ticked' : ℕ) (waits waits' : List Waited)
        (was others devices : List A) (flags : Flags) (unrun : Bool) (point : ℕ) →
        let plant = actuators catalogue in
        H.In.tells → point < length plant → IsLegal plant log (opened plant d) →
        Account A.calls (λ device. A.tells × A.whole device) (terms_of catalogue gates keys workers H.In.tells H.Out.tells H.tells C.tells W.tells) W.tells n shares log seen
        served served' given given' hosted hosted' ticked ticked' waits waits' was others devices flags unrun →
        IsSettled (run plant log (opened plant d)) point →
        (device : A) × (slice_get devices (driver_of plant point) ≡ Some device)
        × (A.tells × A.whole device → last_call point (A.calls device) ≡ Some (taking_target plant (run plant log (opened plant d)) point)) }
    // over a keeper whose disk did not fail, by its state as it comes back
    ensures kept { (catalogue : Catalogue) (gates : List Gate) (keys : Option (List KeyEntry)) (workers n shares : ℕ) (d : Persistent) (start end : K)
        (served served' : List Served) (given given' : List ℕ) (hosted hosted' : Hosted) (ticked ticked' : ℕ) (waits waits' : List Waited)
        (was others devices : List A) (flags : Flags) (unrun : Bool) (point : ℕ) →
        let plant = actuators catalogue in
        H.In.tells → point < length plant → plant ≡ K.plant start → K.state start ≡ opened plant d →
        Ran K.Keeper A.calls (λ device. A.tells × A.whole device) (terms_of catalogue gates keys workers H.In.tells H.Out.tells H.tells C.tells W.tells) W.tells n shares start end
        served served' given given' hosted hosted' ticked ticked' waits waits' was others devices flags unrun →
        K.stopped end ≡ false → IsSettled (K.state end) point →
        (device : A) × (slice_get devices (driver_of plant point) ≡ Some device)
        × (A.tells × A.whole device → last_call point (A.calls device) ≡ Some (taking_target plant (K.state end) point)) }
{}

/// No line of a connection asks for a want or reports one, and no connection that watches does: where the inputs of connections tell
/// their bytes, wants are handed out and reported under session 0 alone.
pub fn no_connection_serves_a_device<H: Host, W: Waiter>()
    ensures { (catalogue : Catalogue) (gates : List Gate) (keys : Option (List KeyEntry)) (log : List Entry) (works : List Work) → H.In.tells →
        Agreed (actuators catalogue) (says catalogue gates keys H.In.tells H.Out.tells W.tells) log works → AllByRecursion IsApart (deeds log) }
{}
