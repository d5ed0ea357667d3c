ghost use Rattle.std.specs.Prelude.{◌≡◌, ℕ, false, List, ◌++◌};
ghost use Rattle.def_history.specs.declared.entry.Entry.{Entry};
ghost use Rattle.def_lanes.specs.Lanes.{of_driver};
ghost use Rattle.def_lanes.specs.Parts.{Added};
ghost use Rattle.boss_lock.specs.Places.{entries_at};
ghost use Rattle.boss_model.specs.declared.state.Actuator.{Actuator};
ghost use Rattle.boss_model.specs.DeviceCall.{DeviceCall};
ghost use Rattle.boss_model.specs.State.{State};
ghost use Rattle.boss_shared.specs.Passes.{IsPassOf};
ghost use Rattle.boss_expiry.specs.declared.end.WorkEnd.{WorkEnd};
ghost use Rattle.boss_expiry.specs.Ends.{cut_of};
ghost use Rattle.boss_drive.specs.Drives.{IsDriveOf};
ghost use Rattle.boss_drive.specs.Driving.{Driven};

use boss_outside::Actuators;
use boss_outside_server::{Clock, Waiter};

/// What the worker of a driver added to the history is all in the driver's lane, as each want that it was given and each doubt is of
/// a point of its own: the entries of its turns, at moments that its clock gave. Its devices gained the calls of these turns. Its waiter has
/// not paused before.
pub fn a_drive_adds_to_its_lane<A: Actuators, C: Clock, W: Waiter>()
    ensures { (plant : List Actuator) (opening : State) (seen : List Entry) (mine : List ℕ) (driver : ℕ) (own : List Entry) (given given' : List ℕ)
        (devices devices' : A) (pauses pauses' most : ℕ) (end : WorkEnd) → IsPassOf plant opening seen mine →
        Driven plant driver C.tells A.tells
        (record { own = own; given = given; whole = A.whole devices; calls = A.calls devices })
        (record { own = entries_at seen mine; given = given'; whole = A.whole devices'; calls = A.calls devices' })
        W.tells pauses pauses' most end → (W.tells → pauses ≡ 0) →
        (calls : List DeviceCall) × (moments : List ℕ)
        × Added plant (of_driver driver) (IsDriveOf driver calls W.tells pauses' (record { moments = moments; cut = cut_of end; closed = false })) C.tells moments own (entries_at seen mine) given given'
        × (A.tells → A.whole devices' → A.whole devices × (A.calls devices' ≡ A.calls devices ++ calls)) }
{}
