ghost use Rattle.std.specs.Prelude.{◌≡◌, ℕ, false, List, ◌++◌};
ghost use Rattle.def_history.specs.declared.entry.Entry.{Entry};
ghost use Rattle.def_lanes.specs.Lanes.{of_driver};
ghost use Rattle.def_lanes.specs.Parts.{Added};
ghost use Rattle.boss_lock.specs.Places.{entries_at};
ghost use Rattle.boss_model.specs.Catalogue.{actuators, Catalogue};
ghost use Rattle.boss_model.specs.DeviceCall.{DeviceCall};
ghost use Rattle.boss_model.specs.State.{State};
ghost use Rattle.boss_shared.specs.Passes.{IsPassOf};
ghost use Rattle.def_guards.specs.Guards.{guards_of};
ghost use Rattle.boss_guard.specs.declared.end.GuardEnd.{GuardEnd};
ghost use Rattle.boss_guard.specs.GuardDrives.{IsGuardOf};
ghost use Rattle.boss_guard.specs.Guarding.{cut_of_guard, Guarded};

use boss_outside::Actuators;
use boss_outside_server::{Clock, Waiter};

/// What the guarded worker of a driver added to the history is all in the driver's lane, as each want that it was given or held and each
/// doubt is of a point of its own: the entries of its turns, at moments that its clock gave. Its devices gained the calls of these turns.
/// Its waiter has not paused before.
pub fn a_guarded_drive_adds_to_its_lane<A: Actuators, C: Clock, W: Waiter>()
    ensures { (catalogue : Catalogue) (opening : State) (seen : List Entry) (mine : List ℕ) (driver : ℕ) (own : List Entry) (given given' : List ℕ)
        (devices devices' : A) (pauses pauses' most : ℕ) (end : GuardEnd) → IsPassOf (actuators catalogue) opening seen mine →
        Guarded (actuators catalogue) driver (guards_of catalogue) C.tells A.tells
        (record { own = own; given = given; whole = A.whole devices; calls = A.calls devices })
        (record { own = entries_at seen mine; given = given'; whole = A.whole devices'; calls = A.calls devices' })
        W.tells pauses pauses' most end → (W.tells → pauses ≡ 0) →
        (calls : List DeviceCall) × (moments : List ℕ)
        × Added (actuators catalogue) (of_driver driver) (IsGuardOf catalogue driver calls W.tells pauses' (record { moments = moments; cut = cut_of_guard end; closed = false })) C.tells moments own (entries_at seen mine) given given'
        × (A.tells → A.whole devices' → A.whole devices × (A.calls devices' ≡ A.calls devices ++ calls)) }
{}
