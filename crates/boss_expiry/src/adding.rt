ghost use Rattle.std.specs.Prelude.{◌≡◌, ℕ, false, List};
ghost use Rattle.def_history.specs.declared.entry.Entry.{Entry};
ghost use Rattle.def_lanes.specs.Lanes.{of_time};
ghost use Rattle.def_lanes.specs.Parts.{Added};
ghost use Rattle.boss_model.specs.declared.state.Actuator.{Actuator};
ghost use Rattle.boss_expiry.specs.Beats.{IsBeatOf};
ghost use Rattle.boss_expiry.specs.Ends.{cut_of};
ghost use Rattle.boss_expiry.specs.declared.end.WorkEnd.{WorkEnd};
ghost use Rattle.boss_expiry.specs.Ticking.{Expired};

use boss_outside_server::{Clock, Waiter};

/// What the worker that lets time pass added to the history is all in the lane of time: a tick for each pause, at moments that
/// its clock gave. Its waiter has not paused before.
pub fn passing_time_adds_to_its_lane<C: Clock, W: Waiter>()
    ensures { (plant : List Actuator) (own own' : List Entry) (given given' : List ℕ) (pauses pauses' most : ℕ) (end : WorkEnd) →
        Expired own own' C.tells given given' W.tells pauses pauses' most end → (W.tells → pauses ≡ 0) →
        (moments : List ℕ) × Added plant of_time (IsBeatOf W.tells pauses' (record { moments = moments; cut = cut_of end; closed = false })) C.tells moments own own' given given' }
{}
