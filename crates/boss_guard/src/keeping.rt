ghost use Rattle.std.specs.Prelude.{◌≡◌, ℕ, List, ◌++◌, map, Some, nat_abs, slice_get};
ghost use Rattle.def_history.specs.declared.entry.Entry.{Entry};
ghost use Rattle.boss_model.specs.Catalogue.{Catalogue, Point};
ghost use Rattle.boss_model.specs.DeviceCall.{DeviceCall};
ghost use Rattle.def_guards.specs.Guards.{times_for};
ghost use Rattle.def_guards.specs.Spacing.{calls_cut, calls_in, KeepsTimes};
ghost use Rattle.def_lanes.specs.Works.{Course};
ghost use Rattle.boss_guard.specs.GuardDrives.{IsGuardOf, values_at};

use boss_outside_server::Waiter;

/// The device of a point keeps each value for the point's minimum time: the values that a guarded worker's calls give it are those
/// of the writes of the worker's turns, and each of these that ends a stretch of one value was decided that long after the first
/// write of the stretch, or where a reading of the point had just shown the new value under a lease of the levels 1 to 5.
pub fn a_guarded_device_keeps_its_value<W: Waiter>()
    ensures { (catalogue : Catalogue) (driver : ℕ) (calls : List DeviceCall) (pauses : ℕ) (course : Course) (entries : List Entry) (point : ℕ) (told : Point) →
        (made : IsGuardOf catalogue driver calls W.tells pauses course entries) → slice_get catalogue.points point ≡ Some told →
        (map (λ write. write.value) (calls_in point made.turns ++ calls_cut point made.last) ≡ values_at point calls)
        × KeepsTimes (times_for (nat_abs told.min_on) (nat_abs told.min_off)) (calls_in point made.turns ++ calls_cut point made.last) }
{}
