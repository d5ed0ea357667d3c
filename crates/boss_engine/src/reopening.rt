//! The points are opened: every device is to be told its target anew.

ghost use Rattle.std.specs.Prelude.{◌≡◌, length};
ghost use Rattle.std.specs.List.{AllByRecursion};
ghost use Rattle.boss_model.specs.Settle.{opened};
ghost use Rattle.law_due.specs.Playing.{IsPlayable};
ghost use Rattle.boss_engine.specs.Inside.{CanAct, HasPlaces, seen_state, state_of};
ghost use Rattle.boss_persistent.specs.Lasting.{persistent_of};
ghost use Rattle.boss_engine.specs.Settling.{opened_by};

use crate::machine::Machine;
use boss_marks::Marks;
use boss_model::{Actuator, PointId};
use boss_persistent::{Lasting, target_of};

impl Machine {
    /// Lets every point want its device to be written at its target, as if it had not been told anything yet. Nobody is attached
    /// any more.
    pub fn open_points(&mut self, plant: &[Actuator])
        requires { CanAct plant.now self.old }
        ensures state { state_of self.new ≡ opened plant.now (persistent_of self.old.lasting) }
        ensures places { HasPlaces plant.now self.new }
    {
        self.attached.clear();
        start_all(plant, &self.lasting, &mut self.marks);
    }

    /// Opens the points, unless they are open.
    pub fn open_unless(&mut self, is_open: bool, plant: &[Actuator])
        requires { CanAct plant.now self.old }
        ensures state { state_of self.new ≡ seen_state plant.now self.old is_open }
        ensures places { HasPlaces plant.now self.new }
    {
        if !is_open {
            self.open_points(plant);
        }
    }
}

/// Starts every point at its target.
fn start_all(plant: &[Actuator], lasting: &Lasting, marks: &mut Marks)
    requires number { length marks.old.drivers ≡ length plant.now }
    requires points { length plant.now ≡ lasting.now.holdings.points }
    requires pending { AllByRecursion IsPlayable (persistent_of lasting.now).pending }
    ensures { marks.new ≡ opened_by plant.now (persistent_of lasting.now) marks.old }
{
    for place in 0..marks.count() {
        let point = PointId(place as u32);
        marks.start(point, target_of(plant, &lasting.holdings, point));
    }
}
