ghost use Rattle.std.specs.Prelude.{◌≡◌, ℕ, ◌≤◌, false, length};
ghost use Rattle.std.specs.List.{AllByRecursion};
ghost use Rattle.boss_model.specs.Limits.{most_points};
ghost use Rattle.law_due.specs.Playing.{IsPlayable};
ghost use Rattle.boss_holdings.specs.Held.{is_touched};
ghost use Rattle.boss_persistent.specs.Lasting.{persistent_of};
ghost use Rattle.boss_engine.specs.Settling.{AreCurrent, settled_by};

use boss_marks::Marks;
use boss_model::Actuator;
use boss_persistent::{Lasting, target_of};

/// Compares the touched points' targets with their commanded values, and lets those that differ want their devices to be written.
/// The other points have their targets already. Then no point is touched.
#[inline(always)]
pub fn settle(plant: &[Actuator], lasting: &mut Lasting, marks: &mut Marks)
    requires number { length marks.old.proxies ≡ length plant.now }
    requires drivers { length marks.old.drivers ≡ length plant.now }
    requires points { length plant.now ≡ lasting.old.holdings.points }
    requires few { length plant.now ≤ most_points }
    requires pending { AllByRecursion IsPlayable (persistent_of lasting.old).pending }
    requires current { AreCurrent plant.now lasting.old.holdings marks.old.proxies }
    ensures marks { marks.new ≡ settled_by plant.now (persistent_of lasting.old) marks.old }
    ensures others { lasting.new ≡ record lasting.old { holdings = record lasting.old.holdings { touched = lasting.new.holdings.touched } } }
    ensures untouched { (point : ℕ) → is_touched lasting.new.holdings point ≡ false }
{
    if lasting.holdings.is_settled() {
        return;
    }
    settle_touched(plant, lasting, marks);
}

/// The same, point by point.
#[inline(never)]
fn settle_touched(plant: &[Actuator], lasting: &mut Lasting, marks: &mut Marks)
    requires number { length marks.old.proxies ≡ length plant.now }
    requires drivers { length marks.old.drivers ≡ length plant.now }
    requires points { length plant.now ≡ lasting.old.holdings.points }
    requires few { length plant.now ≤ most_points }
    requires pending { AllByRecursion IsPlayable (persistent_of lasting.old).pending }
    requires current { AreCurrent plant.now lasting.old.holdings marks.old.proxies }
    ensures marks { marks.new ≡ settled_by plant.now (persistent_of lasting.old) marks.old }
    ensures others { lasting.new ≡ record lasting.old { holdings = record lasting.old.holdings { touched = lasting.new.holdings.touched } } }
    ensures untouched { (point : ℕ) → is_touched lasting.new.holdings point ≡ false }
{
    while let Some(point) = lasting.holdings.take_touched() {
        marks.settle(point, target_of(plant, &lasting.holdings, point));
    }
}
