ghost use Rattle.std.specs.Prelude.{◌≡◌};
ghost use Rattle.std.specs.List.{list_all};
ghost use Rattle.boss_model.specs.Catalogue.{fits_at};
ghost use Rattle.boss_model.specs.Submit.{is_level, is_reversion, is_step};

use crate::command::Step;
use crate::limits::{LONGEST_HOLD, MOST_STEPS};
use crate::numbers::PointId;
use crate::state::Actuator;

/// Whether the number is a level of the priority array at which a control process may write: 1 to 16, but not 6, which is for
/// minimum on and off times (ASHRAE 135, clause 19.2).
pub fn is_level(priority: i64) -> bool
    ensures { result ≡ is_level priority }
{
    1 <= priority && priority <= 16 && priority != 6
}

/// Whether the point is there and takes the value.
pub fn fits_at(plant: &[Actuator], point: PointId, value: i64) -> bool
    ensures { result ≡ fits_at plant.now point value }
{
    match plant.get(point.0 as usize) {
        Some(actuator) => actuator.kind.fits(value),
        None => false,
    }
}

/// Whether the point can play these steps: at most 8, each with a value that it takes and held for 1 to 86,400,000 milliseconds.
pub fn is_reversion(plant: &[Actuator], point: PointId, steps: &[Step]) -> bool
    ensures { result ≡ is_reversion plant.now point steps.now }
{
    steps.len() <= MOST_STEPS && are_steps(plant, point, steps)
}

/// Whether the point can play each of these steps.
fn are_steps(plant: &[Actuator], point: PointId, steps: &[Step]) -> bool
    ensures { result ≡ list_all (is_step plant.now point) steps.now }
{
    steps.iter().all(|step| is_step(plant, point, step))
}

/// Whether the point can play this step.
fn is_step(plant: &[Actuator], point: PointId, step: &Step) -> bool
    ensures { result ≡ is_step plant.now point step.now }
{
    1 <= step.hold && step.hold <= LONGEST_HOLD && fits_at(plant, point, step.value)
}
