// What is tried at a machine of tests.
ghost use Rattle.std.specs.Prelude.{◌≡◌, false, []};
ghost use Rattle.boss_model.specs.Catalogue.{actuators};
ghost use Rattle.boss_model.specs.Sound.{IsSound};

use crate::{FailingKeeper, Taken};
use boss_model::{Items, NoMemory};
use boss_points::Catalogue;
use boss_shared::{Desk, Manager};
use std::alloc::Global;
use std::sync::Wait;

/// What is tried at a desk.
pub trait Trial {
    /// What it tells of its calls.
    type Told: Drop;

    /// Makes the calls of the trial, at a desk over the points of a catalogue, which has no gates.
    fn run<G: Desk>(&mut self, catalogue: &Catalogue, desk: &G, pass: &mut G::Pass) -> Self::Told
        requires own { G.owns desk.now pass.old }
        requires plant { actuators catalogue.now ≡ G.plant desk.now }
        requires ungated { G.denies desk.now ≡ [] }
        ensures own { G.owns desk.now pass.new }
        ensures parts { G.parts pass.new ≡ G.parts pass.old };
}

/// Runs a trial at a manager of a keeper before anything was done, whose disk fails in the call after so many good ones, and of
/// which so many of the commands that may want memory find it before one finds none. Gives what the trial tells, and
/// the calls in which the disk did not fail.
pub fn run_trial<R: Wait + Sync + Drop, T: Trial>(
    rt: R,
    alloc: Global,
    catalogue: &Catalogue,
    good_calls: u64,
    fed: u64,
    trial: &mut T,
) -> Result<(T::Told, Items<Taken>), NoMemory> {
    match FailingKeeper::starving(alloc, catalogue, good_calls, fed) {
        Ok(keeper) => run_over(rt, alloc, catalogue, keeper, trial),
        Err(none) => Err(none),
    }
}

/// Runs a trial at a manager of this keeper.
fn run_over<R: Wait + Sync + Drop, T: Trial>(
    rt: R,
    alloc: Global,
    catalogue: &Catalogue,
    keeper: FailingKeeper,
    trial: &mut T,
) -> Result<(T::Told, Items<Taken>), NoMemory>
    requires running { keeper.stopped ≡ false }
    requires sound { IsSound keeper.unkept.engine.plant keeper.unkept.engine.state }
    requires plant { actuators catalogue.now ≡ keeper.unkept.engine.plant }
{
    match Manager::new(rt, alloc, keeper, 1) {
        Ok((manager, mut pass)) => {
            let told = trial.run(catalogue, &manager, &mut pass);
            Ok((told, manager.close(pass).into_taken()))
        }
        Err((_, none)) => Err(none),
    }
}
