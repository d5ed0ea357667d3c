ghost use Rattle.std.specs.Prelude.{◌≡◌, ◌≤◌, false, [], ◌∷◌, ◌++◌, IfOk, IfErr};
ghost use Rattle.boss_model.specs.Catalogue.{actuators, Catalogue};
ghost use Rattle.boss_model.specs.Machine.{step};
ghost use Rattle.boss_model.specs.State.{State};
ghost use Rattle.boss_model.specs.Tellable.{IsTellable};
ghost use Rattle.boss_lock.specs.Places.{entries_at};
ghost use Rattle.def_history.specs.declared.entry.Entry.TheVariants.{Did};
ghost use Rattle.def_history.specs.History.{MayCall};
ghost use Rattle.def_history.specs.Made.{is_growing};
ghost use Rattle.boss_expiry.specs.Ends.{IsCut};

use crate::WorkEnd;
use boss_model::{Answer, Command, SessionId};
use boss_shared::Desk;
use def_history::Outcome;

/// The session of the workers that serve no connection.
const WORKERS: SessionId = SessionId(0);

/// Has a command of a worker done at a moment, in milliseconds, and gives its answer, or tells how the disk ends the work. The
/// command has to be one that never wants memory.
pub fn work<G: Desk>(
    desk: &G,
    pass: &mut G::Pass,
    command: &Command,
    moment: u64,
) -> Result<Answer, WorkEnd>
    requires own { G.owns desk.now pass.old }
    requires may { MayCall (G.plant desk.now) (command.now, moment) }
    requires lean { is_growing command.now ≡ false }
    ensures own { G.owns desk.now pass.new }
    ensures parts { G.parts pass.new ≡ G.parts pass.old }
    ensures done { IfOk result (λ answer. entries_at (G.seen pass.new) (G.mine pass.new)
        ≡ entries_at (G.seen pass.old) (G.mine pass.old) ++ Did 0 command.now moment answer ∷ []) }
    ensures answer { IfOk result (λ answer. (s : State) × (answer ≡ (step (G.plant desk.now) 0 command.now moment s).answer)) }
    ensures told { IfOk result (λ answer. (catalogue : Catalogue) → actuators catalogue ≡ G.plant desk.now → IsTellable catalogue answer) }
    ensures cut { IfErr result (IsCut command.now moment (entries_at (G.seen pass.old) (G.mine pass.old))
        (entries_at (G.seen pass.new) (G.mine pass.new)) (G.seen pass.new)) }
{
    match desk.call(pass, WORKERS, command, moment) {
        Outcome::Done { answer } => Ok(answer),
        Outcome::Stopped => Err(WorkEnd::Stopped),
        Outcome::DiskFault => Err(WorkEnd::DiskFault),
        Outcome::NoMemory => unreachable!(),
        Outcome::Denied { .. } => unreachable!(),
    }
}
