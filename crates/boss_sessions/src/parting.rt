ghost use Rattle.std.specs.Prelude.{◌≡◌, ◌≤◌};
ghost use Rattle.boss_model.specs.Limits.{last_moment};
ghost use Rattle.def_history.specs.History.{is_broken};
ghost use Rattle.boss_lock.specs.Places.{entries_at};
ghost use Rattle.boss_sessions.specs.Holding.{LeavesOthers};
ghost use Rattle.boss_sessions.specs.Parting.{Parts};

use crate::SessionEnd;
use boss_model::{Command, SessionId};
use boss_shared::Desk;
use def_history::Outcome;

/// Tells that the session's process is lost, at a moment in milliseconds, and gives why the session ends then: as it had, where
/// this was done, and else by what came of it.
pub(crate) fn part<G: Desk>(
    desk: &G,
    pass: &mut G::Pass,
    session: SessionId,
    moment: u64,
    end: SessionEnd,
) -> SessionEnd
    requires own { G.owns desk.now pass.old }
    requires soon { moment ≤ last_moment }
    ensures own { G.owns desk.now pass.new }
    ensures parts { G.parts pass.new ≡ G.parts pass.old }
    ensures others { LeavesOthers (G.denies desk.now) session (G.held pass.old) (G.held pass.new) }
    ensures parted { Parts session moment (entries_at (G.seen pass.old) (G.mine pass.old)) (entries_at (G.seen pass.new) (G.mine pass.new))
        (is_broken (G.seen pass.old)) (is_broken (G.seen pass.new)) end result }
{
    match desk.call(pass, session, &Command::Gone, moment) {
        Outcome::Done { .. } => end,
        Outcome::Stopped => SessionEnd::Stopped,
        Outcome::DiskFault => SessionEnd::DiskFault,
        Outcome::NoMemory => unreachable!(),
        Outcome::Denied { .. } => unreachable!(),
    }
}
