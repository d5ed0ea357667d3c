ghost use Rattle.std.specs.Prelude.{◌≡◌, ◌≤◌, ℕ, [], ◌∷◌, ◌++◌, Some, IfOk, IfErr};
ghost use Rattle.std.specs.List.{AllByRecursion};
ghost use Rattle.boss_model.specs.declared.answer.Answer.TheVariants.{Notices as NoticesAnswer};
ghost use Rattle.boss_model.specs.declared.command.Command.TheVariants.{Notices};
ghost use Rattle.boss_model.specs.Catalogue.{actuators};
ghost use Rattle.boss_model.specs.Limits.{last_moment};
ghost use Rattle.boss_model.specs.Tellable.{IsTellableNotice};
ghost use Rattle.boss_lock.specs.Places.{entries_at};
ghost use Rattle.def_history.specs.declared.entry.Entry.TheVariants.{Did};
ghost use Rattle.def_history.specs.History.{deeds, run};
ghost use Rattle.boss_watching.specs.Ends.{DiskCause, IsCall};
ghost use Rattle.def_connection.specs.Watching.{is_some_list};
ghost use Rattle.boss_watching.specs.Notes.{GoesOn, sent};

use crate::WatchEnd;
use boss_model::{Answer, Command, Items, MOST_TOLD, Name, Notice, SessionId};
use boss_points::Catalogue;
use boss_shared::Desk;
use def_history::Outcome;

/// Notices of a process, and the number to ask from next.
#[derive(Debug, Drop)]
pub struct Page {
    pub next: u64,
    pub list: Items<Notice>,
}

/// At most 64 notices of a process, from a number on, as they are at a moment, in milliseconds.
#[tactic(auto, using(boss_shared::proofs::HeldLemmas::notices_hold))]
pub fn ask<G: Desk>(
    desk: &G,
    pass: &mut G::Pass,
    catalogue: &Catalogue,
    session: SessionId,
    name: &Name,
    from: u64,
    moment: u64,
) -> Result<Page, WatchEnd>
    requires own { G.owns desk.now pass.old }
    requires plant { actuators catalogue.now ≡ G.plant desk.now }
    requires from { 1 ≤ from }
    requires soon { moment ≤ last_moment }
    ensures own { G.owns desk.now pass.new }
    ensures parts { G.parts pass.new ≡ G.parts pass.old }
    ensures held { G.held pass.new ≡ G.held pass.old }
    ensures done { IfOk result (λ page. (first : ℕ) × (deeds (entries_at (G.seen pass.new) (G.mine pass.new))
        ≡ deeds (entries_at (G.seen pass.old) (G.mine pass.old))
        ++ Did session (Notices (Some name.now) from 64) moment (NoticesAnswer first page.next page.list) ∷ [])) }
    ensures goes_on { IfOk result (λ page. GoesOn from page.next (is_some_list page.list)
        (sent name.now (run (G.plant desk.now) (G.seen pass.old) (G.opening desk.now)))
        (sent name.now (run (G.plant desk.now) (G.seen pass.new) (G.opening desk.now)))) }
    ensures tellable { IfOk result (λ page. AllByRecursion (IsTellableNotice catalogue.now) page.list) }
    ensures call { IfErr result IsCall }
    ensures cut { IfErr result (λ end. deeds (entries_at (G.seen pass.new) (G.mine pass.new))
        ≡ deeds (entries_at (G.seen pass.old) (G.mine pass.old))) }
    ensures cause { IfErr result (DiskCause (G.seen pass.new)) }
{
    let command = Command::Notices {
        name: Some(name.copied()),
        from,
        max: MOST_TOLD,
    };
    match desk.call(pass, session, &command, moment) {
        Outcome::Done { answer } => match answer {
            Answer::Notices { next, list, .. } => Ok(Page { next, list }),
            _ => unreachable!(),
        },
        Outcome::Stopped => Err(WatchEnd::Stopped),
        Outcome::DiskFault => Err(WatchEnd::DiskFault),
        Outcome::NoMemory => Err(WatchEnd::NoMemory),
        Outcome::Denied { .. } => unreachable!(),
    }
}
