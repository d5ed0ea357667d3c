ghost use Rattle.std.specs.Prelude.{◌≡◌, ◌≤◌, false, IfOk, IfErr};
ghost use Rattle.boss_model.specs.Limits.{answer_room};
ghost use Rattle.boss_model.specs.Catalogue.{actuators};
ghost use Rattle.boss_lock.specs.Places.{entries_at};
ghost use Rattle.def_history.specs.History.{run};
ghost use Rattle.def_connection.specs.Talks.{standing};
ghost use Rattle.def_connection.specs.Watching.{Watched, Watches};
ghost use Rattle.boss_watching.specs.Ends.{is_unanswered_end, ClockCause, DiskCause, HasCalled, IsCut, WriteCause};
ghost use Rattle.boss_watching.specs.Notes.{GoesOn, notes, sent};
ghost use Rattle.boss_watching.specs.Turns.{AddsTold, AddsTurn};

use crate::WatchEnd;
use crate::asking::ask;
use crate::telling::tell_notices;
use boss_model::{Buffer, Name, SessionId};
use boss_outside::Sink;
use boss_outside_server::Clock;
use boss_points::Catalogue;
use boss_shared::Desk;

/// How a turn went.
#[derive(Debug, Drop)]
pub struct Turn {
    /// The number to ask from next: at least 1.
    pub next: u64,
    /// Whether there was a notice.
    pub told: bool,
}

/// Takes one turn up to its pause: reads the clock, asks for notices, and tells them.
pub fn take_turn<G: Desk, K: Sink, C: Clock>(
    desk: &G,
    pass: &mut G::Pass,
    catalogue: &Catalogue,
    session: SessionId,
    name: &Name,
    from: u64,
    text: &mut Buffer,
    sink: &mut K,
    clock: &mut C,
) -> Result<Turn, WatchEnd>
    requires own { G.owns desk.now pass.old }
    requires plant { actuators catalogue.now ≡ G.plant desk.now }
    requires from { 1 ≤ from }
    requires room { answer_room ≤ text.old.capacity }
    ensures own { G.owns desk.now pass.new }
    ensures parts { G.parts pass.new ≡ G.parts pass.old }
    ensures held { G.held pass.new ≡ G.held pass.old }
    ensures room { text.new.capacity ≡ text.old.capacity }
    ensures watches { IfOk result (λ turn. Watches (notes catalogue.now) session name.now K.tells C.tells from turn.next
        (standing (entries_at (G.seen pass.old) (G.mine pass.old)) (K.taken sink.old) (K.faults sink.old) (C.given clock.old) false 0)
        (standing (entries_at (G.seen pass.new) (G.mine pass.new)) (K.taken sink.new) (K.faults sink.new) (C.given clock.new) false 0)) }
    ensures adds { IfOk result (λ turn. AddsTurn turn.told (entries_at (G.seen pass.old) (G.mine pass.old))
        (entries_at (G.seen pass.new) (G.mine pass.new))) }
    ensures goes_on { IfOk result (λ turn. GoesOn from turn.next turn.told
        (sent name.now (run (G.plant desk.now) (G.seen pass.old) (G.opening desk.now)))
        (sent name.now (run (G.plant desk.now) (G.seen pass.new) (G.opening desk.now)))) }
    ensures calm { IfOk result (λ turn. C.faults clock.new ≡ C.faults clock.old) }
    ensures watched { IfErr result (λ end. Watched (notes catalogue.now) session name.now K.tells C.tells (is_unanswered_end end) from
        (standing (entries_at (G.seen pass.old) (G.mine pass.old)) (K.taken sink.old) (K.faults sink.old) (C.given clock.old) false 0)
        (standing (entries_at (G.seen pass.new) (G.mine pass.new)) (K.taken sink.new) (K.faults sink.new) (C.given clock.new) false 0)) }
    ensures cut { IfErr result IsCut }
    ensures added { IfErr result (λ end. AddsTold (entries_at (G.seen pass.old) (G.mine pass.old)) (entries_at (G.seen pass.new) (G.mine pass.new))) }
    ensures called { IfErr result (HasCalled 0 (entries_at (G.seen pass.old) (G.mine pass.old)) (entries_at (G.seen pass.new) (G.mine pass.new))) }
    ensures clock_cause { IfErr result (ClockCause (C.faults clock.old) (C.faults clock.new)) }
    ensures write_cause { IfErr result (WriteCause (K.faults sink.old) (K.faults sink.new)) }
    ensures disk_cause { IfErr result (DiskCause (G.seen pass.new)) }
{
    let Ok(moment) = clock.now() else {
        return Err(WatchEnd::ClockFault);
    };
    let page = match ask(desk, pass, catalogue, session, name, from, moment) {
        Err(end) => return Err(end),
        Ok(page) => page,
    };
    let notices = page.list.slice();
    if tell_notices(catalogue, notices, text, sink).is_err() {
        return Err(WatchEnd::WriteFault);
    }
    Ok(Turn {
        next: page.next,
        told: !notices.is_empty(),
    })
}
