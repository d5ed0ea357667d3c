ghost use Rattle.std.specs.Prelude.{◌≡◌, false, None, Some, option_copied};
ghost use Rattle.boss_model.specs.Catalogue.{actuators};
ghost use Rattle.def_history.specs.History.{is_broken};
ghost use Rattle.boss_sessions.specs.Places.{footing_of, place_of, IsOpen};
ghost use Rattle.boss_sessions.specs.Speaking.{speech_of};
ghost use Rattle.boss_lock.specs.Places.{entries_at};
ghost use Rattle.def_connection.specs.Speech.{beginning};
ghost use Rattle.def_connection.specs.Talks.{standing};
ghost use Rattle.boss_sessions.specs.Connected.{Connected};
ghost use Rattle.boss_sessions.specs.Ends.{ReadCause, WriteCause, ClockCause, DiskCause};
ghost use Rattle.boss_sessions.specs.Parting.{FailsLast};
ghost use Rattle.boss_sessions.specs.Holding.{Holds, LeavesOthers, Named};
ghost use Rattle.boss_sessions.specs.Rounds.{named, EndedAnswered, HasRoom};

use crate::SessionEnd;
use crate::parting::part;
use crate::rounds::round;
use crate::session::Session;
use boss_keys::Keys;
use boss_model::SessionId;
use boss_outside::{Hears, Sink};
use boss_outside_server::Clock;
use boss_points::Catalogue;
use boss_shared::Desk;
use std::alloc::Global;

/// Serves a connection, up to its end, its first line that asks to watch, or whatever else ends it.
///
/// Each line that is not blank has one reply, in order: a request that of its command, which is done once, at the moment that the
/// clock gave for it; another line why it is refused; and one for which there was no memory is told so, and changes nothing. Exactly
/// an attach of a name that a gate of the desk does not admit, and a submit that a gate denies to the process that the session then
/// has, by the name of its last accepted attach, is told so, a submit with its first write that is denied and the rule; it is not
/// done, and the talk goes on.
/// Requests that have come together are done in one call. Nothing is read while a line waits for its reply: at each read every line
/// that had come whole, but blank ones, had its reply, and the sink had taken these.
/// With keys, the first line that is a JSON object has to show one, and behind it an attach of another name than the one whose key it
/// was is forbidden; whoever does otherwise is told so, and the talk stops. Before a key was shown a line that is no JSON object is told
/// to be malformed, and nothing else is told, held or done.
/// Where an attach was accepted, the last call tells that the process is lost, at the last moment that the clock gave, and where it is
/// not answered, its outcome is the end: Stopped where the disk had failed before it, also in a call of this session, and DiskFault
/// where it failed in it.
///
/// Of the lines that were taken few have no reply: the one that asks to watch; the one at which the clock failed; those behind the
/// reply that the disk has failed, which is the last and comes there alone; and where a write failed, requests that are held behind
/// one that was not done, and one line behind them. Where a read failed, a piece without a line end is no line. No line is taken
/// behind one that is too long or forbidden, which is told so, or behind the 2^32nd. The clock is read once for each request. Where there was no
/// memory to begin, nothing is read, done or told.
pub fn serve_connection<G: Desk, S: Hears<K>, K: Sink, C: Clock>(
    alloc: Global,
    desk: &G,
    pass: &mut G::Pass,
    catalogue: &Catalogue,
    keys: Option<&Keys>,
    session: SessionId,
    source: &mut S,
    sink: &mut K,
    clock: &mut C,
) -> SessionEnd
    requires own { G.owns desk.now pass.old }
    requires plant { actuators catalogue.now ≡ G.plant desk.now }
    requires unheld { Holds (G.denies desk.now) session None (G.held pass.old) }
    ensures own { G.owns desk.now pass.new }
    ensures parts { G.parts pass.new ≡ G.parts pass.old }
    ensures connected { Connected (speech_of catalogue.now (G.denies desk.now) (option_copied keys.entry)) session S.tells K.tells C.tells (S.left source.old) (S.left source.new)
        (S.reads source.old) (S.reads source.new)
        (standing (entries_at (G.seen pass.old) (G.mine pass.old)) (K.taken sink.old) (K.faults sink.old) (C.given clock.old) false 0)
        (standing (entries_at (G.seen pass.new) (G.mine pass.new)) (K.taken sink.new) (K.faults sink.new) (C.given clock.new) false 0)
        result }
    ensures others { LeavesOthers (G.denies desk.now) session (G.held pass.old) (G.held pass.new) }
    ensures held { S.tells → S.held source.new ≡ S.held source.old }
    ensures read { ReadCause (S.faults source.old) (S.faults source.new) (Some result) }
    ensures written { WriteCause (K.faults sink.old) (K.faults sink.new) (Some result) }
    ensures clocked { ClockCause (C.faults clock.old) (C.faults clock.new) (Some result) }
    ensures kept { DiskCause (is_broken (G.seen pass.old)) (is_broken (G.seen pass.new)) (Some result) }
    ensures last { FailsLast session (entries_at (G.seen pass.old) (G.mine pass.old)) (entries_at (G.seen pass.new) (G.mine pass.new)) result }
{
    let Ok(mut state) = Session::new(alloc) else {
        return SessionEnd::NoMemory;
    };
    let end = talk(
        alloc, catalogue, keys, desk, pass, session, &mut state, source, sink, clock,
    );
    if !state.attached {
        return end;
    }
    part(desk, pass, session, state.last, end)
}

/// Takes and answers lines until something ends the session.
fn talk<G: Desk, S: Hears<K>, K: Sink, C: Clock>(
    alloc: Global,
    catalogue: &Catalogue,
    keys: Option<&Keys>,
    desk: &G,
    pass: &mut G::Pass,
    number: SessionId,
    session: &mut Session,
    source: &mut S,
    sink: &mut K,
    clock: &mut C,
) -> SessionEnd
    requires own { G.owns desk.now pass.old }
    requires plant { actuators catalogue.now ≡ G.plant desk.now }
    requires ready { IsOpen S.tells (place_of session.old.hearing (S.left source.old)) }
    requires first { footing_of session.old.hearing ≡ beginning }
    requires room { HasRoom session.old }
    requires unheld { Holds (G.denies desk.now) number None (G.held pass.old) }
    ensures own { G.owns desk.now pass.new }
    ensures parts { G.parts pass.new ≡ G.parts pass.old }
    ensures room { HasRoom session.new }
    ensures ended { Named (G.denies desk.now) number (G.held pass.new) (λ name.
        EndedAnswered (speech_of catalogue.now (G.denies desk.now) (option_copied keys.entry)) number S.tells K.tells C.tells beginning
        (place_of session.old.hearing (S.left source.old)) (place_of session.new.hearing (S.left source.new))
        (standing (entries_at (G.seen pass.old) (G.mine pass.old)) (K.taken sink.old) (K.faults sink.old) (C.given clock.old) session.old.attached session.old.last)
        (named (standing (entries_at (G.seen pass.new) (G.mine pass.new)) (K.taken sink.new) (K.faults sink.new) (C.given clock.new) session.new.attached session.new.last) name)
        (S.reads source.old) (S.reads source.new) result) }
    ensures others { LeavesOthers (G.denies desk.now) number (G.held pass.old) (G.held pass.new) }
    ensures held { S.tells → S.held source.new ≡ S.held source.old }
    ensures read { ReadCause (S.faults source.old) (S.faults source.new) (Some result) }
    ensures written { WriteCause (K.faults sink.old) (K.faults sink.new) (Some result) }
    ensures clocked { ClockCause (C.faults clock.old) (C.faults clock.new) (Some result) }
    ensures kept { DiskCause (is_broken (G.seen pass.old)) (is_broken (G.seen pass.new)) (Some result) }
{
    loop {
        if let Some(end) = round(
            alloc, catalogue, keys, desk, pass, number, session, source, sink, clock,
        ) {
            return end;
        }
    }
}
