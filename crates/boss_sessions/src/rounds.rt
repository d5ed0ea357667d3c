ghost use Rattle.std.specs.Prelude.{◌≡◌, ◌<◌, ◌≤◌, [], length, map, option_copied, IfNone};
ghost use Rattle.std.specs.List.{AllByRecursion};
ghost use Rattle.boss_model.specs.Catalogue.{actuators};
ghost use Rattle.def_history.specs.History.{is_broken, MayCall};
ghost use Rattle.boss_outside.specs.Notes.{NotesEach};
ghost use Rattle.boss_sessions.specs.Gathered.{Gathered, HeardEnd, GoesOn};
ghost use Rattle.boss_sessions.specs.Places.{footing_of, place_of, IsOpen, IsReadAt, SourceCause};
ghost use Rattle.boss_sessions.specs.Requests.{ClockCause as ClockFails};
ghost use Rattle.boss_sessions.specs.Speaking.{manner_of, speech_of};
ghost use Rattle.boss_lock.specs.Places.{entries_at};
ghost use Rattle.def_connection.specs.Speech.{last_or};
ghost use Rattle.def_connection.specs.Talks.{standing};
ghost use Rattle.boss_sessions.specs.Ends.{ReadCause, WriteCause, ClockCause, DiskCause};
ghost use Rattle.boss_sessions.specs.Holding.{ByName, LeavesOthers};
ghost use Rattle.boss_sessions.specs.Rounds.{named, HasRoom, Rounded};

use crate::behind::{end_at, end_behind, tell_behind};
use crate::gathering::gather;
use crate::session::Session;
use crate::turns::answer_all;
use crate::{Heard, Hearing, SessionEnd};
use boss_keys::Keys;
use boss_model::{Command, SessionId};
use boss_outside::{Hears, Sink};
use boss_outside_server::Clock;
use boss_points::Catalogue;
use boss_requests::RequestReader;
use boss_shared::Desk;
use std::alloc::Global;

/// Takes what has come of the requests, has them done and answers them, and answers what came behind them. Gives why the session
/// ends, if it does.
pub(crate) fn round<G: Desk, S: Hears<K>, K: Sink, C: Clock>(
    alloc: Global,
    catalogue: &Catalogue,
    keys: Option<&Keys>,
    desk: &G,
    pass: &mut G::Pass,
    number: SessionId,
    session: &mut Session,
    source: &mut S,
    sink: &mut K,
    clock: &mut C,
) -> Option<SessionEnd>
    requires own { G.owns desk.now pass.old }
    requires plant { actuators catalogue.now ≡ G.plant desk.now }
    requires ready { IsOpen S.tells (place_of session.old.hearing (S.left source.old)) }
    requires room { HasRoom session.old }
    ensures own { G.owns desk.now pass.new }
    ensures parts { G.parts pass.new ≡ G.parts pass.old }
    ensures room { HasRoom session.new }
    ensures rounded { ByName (G.denies desk.now) number (G.held pass.old) (G.held pass.new) (λ name name'.
        Rounded (speech_of catalogue.now (G.denies desk.now) (option_copied keys.entry)) number S.tells K.tells C.tells
        (footing_of session.old.hearing) (footing_of session.new.hearing)
        (place_of session.old.hearing (S.left source.old)) (place_of session.new.hearing (S.left source.new))
        (named (standing (entries_at (G.seen pass.old) (G.mine pass.old)) (K.taken sink.old) (K.faults sink.old) (C.given clock.old) session.old.attached session.old.last) name)
        (named (standing (entries_at (G.seen pass.new) (G.mine pass.new)) (K.taken sink.new) (K.faults sink.new) (C.given clock.new) session.new.attached session.new.last) name')
        result) }
    ensures others { LeavesOthers (G.denies desk.now) number (G.held pass.old) (G.held pass.new) }
    ensures goes_on { IfNone result (session.new.hearing.lines < session.old.hearing.lines) }
    ensures held { S.tells → S.held source.new ≡ S.held source.old }
    ensures reads { S.tells → K.tells → NotesEach (IsReadAt (place_of session.old.hearing (S.left source.old)) (length (K.taken sink.old))) (S.reads source.old) (S.reads source.new) }
    ensures read { ReadCause (S.faults source.old) (S.faults source.new) result }
    ensures written { WriteCause (K.faults sink.old) (K.faults sink.new) result }
    ensures clocked { ClockCause (C.faults clock.old) (C.faults clock.new) result }
    ensures kept { DiskCause (is_broken (G.seen pass.old)) (is_broken (G.seen pass.new)) result }
{
    let mut commands = Vec::new(alloc);
    let heard = hear(
        alloc,
        catalogue,
        keys,
        &mut session.hearing,
        &mut session.requests,
        source,
        sink,
        clock,
        &mut commands,
    );
    session.last = last_moment(commands.as_slice(), session.last);
    let answered = answer_all(
        catalogue,
        desk,
        pass,
        number,
        commands,
        &mut session.answers,
        &mut session.attached,
        &mut session.text,
        sink,
    );
    match answered {
        Err(halt) => Some(end_at(halt, &heard)),
        Ok(()) => {
            let told = tell_behind(&heard, &mut session.text, sink);
            end_behind(heard, told)
        }
    }
}

/// Takes what has come of the requests. The source is shown before what the sink has taken: whatever is read is read when all that was
/// heard before is answered.
fn hear<S: Hears<K>, K: Sink, C: Clock>(
    alloc: Global,
    catalogue: &Catalogue,
    keys: Option<&Keys>,
    hearing: &mut Hearing,
    requests: &mut RequestReader,
    source: &mut S,
    sink: &K,
    clock: &mut C,
    commands: &mut Vec<(Command, u64)>,
) -> Heard
    requires ready { IsOpen S.tells (place_of hearing.old (S.left source.old)) }
    requires none { commands.old.items ≡ [] }
    ensures gathered { Gathered (manner_of catalogue.now (option_copied keys.entry)) S.tells C.tells (footing_of hearing.old) (footing_of hearing.new)
        commands.old.items commands.new.items (C.given clock.old) (C.given clock.new)
        (place_of hearing.old (S.left source.old)) (place_of hearing.new (S.left source.new)) result }
    ensures end { HeardEnd S.tells (place_of hearing.new (S.left source.new)) result }
    ensures may { AllByRecursion (MayCall (actuators catalogue.now)) commands.new.items }
    ensures few { length commands.new.items ≤ 16 }
    ensures goes_on { GoesOn hearing.old.lines hearing.new.lines result }
    ensures held { S.tells → S.held source.new ≡ S.held source.old }
    ensures reads { S.tells → K.tells → NotesEach (IsReadAt (place_of hearing.old (S.left source.old)) (length (K.taken sink.now))) (S.reads source.old) (S.reads source.new) }
    ensures read { SourceCause (S.faults source.old) (S.faults source.new) result }
    ensures clocked { ClockFails (C.faults clock.old) (C.faults clock.new) result }
{
    source.show(sink);
    gather(
        alloc, catalogue, keys, hearing, requests, source, clock, commands,
    )
}

/// The moment of the last command, or this one where there is none.
fn last_moment(commands: &[(Command, u64)], last: u64) -> u64
    ensures { result ≡ last_or last (map (λ call. call.1) commands.now) }
{
    match commands.last() {
        Some(call) => call.1,
        None => last,
    }
}
