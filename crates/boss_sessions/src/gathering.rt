ghost use Rattle.std.specs.Prelude.{◌≡◌, ◌+◌, ◌≤◌, true, [], length, option_copied};
ghost use Rattle.std.specs.List.{AllByRecursion};
ghost use Rattle.boss_model.specs.Catalogue.{actuators};
ghost use Rattle.def_history.specs.History.{MayCall};
ghost use Rattle.boss_outside.specs.Notes.{NotesEach};
ghost use Rattle.boss_lines.specs.Lines.{is_at_hand};
ghost use Rattle.boss_sessions.specs.Gathered.{Gathered, HeardEnd, GoesOn};
ghost use Rattle.boss_sessions.specs.Places.{footing_of, place_of, IsOpen, IsReadAt, SourceCause};
ghost use Rattle.boss_sessions.specs.Requests.{ClockCause};
ghost use Rattle.boss_sessions.specs.Speaking.{manner_of};

use crate::next_line::next_line;
use crate::requests::take_request;
use crate::{Heard, Hearing};
use boss_keys::Keys;
use boss_model::{Command, MOST_HELD};
use boss_outside::Source;
use boss_outside_server::Clock;
use boss_points::Catalogue;
use boss_requests::{RequestReader, is_blank};
use std::alloc::Global;

/// Takes lines until `MOST_HELD` requests are held, or one at least and the next line would have to be read, or something else
/// came. A request is held with the moment of the clock, in milliseconds. Blank lines are passed over. With keys, whoever speaks has to
/// show one.
pub fn gather<S: Source, C: Clock>(
    alloc: Global,
    catalogue: &Catalogue,
    keys: Option<&Keys>,
    hearing: &mut Hearing,
    requests: &mut RequestReader,
    source: &mut S,
    clock: &mut C,
    commands: &mut Vec<(Command, u64)>,
) -> Heard
    requires ready { IsOpen S.tells (place_of hearing.old (S.left source.old)) }
    requires none { commands.old.items ≡ [] }
    ensures gathered { Gathered (manner_of catalogue.now (option_copied keys.entry)) S.tells C.tells (footing_of hearing.old) (footing_of hearing.new)
        commands.old.items commands.new.items (C.given clock.old) (C.given clock.new)
        (place_of hearing.old (S.left source.old)) (place_of hearing.new (S.left source.new)) result }
    ensures end { HeardEnd S.tells (place_of hearing.new (S.left source.new)) result }
    ensures may { AllByRecursion (MayCall (actuators catalogue.now)) commands.new.items }
    ensures few { length commands.new.items ≤ 16 }
    ensures goes_on { GoesOn hearing.old.lines hearing.new.lines result }
    ensures held { S.tells → S.held source.new ≡ S.held source.old }
    // It reads only as long as no line has come whole but blank ones.
    ensures reads { S.tells → NotesEach (IsReadAt (place_of hearing.old (S.left source.old)) (S.told source.old)) (S.reads source.old) (S.reads source.new) }
    ensures shown { S.told source.new ≡ S.told source.old }
    ensures read { SourceCause (S.faults source.old) (S.faults source.new) result }
    ensures clocked { ClockCause (C.faults clock.old) (C.faults clock.new) result }
{
    while commands.len() < MOST_HELD && (commands.is_empty() || hearing.reader.whole()) {
        match take_line(
            alloc, catalogue, keys, hearing, requests, source, clock, commands,
        ) {
            Heard::Requests => {}
            heard => return heard,
        }
    }
    Heard::Requests
}

/// Takes one line, or tells what comes in place of one.
fn take_line<S: Source, C: Clock>(
    alloc: Global,
    catalogue: &Catalogue,
    keys: Option<&Keys>,
    hearing: &mut Hearing,
    requests: &mut RequestReader,
    source: &mut S,
    clock: &mut C,
    commands: &mut Vec<(Command, u64)>,
) -> Heard
    requires ready { IsOpen S.tells (place_of hearing.old (S.left source.old)) }
    requires may { AllByRecursion (MayCall (actuators catalogue.now)) commands.old.items }
    ensures gathered { Gathered (manner_of catalogue.now (option_copied keys.entry)) S.tells C.tells (footing_of hearing.old) (footing_of hearing.new)
        commands.old.items commands.new.items (C.given clock.old) (C.given clock.new)
        (place_of hearing.old (S.left source.old)) (place_of hearing.new (S.left source.new)) result }
    ensures end { HeardEnd S.tells (place_of hearing.new (S.left source.new)) result }
    ensures may { AllByRecursion (MayCall (actuators catalogue.now)) commands.new.items }
    ensures one { length commands.new.items ≤ length commands.old.items + 1 }
    ensures goes_on { GoesOn hearing.old.lines hearing.new.lines result }
    ensures held { S.tells → S.held source.new ≡ S.held source.old }
    ensures reads { S.tells → NotesEach (IsReadAt (place_of hearing.old (S.left source.old)) (S.told source.old)) (S.reads source.old) (S.reads source.new) }
    ensures shown { S.told source.new ≡ S.told source.old }
    ensures at_hand { is_at_hand hearing.old.reader.stopped hearing.old.reader.ahead ≡ true → source.new ≡ source.old }
    ensures read { SourceCause (S.faults source.old) (S.faults source.new) result }
    ensures clocked { ClockCause (C.faults clock.old) (C.faults clock.new) result }
{
    if let Some(heard) = next_line(hearing, source) {
        return heard;
    }
    if is_blank(hearing.reader.line()) {
        return Heard::Requests;
    }
    let later = hearing.later;
    hearing.later = true;
    take_request(
        alloc,
        catalogue,
        keys,
        hearing.reader.line(),
        later,
        &mut hearing.known,
        requests,
        clock,
        commands,
    )
}
