ghost use Rattle.std.specs.Prelude.{◌≡◌, ◌≤◌, Bool, List, None, Some, option_copied, true};
ghost use Rattle.std.specs.List.{AllByRecursion};
ghost use Rattle.boss_model.specs.declared.state.Actuator.{Actuator};
ghost use Rattle.boss_model.specs.Catalogue.{actuators};
ghost use Rattle.boss_model.specs.Sound.{IsAllowed};
ghost use Rattle.def_connection.specs.Speech.{asks};
ghost use Rattle.def_history.specs.History.{MayCall};
ghost use Rattle.boss_sessions.specs.Requests.{after_heard, footing, known_behind, Holds, Hears, ClockCause};
ghost use Rattle.boss_sessions.specs.Speaking.{asked_in, form_of, is_other, is_other_by, manner_of, owned_by, reading_in};

use crate::Heard;
use boss_callers::{Shown, shown_by};
use boss_keys::Keys;
use boss_model::{Command, Name};
use boss_outside_server::Clock;
use boss_points::Catalogue;
use boss_requests::{Ask, Form, ReadRefusal, RequestReader, read_by};
use std::alloc::Global;

/// Holds the request that a line makes, or gives what else the line is. With keys, a name becomes known by the first line that is a
/// JSON object, which has to show its key.
pub(crate) fn take_request<C: Clock>(
    alloc: Global,
    catalogue: &Catalogue,
    keys: Option<&Keys>,
    line: &[u8],
    later: bool,
    known: &mut Option<Name>,
    requests: &mut RequestReader,
    clock: &mut C,
    commands: &mut Vec<(Command, u64)>,
) -> Heard
    requires may { AllByRecursion (MayCall (actuators catalogue.now)) commands.old.items }
    ensures hears { Hears (reading_in catalogue.now (option_copied keys.entry) (footing later known.old) line.now) C.tells later
        commands.old.items commands.new.items (C.given clock.old) (C.given clock.new) result }
    ensures stands { footing true known.new ≡ after_heard (manner_of catalogue.now (option_copied keys.entry)) (footing later known.old) line.now result }
    ensures may { AllByRecursion (MayCall (actuators catalogue.now)) commands.new.items }
    ensures cause { ClockCause (C.faults clock.old) (C.faults clock.new) result }
{
    match keys {
        None => take_owned(
            alloc, catalogue, None, line, later, requests, clock, commands,
        ),
        Some(keys) => take_guarded(
            alloc, catalogue, keys, line, later, known, requests, clock, commands,
        ),
    }
}

/// The same where there are keys.
fn take_guarded<C: Clock>(
    alloc: Global,
    catalogue: &Catalogue,
    keys: &Keys,
    line: &[u8],
    later: bool,
    known: &mut Option<Name>,
    requests: &mut RequestReader,
    clock: &mut C,
    commands: &mut Vec<(Command, u64)>,
) -> Heard
    requires may { AllByRecursion (MayCall (actuators catalogue.now)) commands.old.items }
    ensures hears { Hears (reading_in catalogue.now (Some keys.now) (footing later known.old) line.now) C.tells later
        commands.old.items commands.new.items (C.given clock.old) (C.given clock.new) result }
    ensures stands { footing true known.new ≡ after_heard (manner_of catalogue.now (Some keys.now)) (footing later known.old) line.now result }
    ensures may { AllByRecursion (MayCall (actuators catalogue.now)) commands.new.items }
    ensures cause { ClockCause (C.faults clock.old) (C.faults clock.new) result }
{
    match known {
        Some(name) => take_owned(
            alloc,
            catalogue,
            Some(name),
            line,
            later,
            requests,
            clock,
            commands,
        ),
        None => take_unknown(
            alloc, catalogue, keys, line, later, known, requests, clock, commands,
        ),
    }
}

/// The same where no name is known. A line for which there was no memory shows no key, whatever it has.
fn take_unknown<C: Clock>(
    alloc: Global,
    catalogue: &Catalogue,
    keys: &Keys,
    line: &[u8],
    later: bool,
    known: &mut Option<Name>,
    requests: &mut RequestReader,
    clock: &mut C,
    commands: &mut Vec<(Command, u64)>,
) -> Heard
    requires unknown { known.old ≡ None }
    requires may { AllByRecursion (MayCall (actuators catalogue.now)) commands.old.items }
    ensures hears { Hears (reading_in catalogue.now (Some keys.now) (footing later None) line.now) C.tells later
        commands.old.items commands.new.items (C.given clock.old) (C.given clock.new) result }
    ensures stands { footing true known.new ≡ after_heard (manner_of catalogue.now (Some keys.now)) (footing later None) line.now result }
    ensures may { AllByRecursion (MayCall (actuators catalogue.now)) commands.new.items }
    ensures cause { ClockCause (C.faults clock.old) (C.faults clock.new) result }
{
    match shown_by(alloc, keys, line) {
        Ok(Shown::NoObject) => take_owned(
            alloc, catalogue, None, line, later, requests, clock, commands,
        ),
        Ok(Shown::Key(name)) => {
            let heard = take_owned(
                alloc,
                catalogue,
                Some(&name),
                line,
                later,
                requests,
                clock,
                commands,
            );
            *known = known_behind(&heard, name);
            heard
        }
        Ok(Shown::WrongKey) => Heard::WrongKey,
        Err(_) => Heard::Unread,
    }
}

/// The name that is known behind a line that shows its key.
fn known_behind(heard: &Heard, name: Name) -> Option<Name>
    ensures { result ≡ known_behind heard.now name }
{
    match heard {
        Heard::Unread => None,
        _ => Some(name),
    }
}

/// Holds the request that a line makes, or gives what else the line is. An attach of another name than this one, if there is one, is
/// forbidden.
fn take_owned<C: Clock>(
    alloc: Global,
    catalogue: &Catalogue,
    own: Option<&Name>,
    line: &[u8],
    later: bool,
    requests: &mut RequestReader,
    clock: &mut C,
    commands: &mut Vec<(Command, u64)>,
) -> Heard
    requires may { AllByRecursion (MayCall (actuators catalogue.now)) commands.old.items }
    ensures hears { Hears (owned_by (option_copied own.entry) (asked_in catalogue.now later line.now)) C.tells later
        commands.old.items commands.new.items (C.given clock.old) (C.given clock.new) result }
    ensures may { AllByRecursion (MayCall (actuators catalogue.now)) commands.new.items }
    ensures cause { ClockCause (C.faults clock.old) (C.faults clock.new) result }
{
    match read_by(alloc, catalogue, line, form_of(later), requests) {
        Ok(request) => match request.ask {
            Ask::Command(command) => hold_owned(own, command, clock, commands),
            Ask::Watch { name, from } => Heard::Watch { name, from },
        },
        Err(ReadRefusal::Refused(why)) => Heard::Refused(why),
        Err(ReadRefusal::NoMemory) => Heard::Unread,
    }
}

/// The form of the first line, or of a later one.
fn form_of(later: bool) -> Form
    ensures { result ≡ form_of later }
{
    if later {
        Form::LaterLine
    } else {
        Form::FirstLine
    }
}

/// Holds a command, unless it attaches to another name than this one, if there is one.
fn hold_owned<C: Clock>(
    own: Option<&Name>,
    command: Command,
    clock: &mut C,
    commands: &mut Vec<(Command, u64)>,
) -> Heard
    ensures hears { (later : Bool) → Hears (owned_by (option_copied own.entry) (asks command)) C.tells later
        commands.old.items commands.new.items (C.given clock.old) (C.given clock.new) result }
    ensures may { (plant : List Actuator) → IsAllowed plant command → AllByRecursion (MayCall plant) commands.old.items →
        AllByRecursion (MayCall plant) commands.new.items }
    ensures cause { ClockCause (C.faults clock.old) (C.faults clock.new) result }
{
    if is_other_by(own, &command) {
        return Heard::WrongKey;
    }
    hold(command, clock, commands)
}

/// Whether a command attaches to another name than this one, if there is one.
fn is_other_by(own: Option<&Name>, command: &Command) -> bool
    ensures { result ≡ is_other_by (option_copied own.entry) command.now }
{
    match own {
        Some(name) => is_other(name, command),
        None => false,
    }
}

/// Whether a command attaches to another name than this one.
fn is_other(name: &Name, command: &Command) -> bool
    ensures { result ≡ is_other name.now command.now }
{
    match command {
        Command::Attach { name: other } => other.bytes() != name.bytes(),
        _ => false,
    }
}

/// Holds a command with the moment of the clock. Its room comes first, so that the clock is read for what is held alone.
fn hold<C: Clock>(command: Command, clock: &mut C, commands: &mut Vec<(Command, u64)>) -> Heard
    ensures holds { Holds C.tells command commands.old.items commands.new.items (C.given clock.old) (C.given clock.new) result }
    ensures cause { ClockCause (C.faults clock.old) (C.faults clock.new) result }
{
    if commands.reserve(1).is_err() {
        return Heard::Unread;
    }
    let Ok(moment) = clock.now() else {
        return Heard::Untimed;
    };
    commands.push_reserved((command, moment));
    Heard::Requests
}
