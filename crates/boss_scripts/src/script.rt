ghost use Rattle.std.specs.Prelude.{◌≡◌, ◌≤◌, ◌++◌, false, length, OnOk, OnErr, IfOk, vec_len, None};
ghost use Rattle.boss_model.specs.Catalogue.{actuators};
ghost use Rattle.boss_model.specs.Limits.{answer_room, last_moment, longest_line};
ghost use Rattle.boss_model.specs.Sound.{IsAllowed, IsSound};
ghost use Rattle.def_wire.specs.Script.{answered};
ghost use Rattle.boss_scripts.specs.Causes.{ReadCause, WriteCause};
ghost use Rattle.boss_scripts.specs.Devices.{HasDevices};
ghost use Rattle.boss_scripts.specs.Ends.{BrokeLines, CarriesOut, LeavesOff, TookLines};
ghost use Rattle.boss_scripts.specs.Keepers.{BrokeOff, Went};
ghost use Rattle.boss_scripts.specs.Outside.{outside, trace};
ghost use Rattle.boss_scripts.specs.Runs.{line_taken, stop};

use crate::broken::Broken;
use crate::draining::drain;
use boss_answers::{tell_answer, tell_refusal, tell_stopped, tell_too_long};
use boss_lines::{Lines, Next};
use boss_model::{ANSWER_ROOM, Buffer, Command, MOST_LINES, SessionId};
use boss_outside::{Actuators, Hears, Sink, Source};
use boss_points::Catalogue;
use boss_requests::{Ask, Form, ReadRefusal, RequestReader, is_blank, read_by};
use boss_shared::Keeper;
use def_history::Outcome;
use std::alloc::Global;

/// Runs a script over a keeper whose disk has not failed: the wants of the beginning are served at moment 0, and then each line
/// of the source is answered, and the wants that it leaves are served, before the next is read. It says what stopped it, which
/// is a line where there are more than a script may have.
///
/// Where the disk fails in a command, the line that asked for it is told `stopped`, and so is every later one that is not blank
/// and not too long. No device is called any more, and the lines are read on.
pub fn run_script<V: Keeper, S: Hears<K>, K: Sink, A: Actuators>(
    alloc: Global,
    catalogue: &Catalogue,
    keeper: &mut V,
    source: &mut S,
    sink: &mut K,
    devices: &mut Vec<A>,
) -> Result<Next, Broken>
    requires plant { V.plant keeper.old ≡ actuators catalogue.now }
    requires running { V.stopped keeper.old ≡ false }
    requires sound { IsSound (V.plant keeper.old) (V.state keeper.old) }
    requires devices { HasDevices (vec_len devices.old) (actuators catalogue.now) }

    ensures under { V.under keeper.new ≡ V.under keeper.old }
    ensures ran { IfOk result (λ end. CarriesOut ⟦<V as Keeper>⟧ catalogue.now keeper.old keeper.new
        (outside ⟦<S as Source>⟧ ⟦<K as Sink>⟧ ⟦<A as Actuators>⟧ source.old sink.old devices.old.items)
        (outside ⟦<S as Source>⟧ ⟦<K as Sink>⟧ ⟦<A as Actuators>⟧ source.new sink.new devices.new.items) end) }
    ensures broke { OnErr result (LeavesOff ⟦<V as Keeper>⟧ catalogue.now keeper.old keeper.new
        (outside ⟦<S as Source>⟧ ⟦<K as Sink>⟧ ⟦<A as Actuators>⟧ source.old sink.old devices.old.items)
        (outside ⟦<S as Source>⟧ ⟦<K as Sink>⟧ ⟦<A as Actuators>⟧ source.new sink.new devices.new.items)) }
    ensures write { WriteCause (K.faults sink.old) (K.faults sink.new) result }
    ensures read { ReadCause (S.faults source.old) (S.faults source.new) result }
{
    let mut reader = Lines::new(alloc)?;
    let mut requests = RequestReader::new(alloc);
    let mut text = Buffer::new(alloc, ANSWER_ROOM)?;
    drain(catalogue, keeper, 0, &mut text, sink, devices)?;
    let end = take_lines(
        alloc,
        catalogue,
        keeper,
        &mut reader,
        &mut requests,
        &mut text,
        source,
        sink,
        devices,
    )?;
    match end {
        Next::TooLong => {
            tell_too_long(sink)?;
            Ok(Next::TooLong)
        }
        end => Ok(end),
    }
}

/// Takes the lines of a source, one after another, and says what came behind them. Before each read the source is shown what the sink
/// has taken: whatever is read is read when all that came whole before has its answer.
fn take_lines<V: Keeper, S: Hears<K>, K: Sink, A: Actuators>(
    alloc: Global,
    catalogue: &Catalogue,
    keeper: &mut V,
    reader: &mut Lines,
    requests: &mut RequestReader,
    text: &mut Buffer,
    source: &mut S,
    sink: &mut K,
    devices: &mut Vec<A>,
) -> Result<Next, Broken>
    requires plant { V.plant keeper.old ≡ actuators catalogue.now }
    requires sound { V.stopped keeper.old ≡ false → IsSound (V.plant keeper.old) (V.state keeper.old) }
    requires fresh { reader.old.stopped ≡ None }
    requires room { answer_room ≤ text.old.capacity }
    requires devices { HasDevices (vec_len devices.old) (actuators catalogue.now) }

    ensures under { V.under keeper.new ≡ V.under keeper.old }
    ensures took { IfOk result (λ end. TookLines ⟦<V as Keeper>⟧ catalogue.now keeper.old keeper.new
        S.tells (reader.old.ahead ++ S.left source.old) (S.left source.new) (S.reads source.old) (S.reads source.new) K.tells
        (trace ⟦<K as Sink>⟧ ⟦<A as Actuators>⟧ sink.old devices.old.items)
        (trace ⟦<K as Sink>⟧ ⟦<A as Actuators>⟧ sink.new devices.new.items) end) }
    ensures broke { OnErr result (BrokeLines ⟦<V as Keeper>⟧ catalogue.now keeper.old keeper.new
        S.tells (reader.old.ahead ++ S.left source.old) (S.reads source.old) (S.reads source.new) K.tells
        (trace ⟦<K as Sink>⟧ ⟦<A as Actuators>⟧ sink.old devices.old.items)
        (trace ⟦<K as Sink>⟧ ⟦<A as Actuators>⟧ sink.new devices.new.items)) }
    ensures write { WriteCause (K.faults sink.old) (K.faults sink.new) result }
    ensures read { ReadCause (S.faults source.old) (S.faults source.new) result }
{
    source.show(sink);
    for _ in 0..MOST_LINES {
        match reader.next(source) {
            Next::Line => {
                take_line(
                    alloc,
                    catalogue,
                    keeper,
                    reader.line(),
                    requests,
                    text,
                    sink,
                    devices,
                )?;
                source.show(sink);
            }
            end => return Ok(end),
        }
    }
    Ok(reader.next(source))
}

/// Answers a line, and serves the wants that it leaves. A blank line is passed over. Once the disk has failed any other is
/// told so.
fn take_line<V: Keeper, K: Sink, A: Actuators>(
    alloc: Global,
    catalogue: &Catalogue,
    keeper: &mut V,
    line: &[u8],
    requests: &mut RequestReader,
    text: &mut Buffer,
    sink: &mut K,
    devices: &mut Vec<A>,
) -> Result<(), Broken>
    requires plant { V.plant keeper.old ≡ actuators catalogue.now }
    requires sound { V.stopped keeper.old ≡ false → IsSound (V.plant keeper.old) (V.state keeper.old) }
    requires line { length line.now ≤ longest_line }
    requires room { answer_room ≤ text.old.capacity }
    requires devices { HasDevices (vec_len devices.old) (actuators catalogue.now) }

    ensures under { V.under keeper.new ≡ V.under keeper.old }
    ensures room { text.new.capacity ≡ text.old.capacity }
    ensures len { vec_len devices.new ≡ vec_len devices.old }
    ensures write { WriteCause (K.faults sink.old) (K.faults sink.new) result }
    ensures did { OnOk result (Went ⟦<V as Keeper>⟧ (actuators catalogue.now) (line_taken catalogue.now line.now) stop
        keeper.old keeper.new K.tells
        (trace ⟦<K as Sink>⟧ ⟦<A as Actuators>⟧ sink.old devices.old.items)
        (trace ⟦<K as Sink>⟧ ⟦<A as Actuators>⟧ sink.new devices.new.items)) }
    ensures broke { OnErr result (BrokeOff ⟦<V as Keeper>⟧ (actuators catalogue.now) (line_taken catalogue.now line.now)
        keeper.old keeper.new K.tells
        (trace ⟦<K as Sink>⟧ ⟦<A as Actuators>⟧ sink.old devices.old.items)
        (trace ⟦<K as Sink>⟧ ⟦<A as Actuators>⟧ sink.new devices.new.items)) }
{
    if is_blank(line) {
        return Ok(());
    }
    if keeper.has_stopped() {
        tell_stopped(sink)?;
        return Ok(());
    }
    let read = read_by(alloc, catalogue, line, Form::Script, requests);
    match &read {
        Ok(request) => match &request.ask {
            Ask::Command(command) => answer(
                catalogue, keeper, request.on, command, request.at, text, sink, devices,
            ),
            Ask::Watch { .. } => unreachable!(),
        },
        Err(ReadRefusal::Refused(refusal)) => {
            tell_refusal(refusal, text, sink)?;
            Ok(())
        }
        Err(ReadRefusal::NoMemory) => Err(Broken::NoMemory),
    }
}

/// Has a command done, tells the answer, and serves the wants that are left then. Where the disk fails that is told in its
/// place.
fn answer<V: Keeper, K: Sink, A: Actuators>(
    catalogue: &Catalogue,
    keeper: &mut V,
    session: SessionId,
    command: &Command,
    moment: u64,
    text: &mut Buffer,
    sink: &mut K,
    devices: &mut Vec<A>,
) -> Result<(), Broken>
    requires moment { moment ≤ last_moment }
    requires allowed { IsAllowed (actuators catalogue.now) command.now }
    requires plant { V.plant keeper.old ≡ actuators catalogue.now }
    requires running { V.stopped keeper.old ≡ false }
    requires sound { IsSound (V.plant keeper.old) (V.state keeper.old) }
    requires room { answer_room ≤ text.old.capacity }
    requires devices { HasDevices (vec_len devices.old) (actuators catalogue.now) }

    ensures under { V.under keeper.new ≡ V.under keeper.old }
    ensures room { text.new.capacity ≡ text.old.capacity }
    ensures len { vec_len devices.new ≡ vec_len devices.old }
    ensures write { WriteCause (K.faults sink.old) (K.faults sink.new) result }
    ensures did { OnOk result (Went ⟦<V as Keeper>⟧ (actuators catalogue.now) (answered catalogue.now session command.now moment) stop
        keeper.old keeper.new K.tells
        (trace ⟦<K as Sink>⟧ ⟦<A as Actuators>⟧ sink.old devices.old.items)
        (trace ⟦<K as Sink>⟧ ⟦<A as Actuators>⟧ sink.new devices.new.items)) }
    ensures broke { OnErr result (BrokeOff ⟦<V as Keeper>⟧ (actuators catalogue.now) (answered catalogue.now session command.now moment)
        keeper.old keeper.new K.tells
        (trace ⟦<K as Sink>⟧ ⟦<A as Actuators>⟧ sink.old devices.old.items)
        (trace ⟦<K as Sink>⟧ ⟦<A as Actuators>⟧ sink.new devices.new.items)) }
{
    let outcome = keeper.apply(session, command, moment);
    match &outcome {
        Outcome::Done { answer } => {
            tell_answer(catalogue, answer, text, sink)?;
            drain(catalogue, keeper, moment, text, sink, devices)?;
            Ok(())
        }
        Outcome::DiskFault => {
            tell_stopped(sink)?;
            Ok(())
        }
        Outcome::Stopped | Outcome::Denied { .. } => unreachable!(),
        Outcome::NoMemory => Err(Broken::NoMemory),
    }
}
