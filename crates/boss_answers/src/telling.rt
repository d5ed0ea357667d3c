//! Lines that are told to a sink: of an answer, of a write to a device, and of what came to neither.

ghost use Rattle.std.specs.Prelude.{◌≡◌, ◌≤◌, ◌<◌, length};
ghost use Rattle.boss_model.specs.Tellable.{IsTellable};
ghost use Rattle.def_wire.specs.Texts.{answer_text, device_text, line_of, memory_text, refusal_text, stopped_text, too_long_text};
ghost use Rattle.boss_outside.specs.Counts.{HasCause};
ghost use Rattle.boss_outside.specs.Streams.{Writes};
ghost use Rattle.boss_answers.specs.Refused.{help_text, usage_line, version_line};

use crate::lines::{memory_line, put_answer_line, stopped_line};
use crate::refusal::write_refusal;
use crate::write_device;
use boss_model::{Answer, Buffer, PointId, Refusal};
use boss_outside::{Failed, Sink};
use boss_points::Catalogue;

/// The jobs, one a line, and what their words are.
const HELP: &str =
    "script CATALOGUE JOURNAL: answer commands that come line by line on the standard input\n\
    serve CATALOGUE JOURNAL ADDRESS WORKERS CONNECTIONS [RULES [PLAN [KEYS]]]: serve control programs over TCP\n\
    check CATALOGUE JOURNAL: tell what a journal stands for, and write nothing\n\
    adopt OLD NEW JOURNAL: take a journal over under a changed catalogue\n\
    shift CATALOGUE JOURNAL BY: take all moments of a journal back by so many milliseconds\n\
    feed CATALOGUE JOURNAL FROM: tell the events of a journal above a number\n\
    standby CATALOGUE JOURNAL: follow a feed that comes on the standard input\n\
    load COUNT SEED: play a generated day\n\
    version: tell which version this is\n\
    JOURNAL is a file with a second one beside it that ends with .b, etcd:HOST:PORT/NAME, or - for memory alone; RULES, PLAN and KEYS are files, or - for none\n";

/// Tells an answer, as a line.
pub fn tell_answer<K: Sink>(
    catalogue: &Catalogue,
    answer: &Answer,
    text: &mut Buffer,
    sink: &mut K,
) -> Result<(), Failed>
    requires room { 32768 ≤ text.old.capacity }
    requires tellable { IsTellable catalogue.now answer.now }
    ensures room { text.new.capacity ≡ text.old.capacity }
    ensures bytes { K.tells → Writes (K.taken sink.old) (K.taken sink.new) (line_of (answer_text catalogue.now answer.now)) result }
    ensures cause { HasCause (K.faults sink.old) (K.faults sink.new) result }
{
    text.clear();
    put_answer_line(text, catalogue, answer);
    sink.write(text.bytes())
}

/// Tells what was refused, as a line.
pub fn tell_refusal<K: Sink>(
    refusal: &Refusal,
    text: &mut Buffer,
    sink: &mut K,
) -> Result<(), Failed>
    requires { 32768 ≤ text.old.capacity }
    ensures room { text.new.capacity ≡ text.old.capacity }
    ensures bytes { K.tells → Writes (K.taken sink.old) (K.taken sink.new) (line_of (refusal_text refusal.now)) result }
    ensures cause { HasCause (K.faults sink.old) (K.faults sink.new) result }
{
    text.clear();
    write_refusal(text, refusal);
    tell_line(text, sink)
}

/// Tells of a write to a device, as a line.
pub fn tell_write<K: Sink>(
    catalogue: &Catalogue,
    point: PointId,
    value: i64,
    ok: bool,
    text: &mut Buffer,
    sink: &mut K,
) -> Result<(), Failed>
    requires room { 32768 ≤ text.old.capacity }
    requires known { point < length catalogue.now.points }
    ensures room { text.new.capacity ≡ text.old.capacity }
    ensures bytes { K.tells → Writes (K.taken sink.old) (K.taken sink.new) (line_of (device_text catalogue.now point value ok)) result }
    ensures cause { HasCause (K.faults sink.old) (K.faults sink.new) result }
{
    text.clear();
    write_device(text, catalogue, point, value, ok);
    tell_line(text, sink)
}

/// Tells that a line is too long.
pub fn tell_too_long<K: Sink>(sink: &mut K) -> Result<(), Failed>
    ensures bytes { K.tells → Writes (K.taken sink.old) (K.taken sink.new) (line_of too_long_text) result }
    ensures cause { HasCause (K.faults sink.old) (K.faults sink.new) result }
{
    sink.write(b"{\"error\":\"too-long\"}\n")
}

/// Tells that there was no memory for what was asked.
pub fn tell_memory<K: Sink>(sink: &mut K) -> Result<(), Failed>
    ensures bytes { K.tells → Writes (K.taken sink.old) (K.taken sink.new) (line_of memory_text) result }
    ensures cause { HasCause (K.faults sink.old) (K.faults sink.new) result }
{
    sink.write(memory_line())
}

/// Tells that the disk has failed.
pub fn tell_stopped<K: Sink>(sink: &mut K) -> Result<(), Failed>
    ensures bytes { K.tells → Writes (K.taken sink.old) (K.taken sink.new) (line_of stopped_text) result }
    ensures cause { HasCause (K.faults sink.old) (K.faults sink.new) result }
{
    sink.write(stopped_line())
}

/// Tells how the program is used.
pub fn tell_usage<K: Sink>(sink: &mut K) -> Result<(), Failed>
    ensures bytes { K.tells → Writes (K.taken sink.old) (K.taken sink.new) usage_line result }
    ensures cause { HasCause (K.faults sink.old) (K.faults sink.new) result }
{
    sink.write(b"usage\n")
}

/// Tells which jobs there are, one a line, and where more is said.
pub fn tell_help<K: Sink>(sink: &mut K) -> Result<(), Failed>
    ensures bytes { K.tells → Writes (K.taken sink.old) (K.taken sink.new) help_text result }
    ensures cause { HasCause (K.faults sink.old) (K.faults sink.new) result }
{
    sink.write(HELP.as_bytes())
}

/// Tells which version of the program it is.
pub fn tell_version<K: Sink>(sink: &mut K) -> Result<(), Failed>
    ensures bytes { K.tells → Writes (K.taken sink.old) (K.taken sink.new) version_line result }
    ensures cause { HasCause (K.faults sink.old) (K.faults sink.new) result }
{
    sink.write(b"bossd 0.3.0\n")
}

/// Tells a text, with the end of a line behind it.
fn tell_line<K: Sink>(text: &mut Buffer, sink: &mut K) -> Result<(), Failed>
    requires { length text.old.bytes < text.old.capacity }
    ensures room { text.new.capacity ≡ text.old.capacity }
    ensures bytes { K.tells → Writes (K.taken sink.old) (K.taken sink.new) (line_of text.old.bytes) result }
    ensures cause { HasCause (K.faults sink.old) (K.faults sink.new) result }
{
    text.push(b'\n');
    sink.write(text.bytes())
}
