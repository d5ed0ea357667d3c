ghost use Rattle.std.specs.Prelude.{◌≡◌, IfOk};
ghost use Rattle.boss_answers.specs.Refused.{help_text, refusal_line, usage_line, version_line};
ghost use Rattle.boss_jobs.specs.Jobs.{TellsLine};

use crate::Status;
use boss_answers::{refusal_line, tell_help, tell_usage, tell_version};
use boss_outside::Sink;
use boss_points::CatalogueRefusal;
use std::alloc::Global;

/// Tells how the program is used.
pub fn say_usage<K: Sink>(sink: &mut K) -> Status
    ensures { TellsLine ⟦<K as Sink>⟧ usage_line 2 sink.old sink.new result.0 }
{
    match tell_usage(sink) {
        Ok(()) => Status::USAGE,
        Err(_) => Status::WRITE_FAULT,
    }
}

/// Tells which jobs there are.
pub fn say_help<K: Sink>(sink: &mut K) -> Status
    ensures { TellsLine ⟦<K as Sink>⟧ help_text 0 sink.old sink.new result.0 }
{
    match tell_help(sink) {
        Ok(()) => Status::DONE,
        Err(_) => Status::WRITE_FAULT,
    }
}

/// Tells which version of the program it is.
pub fn say_version<K: Sink>(sink: &mut K) -> Status
    ensures { TellsLine ⟦<K as Sink>⟧ version_line 0 sink.old sink.new result.0 }
{
    match tell_version(sink) {
        Ok(()) => Status::DONE,
        Err(_) => Status::WRITE_FAULT,
    }
}

/// Tells why a catalogue was refused.
pub fn say_refusal<K: Sink>(alloc: Global, sink: &mut K, refusal: CatalogueRefusal) -> Status
    ensures { TellsLine ⟦<K as Sink>⟧ (refusal_line refusal) 3 sink.old sink.new result.0 }
{
    match refusal_line(alloc, refusal) {
        Ok(line) => say(sink, &line, Status::CATALOGUE),
        Err(_) => Status::NO_MEMORY,
    }
}

/// Tells a line, and answers its status.
pub fn say<K: Sink>(sink: &mut K, line: &[u8], told: Status) -> Status
    ensures { TellsLine ⟦<K as Sink>⟧ line.now told.0 sink.old sink.new result.0 }
{
    match sink.write(line) {
        Ok(()) => told,
        Err(_) => Status::WRITE_FAULT,
    }
}
