ghost use Rattle.std.specs.Prelude.{vec_len};
ghost use Rattle.boss_jobs.specs.Checks.{ChecksMemory};
ghost use Rattle.boss_jobs.specs.Jobs.{DoesScript, world};

use crate::Status;
use crate::catalogue::{Unusable, load};
use crate::saying::{say, say_refusal};
use crate::script::script_run;
use boss_files::Files;
use boss_journal_lines::new_line;
use boss_outside::{Actuators, Hears, Sink, Source};
use std::alloc::Global;

/// Runs the script of a catalogue's file, with its journal in memory alone.
pub fn do_script<F: Files, S: Hears<K>, K: Sink, A: Actuators>(
    alloc: Global,
    name: &str,
    files: &mut F,
    source: &mut S,
    sink: &mut K,
    devices: &mut Vec<A>,
) -> Status
    ensures { DoesScript ⟦<F as Files>⟧ ⟦<S as Source>⟧ ⟦<K as Sink>⟧ ⟦<A as Actuators>⟧ name.now (vec_len devices.old)
        (world files.old source.old sink.old devices.old.items) (world files.new source.new sink.new devices.new.items) result.0 }
{
    match load(alloc, files, name, devices.len()) {
        Ok(catalogue) => script_run(alloc, &catalogue, source, sink, devices),
        Err(Unusable::Refused(refusal)) => say_refusal(alloc, sink, refusal),
        Err(Unusable::FileFault) => Status::FILE_FAULT,
        Err(Unusable::NoMemory) => Status::NO_MEMORY,
    }
}

/// Checks a journal in memory alone, which is new, under the catalogue of a file.
pub fn check_memory<F: Files, S: Source, K: Sink, A: Actuators>(
    alloc: Global,
    name: &str,
    files: &mut F,
    source: &mut S,
    sink: &mut K,
    devices: &mut Vec<A>,
) -> Status
    ensures { ChecksMemory ⟦<F as Files>⟧ ⟦<S as Source>⟧ ⟦<K as Sink>⟧ ⟦<A as Actuators>⟧ name.now (vec_len devices.old)
        (world files.old source.old sink.old devices.old.items) (world files.new source.new sink.new devices.new.items) result.0 }
{
    match load(alloc, files, name, devices.len()) {
        Ok(_catalogue) => say(sink, new_line(), Status::DONE),
        Err(Unusable::Refused(refusal)) => say_refusal(alloc, sink, refusal),
        Err(Unusable::FileFault) => Status::FILE_FAULT,
        Err(Unusable::NoMemory) => Status::NO_MEMORY,
    }
}
