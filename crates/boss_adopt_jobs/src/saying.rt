ghost use Rattle.boss_adopt_jobs.specs.Telling.{TellsFault, TellsRefusal};

use boss_adopting::AdoptRefusal;
use boss_changing::AdoptFault;
use boss_jobs::{Status, say};
use boss_journal_lines::{in_use_line, unfit_line};
use boss_outside::Sink;
use std::alloc::Global;

/// Tells why nothing was adopted. Where a disk failed, or no memory was to be had, nothing is told.
pub fn say_fault<K: Sink>(alloc: Global, sink: &mut K, fault: &AdoptFault) -> Status
    ensures { TellsFault K.Sink fault.now sink.old sink.new result.0 }
{
    match fault {
        AdoptFault::Refused(refusal) => say_refused(alloc, sink, refusal),
        AdoptFault::Stopped | AdoptFault::DiskFault => Status::FILE_FAULT,
        AdoptFault::NoMemory => Status::NO_MEMORY,
    }
}

/// Tells why a state was not adopted.
fn say_refused<K: Sink>(alloc: Global, sink: &mut K, refusal: &AdoptRefusal) -> Status
    ensures { TellsRefusal K.Sink refusal.now sink.old sink.new result.0 }
{
    match refusal {
        AdoptRefusal::InUse { name } => match in_use_line(alloc, name) {
            Ok(line) => say(sink, &line, Status::ADOPTION),
            Err(_) => Status::NO_MEMORY,
        },
        AdoptRefusal::Unfit { name } => match unfit_line(alloc, name) {
            Ok(line) => say(sink, &line, Status::ADOPTION),
            Err(_) => Status::NO_MEMORY,
        },
        AdoptRefusal::NoMemory => Status::NO_MEMORY,
    }
}
