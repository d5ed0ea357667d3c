ghost use Rattle.std.specs.Prelude.{◌≢◌};
ghost use Rattle.boss_jobs.specs.Jobs.{TellsLine};
ghost use Rattle.boss_shift_jobs.specs.Lines.{too_far_line};
ghost use Rattle.boss_shift_jobs.specs.Telling.{TellsTaken};

use crate::lines::too_far_line;
use boss_durable::Followed;
use boss_jobs::{Status, say};
use boss_outside::Sink;
use std::alloc::Global;

/// Tells by how much a journal's moments can be taken back at most.
pub fn say_too_far<K: Sink>(alloc: Global, sink: &mut K, most: u64) -> Status
    ensures { TellsLine K.Sink (too_far_line most) 15 sink.old sink.new result.0 }
{
    match too_far_line(alloc, most) {
        Ok(line) => say(sink, &line, Status::ADOPTION),
        Err(_) => Status::NO_MEMORY,
    }
}

/// Tells this line of a sound state that the disks have now. Where they have it not, nothing is told.
pub fn say_taken<K: Sink>(sink: &mut K, line: &[u8], taken: Followed) -> Status
    requires state { taken ≢ Followed.NotEffective }
    requires sound { taken ≢ Followed.NotSound }
    ensures { TellsTaken K.Sink line.now taken sink.old sink.new result.0 }
{
    match taken {
        Followed::Done => say(sink, line, Status::DONE),
        Followed::Stopped | Followed::DiskFault => Status::FILE_FAULT,
        Followed::NoMemory => Status::NO_MEMORY,
        Followed::NotEffective | Followed::NotSound => unreachable!(),
    }
}
