ghost use Rattle.boss_durable.specs.Words.{lasting};
ghost use Rattle.boss_jobs.specs.Jobs.{TellsLine};
ghost use Rattle.boss_standby_jobs.specs.Lines.{bad_line, followed_line, gap_line};
ghost use Rattle.boss_standby_jobs.specs.Telling.{TellsEnd, TellsFed};

use crate::lines::{bad_line, followed_line, gap_line, short_line};
use boss_disk::Disk;
use boss_durable::Durable;
use boss_feeding::FeedFault;
use boss_following::FollowEnd;
use boss_jobs::{Status, say, say_journal};
use boss_outside::Sink;
use std::alloc::Global;

/// Tells why no feed, or no more of one, was told, where it was the journal that was refused.
pub fn say_fed<K: Sink>(alloc: Global, sink: &mut K, fed: Result<(), FeedFault>) -> Status
    ensures { TellsFed K.Sink fed sink.old sink.new result.0 }
{
    match fed {
        Ok(()) => Status::DONE,
        Err(FeedFault::Refused(refusal)) => say_journal(alloc, sink, &refusal),
        Err(FeedFault::WriteFault) => Status::WRITE_FAULT,
    }
}

/// Tells how a feed was followed to its end, and what it led to, or why no further.
pub fn say_end<D: Disk, K: Sink>(
    alloc: Global,
    durable: &Durable<D>,
    sink: &mut K,
    end: FollowEnd,
) -> Status
    ensures { TellsEnd K.Sink end durable.now.disks.events (lasting durable.now) sink.old sink.new result.0 }
{
    match end {
        FollowEnd::End => say_followed(alloc, durable, sink),
        FollowEnd::Gap { have, found } => say_gap(alloc, sink, have, found),
        FollowEnd::BadLine { line } => say_bad_line(alloc, sink, line),
        FollowEnd::Short => say(sink, short_line(), Status::STANDBY),
        FollowEnd::TooLong => Status::LINE_TOO_LONG,
        FollowEnd::Limit => Status::TOO_MANY_LINES,
        FollowEnd::ReadFault => Status::READ_FAULT,
        FollowEnd::DiskFault | FollowEnd::Stopped => Status::FILE_FAULT,
        FollowEnd::NoMemory => Status::NO_MEMORY,
    }
}

/// Tells in one write what a feed led to.
fn say_followed<D: Disk, K: Sink>(alloc: Global, durable: &Durable<D>, sink: &mut K) -> Status
    ensures { TellsLine K.Sink (followed_line durable.now.disks.events (lasting durable.now)) 0 sink.old sink.new result.0 }
{
    match followed_line(
        alloc,
        durable.events(),
        durable.now(),
        durable.leases(),
        durable.pending(),
    ) {
        Ok(line) => say(sink, &line, Status::DONE),
        Err(_) => Status::NO_MEMORY,
    }
}

fn say_gap<K: Sink>(alloc: Global, sink: &mut K, have: u64, found: u64) -> Status
    ensures { TellsLine K.Sink (gap_line have found) 18 sink.old sink.new result.0 }
{
    match gap_line(alloc, have, found) {
        Ok(line) => say(sink, &line, Status::STANDBY),
        Err(_) => Status::NO_MEMORY,
    }
}

fn say_bad_line<K: Sink>(alloc: Global, sink: &mut K, number: u64) -> Status
    ensures { TellsLine K.Sink (bad_line number) 18 sink.old sink.new result.0 }
{
    match bad_line(alloc, number) {
        Ok(line) => say(sink, &line, Status::STANDBY),
        Err(_) => Status::NO_MEMORY,
    }
}
