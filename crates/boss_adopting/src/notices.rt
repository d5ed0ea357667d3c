//! Processes, whose notices tell of their new points; what was told up to a removed point is forgotten.

ghost use Rattle.std.specs.Prelude.{◌≡◌, map, IfOk};
ghost use Rattle.boss_model.specs.Seen.{seen_process};
ghost use Rattle.law_adoption.specs.Adopted.{moved_what, moved_notice, what_stays, notice_stays, last_passing, moved_process};
ghost use Rattle.boss_adopting.specs.Places.{places_of};

use crate::numbering::Numbering;
use boss_model::{Items, KeptProcess, NoMemory, Notice, What};
use std::alloc::Global;

/// These processes, of whose notices those stay behind the last that tells of a removed point.
pub(crate) fn moved_processes(
    alloc: Global,
    numbering: &Numbering,
    processes: &[KeptProcess],
) -> Result<Vec<KeptProcess>, NoMemory>
    ensures { IfOk result (λ moved. map seen_process moved.items ≡ map (moved_process (places_of numbering.now)) (map seen_process processes.now)) }
{
    let mut moved = Vec::with_capacity(alloc, processes.len())?;
    for process in processes {
        moved.push(moved_process(alloc, numbering, process)?)?;
    }
    Ok(moved)
}

/// The process, with these of its notices.
fn moved_process(
    alloc: Global,
    numbering: &Numbering,
    process: &KeptProcess,
) -> Result<KeptProcess, NoMemory>
    ensures { IfOk result (λ moved. seen_process moved ≡ moved_process (places_of numbering.now) (seen_process process.now)) }
{
    let notices = moved_notices(alloc, numbering, process.notices.slice())?;
    Ok(KeptProcess {
        name: process.name.copied(),
        count: process.count,
        notices: Items::from_vec(notices),
        reply: process.reply,
    })
}

/// The notices behind the last that tells of a removed point, so that their numbers have no gap.
fn moved_notices(
    alloc: Global,
    numbering: &Numbering,
    notices: &[Notice],
) -> Result<Vec<Notice>, NoMemory>
    ensures { IfOk result (λ moved. moved.items ≡ map (moved_notice (places_of numbering.now)) (last_passing (notice_stays (places_of numbering.now)) notices.now)) }
{
    let mut moved = Vec::new(alloc);
    for notice in notices {
        if what_stays(numbering, notice.what) {
            moved.push(moved_notice(numbering, *notice))?;
        } else {
            moved.clear();
        }
    }
    Ok(moved)
}

/// Whether it tells of no removed point.
fn what_stays(numbering: &Numbering, told: What) -> bool
    ensures { result ≡ what_stays (places_of numbering.now) told }
{
    match told {
        What::Fault { point }
        | What::Ended { point, .. }
        | What::Reverted { point }
        | What::Cut { point, .. } => numbering.stays(point),
        What::Done => true,
    }
}

/// The notice, told of its new point.
fn moved_notice(numbering: &Numbering, notice: Notice) -> Notice
    ensures { result ≡ moved_notice (places_of numbering.now) notice }
{
    Notice {
        number: notice.number,
        at: notice.at,
        txn: notice.txn,
        what: moved_what(numbering, notice.what),
    }
}

/// The same, told of its new point.
fn moved_what(numbering: &Numbering, told: What) -> What
    ensures { result ≡ moved_what (places_of numbering.now) told }
{
    match told {
        What::Fault { point } => What::Fault {
            point: numbering.at(point),
        },
        What::Ended { point, cause } => What::Ended {
            point: numbering.at(point),
            cause,
        },
        What::Reverted { point } => What::Reverted {
            point: numbering.at(point),
        },
        What::Cut { point, by } => What::Cut {
            point: numbering.at(point),
            by,
        },
        What::Done => What::Done,
    }
}
