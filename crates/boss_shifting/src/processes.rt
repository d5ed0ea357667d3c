//! Processes, whose notices were told earlier and whose kept answers tell earlier moments.

ghost use Rattle.std.specs.Prelude.{◌≡◌, map};
ghost use Rattle.std.specs.Option.{option_map};
ghost use Rattle.boss_model.specs.Seen.{seen_process};
ghost use Rattle.law_shift.specs.Shifted.{shifted_notice, shifted_acceptance, shifted_reply, shifted_process};

use boss_model::{Acceptance, Items, KeptProcess, KeptReply, Notice};
use std::alloc::Global;
use std::mem;

/// These processes, told all as much earlier.
pub(crate) fn shifted_processes(
    alloc: Global,
    processes: Items<KeptProcess>,
    by: u64,
) -> Items<KeptProcess>
    ensures { map seen_process result ≡ map (shifted_process by) (map seen_process processes) }
{
    let mut processes = processes.into_vec();
    shift_processes(alloc, processes.as_mut_slice(), by);
    Items::from_vec(processes)
}

fn shift_processes(alloc: Global, processes: &mut [KeptProcess], by: u64)
    ensures { map seen_process processes.new ≡ map (shifted_process by) (map seen_process processes.old) }
{
    for process in processes.iter_mut() {
        shift_process(alloc, process, by);
    }
}

fn shift_process(alloc: Global, process: &mut KeptProcess, by: u64)
    ensures { seen_process process.new ≡ shifted_process by (seen_process process.old) }
{
    let notices = mem::replace(&mut process.notices, Items::new(alloc));
    process.notices = shifted_notices(notices, by);
    process.reply = shifted_reply(process.reply, by);
}

/// These notices, told as much earlier.
fn shifted_notices(notices: Items<Notice>, by: u64) -> Items<Notice>
    ensures { result ≡ map (shifted_notice by) notices }
{
    let mut notices = notices.into_vec();
    shift_notices(notices.as_mut_slice(), by);
    Items::from_vec(notices)
}

fn shift_notices(notices: &mut [Notice], by: u64)
    ensures { notices.new ≡ map (shifted_notice by) notices.old }
{
    for notice in notices.iter_mut() {
        shift_notice(notice, by);
    }
}

fn shift_notice(notice: &mut Notice, by: u64)
    ensures { notice.new ≡ shifted_notice by notice.old }
{
    notice.at = notice.at.saturating_sub(by);
}

/// What a numbered request that comes again is answered: a moment as much earlier.
fn shifted_reply(reply: Option<KeptReply>, by: u64) -> Option<KeptReply>
    ensures { result ≡ option_map (shifted_reply by) reply }
{
    match reply {
        Some(KeptReply { seq, acceptance }) => Some(KeptReply {
            seq,
            acceptance: shifted_acceptance(acceptance, by),
        }),
        None => None,
    }
}

fn shifted_acceptance(acceptance: Acceptance, by: u64) -> Acceptance
    ensures { result ≡ shifted_acceptance by acceptance }
{
    match acceptance {
        Acceptance::Accepted { txn, until } => Acceptance::Accepted {
            txn,
            until: until.saturating_sub(by),
        },
        Acceptance::Renewed { txn, until } => Acceptance::Renewed {
            txn,
            until: until.saturating_sub(by),
        },
        Acceptance::Cancelled { txn, at } => Acceptance::Cancelled {
            txn,
            at: at.saturating_sub(by),
        },
    }
}
