ghost use Rattle.std.specs.Prelude.{◌≡◌, ◌≤◌, ◌+◌, ◌^◌, nat_eq, length};
ghost use Rattle.std.specs.Cmp.Lexicographic.{pointwise};
ghost use Rattle.std.specs.List.{list_all, list_any};
ghost use Rattle.boss_model.specs.Names.{is_name};
ghost use Rattle.boss_state_check.specs.Tests.{is_notice, is_told, is_reply, are_numbered, is_process, have_own_names};

use boss_model::{KeptProcess, KeptReply, LAST_NUMBER, NOTICES_KEPT, Name, Notice, What};

/// Whether each of the processes may stand in a state over so many points with this `now`, in milliseconds.
pub fn are_processes(points: usize, now: u64, processes: &[KeptProcess]) -> bool
    ensures { result ≡ list_all (is_process points now) processes.now }
{
    processes
        .iter()
        .all(|process| is_process(points, now, process))
}

/// Whether the process may stand in a state over so many points with this `now`.
fn is_process(points: usize, now: u64, process: &KeptProcess) -> bool
    ensures { result ≡ is_process points now process.now }
{
    let notices = process.notices.slice();
    is_name(&process.name)
        && process.count <= LAST_NUMBER
        && notices.len() <= NOTICES_KEPT
        && notices.len() as u64 <= process.count
        && are_numbered(process.count + 1 - notices.len() as u64, notices)
        && are_notices(points, now, notices)
        && is_reply(process.reply)
}

/// Whether it is a name. That its bytes are those of names is seen to by its type.
fn is_name(name: &Name) -> bool
    ensures { result ≡ is_name name.now }
{
    !name.bytes().is_empty()
}

/// Whether the notices are numbered one by one from this number on.
fn are_numbered(first: u64, notices: &[Notice]) -> bool
    requires { first + length notices.now ≤ 2 ^ 63 }
    ensures { result ≡ are_numbered first notices.now }
{
    let mut number = first;
    for notice in notices {
        if notice.number != number {
            return false;
        }
        number += 1;
    }
    true
}

/// Whether each of the notices may stand in a state over so many points with this `now`.
fn are_notices(points: usize, now: u64, notices: &[Notice]) -> bool
    ensures { result ≡ list_all (is_notice points now) notices.now }
{
    notices.iter().all(|notice| is_notice(points, now, *notice))
}

/// Whether the notice may stand in a state over so many points with this `now`.
fn is_notice(points: usize, now: u64, notice: Notice) -> bool
    ensures { result ≡ is_notice points now notice }
{
    notice.at <= now && is_told(points, notice.what)
}

/// Whether what is told is of one of so many points, or of none.
fn is_told(points: usize, told: What) -> bool
    ensures { result ≡ is_told points told }
{
    match told {
        What::Fault { point }
        | What::Ended { point, .. }
        | What::Reverted { point }
        | What::Cut { point, .. } => (point.0 as usize) < points,
        What::Done => true,
    }
}

/// Whether what is kept of a request has a request's number.
fn is_reply(reply: Option<KeptReply>) -> bool
    ensures { result ≡ is_reply reply }
{
    match reply {
        Some(reply) => 1 <= reply.seq && reply.seq < LAST_NUMBER,
        None => true,
    }
}

/// Whether no two processes have one name.
pub fn have_own_names(processes: &[KeptProcess]) -> bool
    ensures { result ≡ have_own_names processes.now }
{
    let mut rest = processes;
    while let Some((process, others)) = rest.split_first() {
        if is_named(others, &process.name) {
            return false;
        }
        rest = others;
    }
    true
}

/// Whether one of the processes has this name.
fn is_named(processes: &[KeptProcess], name: &Name) -> bool
    ensures { result ≡ list_any (λ process. pointwise nat_eq process.name name.now) processes.now }
{
    processes
        .iter()
        .any(|process| process.name.bytes() == name.bytes())
}
