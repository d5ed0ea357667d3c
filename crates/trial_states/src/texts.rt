//! A kept state as a text.

use boss_model::{Kept, KeptProcess, KeptTxn};
use std::alloc::Global;
use std::process::Abort;

/// All that is kept: the moment and the number of the next transaction; a line for each process, and for each transaction with its writes
/// behind it; and what is done, the leases and the reversions.
pub fn told(rt: &impl Abort, alloc: Global, kept: &Kept) -> String {
    let mut text = String::new(alloc);
    writeln!(text, "{} {}", kept.now, kept.next.0).expect(rt, "memory");
    tell_processes(rt, &mut text, kept.processes.slice());
    tell_txns(rt, &mut text, kept.txns.slice());
    tell_slots(rt, &mut text, kept);
    text
}

fn tell_processes(rt: &impl Abort, text: &mut String, processes: &[KeptProcess]) {
    for process in processes {
        writeln!(
            text,
            "{} {} {:?} {:?}",
            process.name,
            process.count,
            process.notices.slice(),
            process.reply
        )
        .expect(rt, "memory");
    }
}

fn tell_txns(rt: &impl Abort, text: &mut String, txns: &[KeptTxn]) {
    for txn in txns {
        write!(text, "{} {} {:?}", txn.txn.0, txn.owner.0, txn.policy).expect(rt, "memory");
        tell_parts(rt, text, txn);
    }
}

fn tell_parts(rt: &impl Abort, text: &mut String, txn: &KeptTxn) {
    for part in txn.parts.slice() {
        let (point, priority) = (part.point.0, part.priority.0);
        write!(text, ", {point} {priority} {:?}", part.end).expect(rt, "memory");
    }
    text.push_str("\n").expect(rt, "memory");
}

fn tell_slots(rt: &impl Abort, text: &mut String, kept: &Kept) {
    writeln!(text, "done {:?}", kept.done.slice()).expect(rt, "memory");
    writeln!(text, "leases {:?}", kept.leases.slice()).expect(rt, "memory");
    writeln!(text, "reversions {:?}", kept.pending.slice()).expect(rt, "memory");
}
