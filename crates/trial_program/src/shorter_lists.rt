//! The lists of done transactions and of notices behind an adoption: without what named a removed point they are shorter than 1,024,
//! though more were done and told.

use crate::made::{Made, OPENING};
use crate::outside::*;
use crate::runs::shelf_of_catalogues;
use boss_files::MemoryFiles;
use std::alloc::Global;
use std::process::Abort;
use std::sync::Wait;
use std::thread::Threads;

/// How many transactions are done under the old catalogue. The last 1,024 are kept, 7 to 1,030, and of the 2,060 notices the last 1,024.
const DONE: u32 = 1_030;

/// The one of them that held the fan, which the new catalogue has not. Its record goes, its first notice, 2,039, and all before that one.
const ON_FAN: u32 = 1_020;

/// What the program tells as it opens the journal under the new catalogue.
const OPENING_ANEW: &str =
    "write field ahu1.damper 20000 ok\nwrite field lamp 1 ok\nwrite field valve 10 ok\n";

const UNKNOWN: &str = "{\"error\":\"unknown-txn\"}";

const CANCELLED: &str = "{\"error\":\"ended\",\"cause\":\"cancelled\",\"at\":0,\"moment\":0}";

/// A process, whose transactions are done one after another.
fn before(rt: &impl Abort, alloc: Global) -> Made {
    let mut script = Made::new(rt, alloc, OPENING);
    script.put(
        rt,
        "{\"op\":\"attach\",\"process\":\"a\"}",
        "{\"ok\":\"attached\",\"process\":\"a\",\"next\":1}",
    );
    for txn in 1..=DONE {
        if txn == ON_FAN {
            script.finish(rt, alloc, "fan", 1, txn);
        } else {
            script.finish(rt, alloc, "lamp", 0, txn);
        }
    }
    script
}

/// Asks for a renewal, by which is seen whether a transaction is known.
fn renew(rt: &impl Abort, alloc: Global, script: &mut Made, txn: u32, answer: &str) {
    let asked = format!(in alloc; "{{\"op\":\"renew\",\"txn\":{txn},\"length\":1000}}").expect(
        rt, "memory",
    );
    script.put(rt, asked.as_str(), answer);
}

/// What is known under the new catalogue. One transaction more fills the list, and only the next one has the oldest forgotten. The notices
/// go on behind those that are left.
fn behind(rt: &impl Abort, alloc: Global) -> Made {
    let mut script = Made::new(rt, alloc, OPENING_ANEW);
    script.put(
        rt,
        "{\"op\":\"attach\",\"process\":\"a\"}",
        "{\"ok\":\"attached\",\"process\":\"a\",\"next\":2061}",
    );
    script.put(
        rt,
        "{\"op\":\"notices\",\"max\":1}",
        "{\"ok\":\"notices\",\"first\":2040,\"next\":2041,\"list\":[{\"n\":2040,\"at\":0,\"txn\":1020,\"kind\":\"done\"}]}",
    );
    renew(rt, alloc, &mut script, ON_FAN, UNKNOWN);
    renew(rt, alloc, &mut script, 6, UNKNOWN);
    renew(rt, alloc, &mut script, 7, CANCELLED);
    script.finish(rt, alloc, "lamp", 1, 1_031);
    renew(rt, alloc, &mut script, 7, CANCELLED);
    script.finish(rt, alloc, "lamp", 1, 1_032);
    renew(rt, alloc, &mut script, 7, UNKNOWN);
    renew(rt, alloc, &mut script, 8, CANCELLED);
    script.put(
        rt,
        "{\"op\":\"notices\",\"from\":2064,\"max\":1}",
        "{\"ok\":\"notices\",\"first\":2040,\"next\":2065,\"list\":[{\"n\":2064,\"at\":0,\"txn\":1032,\"kind\":\"done\"}]}",
    );
    script
}

/// Runs the program over these files, which is to tell this text and to end with status 0.
fn expect_run<R: Abort + Threads + Wait + Sync>(
    rt: &R,
    alloc: Global,
    files: &mut MemoryFiles,
    words: &str,
    input: &str,
    output: &str,
) {
    let ran = run_on(rt, alloc, files, words, input, NONE_FAILS);
    let told = str::from_utf8(ran.sink.taken()).expect(rt, "a text");
    expect_text(rt, told, output, words);
    assert!(rt; ran.status.0 == 0, "{words}");
}

#[test]
fn lists_are_shorter_behind_an_adoption(rt: HostRuntime) {
    let alloc = rt.alloc();
    let mut files = shelf_of_catalogues(&rt, alloc);
    let script = before(&rt, alloc);
    let (asked, output) = (script.asked.as_str(), script.output.as_str());
    expect_run(&rt, alloc, &mut files, "script three j", asked, output);
    let adopted = "adopted events 2061 points 3 removed 1 added 1\n";
    expect_run(&rt, alloc, &mut files, "adopt three valve j", "", adopted);
    let script = behind(&rt, alloc);
    let (asked, output) = (script.asked.as_str(), script.output.as_str());
    expect_run(&rt, alloc, &mut files, "script valve j", asked, output);
    let checked = "events 2065 now 0 leases 0 pending 0\n";
    expect_run(&rt, alloc, &mut files, "check valve j", "", checked);
}
