use crate::made::{Made, OPENING};
use crate::outside::*;
use std::alloc::Global;
use std::process::Abort;
use std::sync::Wait;
use std::thread::Threads;
use trial_parts::THREE_POINTS;

/// Runs a script over the three points. The device is called at the opening alone.
fn expect_made<R: Abort + Threads + Wait + Sync>(
    rt: &R,
    alloc: Global,
    script: &Made,
    shows: &str,
    status: u8,
) {
    let given = Given {
        words: SCRIPT_WORDS,
        file: THREE_POINTS,
        plan: "",
        input: script.asked.as_str(),
        fails: NONE_FAILS,
    };
    let told = Told {
        output: script.output.as_str(),
        calls: "0 20000 ok\n1 0 ok\n2 1 ok\n",
        status,
    };
    expect(rt, alloc, shows, &given, &told);
}

/// A process for this session.
fn attach(rt: &impl Abort, alloc: Global, script: &mut Made, session: u32) {
    let asked = format!(in alloc;
        "{{\"on\":{session},\"op\":\"attach\",\"process\":\"p{session}\"}}"
    ).expect(rt, "memory");
    let answer = format!(in alloc;
        "{{\"ok\":\"attached\",\"process\":\"p{session}\",\"next\":1}}"
    ).expect(rt, "memory");
    script.put(rt, asked.as_str(), answer.as_str());
}

/// The one process more than there may be is refused.
#[test]
fn there_are_256_processes(rt: HostRuntime) {
    let alloc = rt.alloc();
    let mut script = Made::new(&rt, alloc, OPENING);
    for session in 1..257 {
        attach(&rt, alloc, &mut script, session);
    }
    script.put(
        &rt,
        "{\"on\":257,\"op\":\"attach\",\"process\":\"p257\"}",
        "{\"error\":\"too-many-processes\"}",
    );
    expect_made(&rt, alloc, &script, "257 processes", 0);
}

/// Of transactions that are done at most 1,024 are known, the last ones.
#[test]
fn done_transactions_are_kept_for_a_while(rt: HostRuntime) {
    let ended = "{\"error\":\"ended\",\"cause\":\"cancelled\",\"at\":0,\"moment\":0}";
    expect_renewed(&rt, rt.alloc(), 1024, ended);
    let unknown = "{\"error\":\"unknown-txn\"}";
    expect_renewed(&rt, rt.alloc(), 1025, unknown);
}

/// So many transactions are done, and then a renewal of the first is answered so.
fn expect_renewed<R: Abort + Threads + Wait + Sync>(
    rt: &R,
    alloc: Global,
    count: u32,
    answer: &str,
) {
    let mut script = Made::new(rt, alloc, OPENING);
    attach(rt, alloc, &mut script, 1);
    for txn in 1..=count {
        script.finish(rt, alloc, "lamp", 0, txn);
    }
    script.put(rt, "{\"op\":\"renew\",\"txn\":1,\"length\":1000}", answer);
    expect_made(rt, alloc, &script, answer, 0);
}

/// Nothing behind a line that is too long is read.
#[test]
fn a_line_too_long_ends_a_script(rt: HostRuntime) {
    let alloc = rt.alloc();
    let mut script = Made::new(&rt, alloc, OPENING);
    push_blanks(&rt, &mut script.asked, 65_535);
    attach(&rt, alloc, &mut script, 1);
    expect_made(&rt, alloc, &script, "the longest line", 0);
    let mut script = Made::new(&rt, alloc, OPENING);
    push_blanks(&rt, &mut script.asked, 65_536);
    script.put(&rt, "{\"op\":\"tick\"}", "{\"error\":\"too-long\"}");
    expect_made(&rt, alloc, &script, "a longer line", 13);
}

/// A line of so many blanks.
fn push_blanks(rt: &impl Abort, text: &mut String, count: u32) {
    for _ in 0..count {
        text.push(' ').expect(rt, "memory");
    }
    text.push('\n').expect(rt, "memory");
}
