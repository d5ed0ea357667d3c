use crate::outside::*;
use std::alloc::Global;
use std::process::Abort;
use std::sync::Wait;
use std::thread::Threads;
use trial_scripts::{BATCHES, Batch};

/// The points of the first driver, by their numbers.
const FIRST_POINTS: [&str; 3] = ["ahu1.damper", "lamp", "fan"];

/// A script, what it is to tell, and what its first device is to be called with.
#[derive(Drop)]
struct Parts {
    asked: String,
    output: String,
    calls: String,
}

impl Parts {
    /// Nothing yet.
    fn new(alloc: Global) -> Parts {
        Parts {
            asked: String::new(alloc),
            output: String::new(alloc),
            calls: String::new(alloc),
        }
    }

    /// Takes the lines of a text, each where it belongs.
    fn put(&mut self, rt: &impl Abort, text: &str) {
        for line in text.split('\n') {
            if let Some(asked) = line.strip_prefix("> ") {
                writeln!(self.asked, "{asked}").expect(rt, "memory");
            } else if !line.is_empty() {
                writeln!(self.output, "{line}").expect(rt, "memory");
                put_call(rt, &mut self.calls, line);
            }
        }
    }
}

/// Puts down the call that a line of the output tells of, where it is one of the first driver's device.
fn put_call(rt: &impl Abort, calls: &mut String, line: &str) {
    let Some(write) = line.strip_prefix("write field ") else {
        return;
    };
    let (name, call) = write.split_once(' ').expect(rt, "a name");
    let point = FIRST_POINTS
        .iter()
        .position(|point| *point == name)
        .expect(rt, "a point");
    writeln!(calls, "{point} {call}").expect(rt, "memory");
}

/// Runs a script, which has to tell its text and to end with status 0.
fn expect_script<R: Abort + Threads + Wait + Sync>(
    rt: &R,
    alloc: Global,
    batch: &Batch,
    script: &str,
) {
    let (shows, lines) = script.split_once('\n').expect(rt, "what it shows");
    let mut parts = Parts::new(alloc);
    parts.put(rt, batch.opening);
    parts.put(rt, lines);
    let given = Given {
        words: SCRIPT_WORDS,
        file: batch.file,
        plan: "",
        input: parts.asked.as_str(),
        fails: Fails {
            device: batch.fails,
            ..NONE_FAILS
        },
    };
    let told = Told {
        output: parts.output.as_str(),
        calls: parts.calls.as_str(),
        status: 0,
    };
    expect(rt, alloc, shows, &given, &told);
}

#[test]
fn scripts_tell_what_was_worked_out(rt: HostRuntime) {
    expect_batches(&rt, rt.alloc(), BATCHES);
}

fn expect_batches<R: Abort + Threads + Wait + Sync>(rt: &R, alloc: Global, batches: &[Batch]) {
    for batch in batches {
        expect_batch(rt, alloc, batch);
    }
}

fn expect_batch<R: Abort + Threads + Wait + Sync>(rt: &R, alloc: Global, batch: &Batch) {
    for script in batch.scripts.split("\n== ").skip(1) {
        expect_script(rt, alloc, batch, script);
    }
}
