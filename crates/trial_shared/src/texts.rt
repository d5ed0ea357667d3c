//! What is told of answers, as lines: a few words and two numbers.

use boss_model::{Answer, Cause, Refusal, Slot};
use def_history::{Outcome, Outcomes};
use std::process::Abort;

/// Compares texts.
pub fn expect_text(rt: &impl Abort, told: &str, wanted: &str) {
    assert_eq!(rt; told, wanted);
}

/// Tells a line.
fn tell(rt: &impl Abort, told: &mut String, what: &str, first: u64, second: u64) {
    writeln!(told, "{what}: {first} {second}").expect(rt, "memory");
}

pub fn tell_outcome(rt: &impl Abort, told: &mut String, outcome: &Outcome) {
    match outcome {
        Outcome::Done { answer } => tell_answer(rt, told, answer),
        Outcome::DiskFault => tell(rt, told, "the disk failed", 0, 0),
        Outcome::Stopped => tell(rt, told, "it has stopped", 0, 0),
        Outcome::NoMemory => tell(rt, told, "no memory", 0, 0),
        Outcome::Denied { index, rule } => tell(rt, told, "denied", *index as u64, *rule as u64),
    }
}

/// Tells these answers, how many commands were done, behind it this number, and what came of the one that was not done.
pub fn tell_all(
    rt: &impl Abort,
    told: &mut String,
    answers: &[Answer],
    outcomes: &Outcomes,
    second: u64,
) {
    for answer in answers {
        tell_answer(rt, told, answer);
    }
    tell(rt, told, "done", outcomes.done as u64, second);
    if let Some(rest) = &outcomes.rest {
        tell_outcome(rt, told, rest);
    }
}

fn tell_answer(rt: &impl Abort, told: &mut String, answer: &Answer) {
    let (what, first, second) = summary(answer);
    tell(rt, told, what, first, second);
}

fn summary(answer: &Answer) -> (&'static str, u64, u64) {
    match answer {
        Answer::Attached { next, .. } => ("attached", *next, 0),
        Answer::Accepted { txn, until } => ("accepted", txn.0, *until),
        Answer::Ticked { now } => ("ticked", *now, 0),
        Answer::Array { slots, .. } => slot_summary(&slots.at[7]),
        Answer::Refused(refusal) => refusal_summary(refusal),
        _ => ("another answer", 0, 0),
    }
}

/// Of the slot of priority 8.
fn slot_summary(slot: &Slot) -> (&'static str, u64, u64) {
    match slot {
        Slot::Lease { value, txn, until } => {
            if *value == 45_000 {
                ("the damper is held", txn.0, *until)
            } else {
                ("the damper is held elsewhere", txn.0, *until)
            }
        }
        _ => ("the damper is not held", 0, 0),
    }
}

fn refusal_summary(refusal: &Refusal) -> (&'static str, u64, u64) {
    match refusal {
        Refusal::Ended {
            cause: Cause::Expired,
            at,
            moment,
        } => ("refused, for the lease expired", *at, *moment),
        _ => ("refused otherwise", 0, 0),
    }
}
