//! What is told of a trial, as lines.

use crate::outside::{Own, pauses_of};
use std::alloc::Global;
use std::fmt::Debug;
use std::process::Abort;

/// Puts a line at the end of a text.
pub fn push_line(rt: &impl Abort, text: &mut String, line: &str) {
    text.push_str(line).expect(rt, "memory");
    text.push_str("\n").expect(rt, "memory");
}

/// Puts lines at the end of a text.
pub fn push_lines(rt: &impl Abort, text: &mut String, lines: &[&str]) {
    for line in lines {
        push_line(rt, text, line);
    }
}

/// Lines, each with its end.
pub fn joined(rt: &impl Abort, alloc: Global, lines: &[&str]) -> String {
    let mut text = String::new(alloc);
    push_lines(rt, &mut text, lines);
    text
}

/// Tells what was sent.
pub fn push_sent(rt: &impl Abort, text: &mut String, sent: &[u8]) {
    let sent = std::str::from_utf8(sent).expect(rt, "a text");
    text.push_str(sent).expect(rt, "memory");
}

/// Compares what a trial told with the lines that it is to tell.
pub fn compare(rt: &impl Abort, alloc: Global, told: &str, lines: &[&str], shows: &str) {
    let wanted = joined(rt, alloc, lines);
    assert_eq!(rt; told, wanted.as_str(), "{shows}");
}

/// Tells how a worker ended, or that what comes before its work did not go as it was to; and its pauses.
pub fn tell_end<E: Debug + Drop>(
    rt: &impl Abort,
    alloc: Global,
    text: &mut String,
    end: Option<E>,
    own: Own,
) {
    let (pauses, closed) = pauses_of(rt, alloc, own);
    let last = if closed { "; told to end" } else { "" };
    match end {
        Some(end) => writeln!(text, "{end:?}; pauses: {pauses}{last}").expect(rt, "memory"),
        None => push_line(rt, text, "not prepared"),
    }
}
