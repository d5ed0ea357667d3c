//! Lines on the standard error, for whoever started the program.

use std::fmt::Display;
use std::io::{Eprint, Error};

/// Writes a line to the standard error, after the program's name. Where that can't be written, the line is lost.
pub fn say_aside<R: Eprint, D: Display + Drop>(rt: &R, line: D) {
    let _ = eprintln!(rt; "bossd: {line}");
}

/// Writes which file failed, in which call, and the system's reason.
pub(crate) fn say_failed<R: Eprint>(rt: &R, role: &str, name: &str, call: &str, reason: Error) {
    say_aside(
        rt,
        format_args!("the {role} {name} could not be {call}: {reason}"),
    );
}
