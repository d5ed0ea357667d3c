//! Why a member of etcd did not take what it was asked.

use std::io::{self, ErrorKind};
use std::{fmt, str};

/// Why an exchange with a member was missed.
#[derive(Clone, Copy, Debug, PartialEq, Eq)]
pub enum Reason {
    /// It could not be reached.
    Unreached(ErrorKind),
    /// It was reached, and then a call failed.
    Broken(ErrorKind),
    /// It answered that it took nothing.
    Refused,
    /// No member has answered for so long that none is asked any more.
    Silent,
}

impl fmt::Display for Reason {
    fn fmt<W: fmt::Write>(&self, f: &mut fmt::Formatter<W>) -> fmt::Result {
        f.write_str(match self {
            Reason::Unreached(kind) | Reason::Broken(kind) => words(*kind),
            Reason::Refused => "it took nothing of what it was asked",
            Reason::Silent => "no answer for ten seconds",
        })
    }
}

/// A kind of the system's errors in words.
fn words(kind: ErrorKind) -> &'static str {
    match kind {
        ErrorKind::ConnectionRefused => "connection refused",
        ErrorKind::ConnectionReset => "connection reset",
        ErrorKind::ConnectionAborted | ErrorKind::BrokenPipe => "connection ended",
        ErrorKind::HostUnreachable => "no route to the host",
        ErrorKind::NetworkUnreachable => "network is unreachable",
        ErrorKind::NetworkDown => "network is down",
        ErrorKind::AddrNotAvailable => "address not available",
        ErrorKind::PermissionDenied => "not permitted",
        ErrorKind::NotFound => "no address is known for this name",
        ErrorKind::InvalidInput => "no name of a host",
        ErrorKind::TimedOut | ErrorKind::WouldBlock => "no answer in time",
        _ => "another error of the system",
    }
}

/// Why a name was not looked up: it is none, or the system knows no address for it, which it tells in no kind of its own.
pub(crate) fn name_fault(reason: io::Error) -> io::Error {
    match reason.kind() {
        ErrorKind::InvalidInput => reason,
        _ => ErrorKind::NotFound.into(),
    }
}

/// What to say of the last answer that came whole and took nothing, where there is something to say of it.
pub(crate) fn advice_for(content: &[u8]) -> Option<&'static str> {
    let text = str::from_utf8(content).ok()?;
    if text.contains("database space exceeded") {
        return Some(
            "etcd has no space left; compact its history, defragment it and disarm its alarm",
        );
    }
    if text.contains("has been compacted") {
        return Some("etcd compacted its pages away while they were read; start again");
    }
    if text.contains("user name is empty") || text.contains("permission denied") {
        return Some("etcd wants a user and a password, which bossd does not give");
    }
    None
}
