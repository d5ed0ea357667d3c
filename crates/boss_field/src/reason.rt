//! Why a call to a host failed.

use std::fmt;
use std::io::{self, ErrorKind};

/// Why a call of a link or of a socket failed.
#[derive(Clone, Copy, Debug, PartialEq, Eq)]
pub enum Reason {
    /// The host, or the unit behind it, did not answer a moment ago, so it was not asked.
    LeftAlone,
    /// The host could not be reached.
    Unreached(ErrorKind),
    /// It was reached, and then a call failed.
    Broken(ErrorKind),
}

/// What the system says of a host that could not be reached, or of a link that broke.
impl fmt::Display for Reason {
    fn fmt<W: fmt::Write>(&self, f: &mut fmt::Formatter<W>) -> fmt::Result {
        f.write_str(match self {
            Reason::LeftAlone => "left alone for a while, as it did not answer",
            Reason::Unreached(kind) | Reason::Broken(kind) => words(*kind),
        })
    }
}

/// A kind of the system's errors in words.
fn words(kind: ErrorKind) -> &'static str {
    match kind {
        ErrorKind::ConnectionRefused => "connection refused",
        ErrorKind::ConnectionReset => "connection reset by the host",
        ErrorKind::ConnectionAborted => "connection aborted",
        ErrorKind::BrokenPipe => "connection ended by the host",
        ErrorKind::HostUnreachable => "no route to the host",
        ErrorKind::NetworkUnreachable => "network is unreachable",
        ErrorKind::NetworkDown => "network is down",
        ErrorKind::AddrNotAvailable => "address not available",
        ErrorKind::PermissionDenied => "not permitted",
        ErrorKind::NotFound => "no address is known for this name",
        ErrorKind::InvalidInput => "no name of a host",
        ErrorKind::TimedOut | ErrorKind::WouldBlock => "no answer in time",
        _ => "another error of the system",
    }
}

/// Why a name was not looked up: it is none, or the system knows no address for it, which it tells in no kind of its own.
pub(crate) fn of_name(reason: io::Error) -> io::Error {
    match reason.kind() {
        ErrorKind::InvalidInput => reason,
        _ => ErrorKind::NotFound.into(),
    }
}
