//! What becomes of a connection for which no worker is free.

use crate::aside::say_aside;
use crate::readings::awake;
use libc::net::{POLLIN, poll};
use libc::types::pollfd;
use std::alloc::Global;
use std::io::{Eprint, Read, Write};
use std::net::{Shutdown, TcpListener, TcpStream};
use std::os::fd::AsRawFd;
use std::sync::atomic::{AtomicBool, AtomicU64, Ordering};
use std::sync::{Arc, OnceLock};
use std::thread;
use std::time::{Clock, Duration};

/// What a connection is told for which no worker is free.
const BUSY: &[u8] = b"{\"error\":\"busy\"}\n";

/// How often the queue is looked at: as many milliseconds lie between two looks at least.
const LOOK_PAUSE: u64 = 1_000;

/// Stands for a moment that is not there.
const NEVER: u64 = u64::MAX;

/// How often a worker looks whether the door is open again, a millisecond apart, before it goes in all the same.
const MOST_LOOKS: u32 = 1_000;

/// How much is read away of what such a connection has sent, in pieces of this many bytes.
const PIECE: usize = 4_096;

/// How many pieces those are at most.
const MOST_PIECES: u32 = 64;

/// What the workers of a server and whoever pauses in it know of the queue of connections. A connection that stood first in it for so
/// long that no worker was free is told so, and closed. Whoever pauses does that, one at a time, and never waits for it.
///
/// A worker goes in before it accepts, and comes out behind that. Who turns a connection away shuts the door before it looks whether
/// someone is in. So a connection that a worker waits for is never turned away, and nobody else takes it from who turns it away.
#[derive(Drop)]
pub struct Door {
    listener: OnceLock<Arc<TcpListener, Global>>,
    /// How long the first of the queue waits, in milliseconds, by the clock that leaves out the system's sleep.
    longest_wait: u64,
    /// How many workers are in.
    workers: AtomicU64,
    /// A connection is turned away now.
    is_shut: AtomicBool,
    /// Since when somebody has stood first in the queue and no worker was in.
    since: AtomicU64,
    /// When the queue was looked at last.
    looked: AtomicU64,
    /// It was said that no worker is free, and none has gone in since.
    is_said: AtomicBool,
}

impl Door {
    /// A door with no queue yet, whose first waits so many milliseconds.
    pub fn new(longest_wait: u64) -> Door {
        Door {
            listener: OnceLock::new(),
            longest_wait,
            workers: AtomicU64::new(0),
            is_shut: AtomicBool::new(false),
            since: AtomicU64::new(NEVER),
            looked: AtomicU64::new(0),
            is_said: AtomicBool::new(false),
        }
    }

    /// The queue is this listener's from now on, where none was given before.
    pub(crate) fn open(&self, listener: Arc<TcpListener, Global>) {
        let _ = self.listener.try_set(listener);
    }

    /// A worker is about to accept. It waits while a connection is turned away, for some milliseconds.
    pub(crate) fn go_in<R: Clock>(&self, rt: &R) {
        self.workers.fetch_add(1, Ordering::SeqCst);
        for _ in 0..MOST_LOOKS {
            if !self.is_shut.load(Ordering::SeqCst) {
                break;
            }
            thread::sleep(rt, Duration::from_millis(1));
        }
        self.since.store(NEVER, Ordering::SeqCst);
        self.is_said.store(false, Ordering::SeqCst);
    }

    /// A worker has accepted, or failed to.
    pub(crate) fn come_out(&self) {
        self.workers.fetch_sub(1, Ordering::SeqCst);
    }

    /// Looks at the queue, unless that was done within the last second, and turns its first away where that has waited too long.
    pub(crate) fn look<R: Eprint>(&self, rt: &R) {
        let Some(listener) = self.listener.get() else {
            return;
        };
        let Some(now) = awake() else {
            return;
        };
        if !self.is_time(now) {
            return;
        }
        let since = self.since.load(Ordering::SeqCst);
        if self.has_worker() || !is_called(listener) {
            self.since.store(NEVER, Ordering::SeqCst);
        } else if since == NEVER {
            self.since.store(now, Ordering::SeqCst);
        } else if now.saturating_sub(since) >= self.longest_wait {
            self.turn_away(rt, listener, since);
        }
    }

    /// Whether the last look is long enough ago, and nobody else looks now.
    fn is_time(&self, now: u64) -> bool {
        let looked = self.looked.load(Ordering::SeqCst);
        now.saturating_sub(looked) >= LOOK_PAUSE
            && self
                .looked
                .compare_exchange(looked, now, Ordering::SeqCst, Ordering::SeqCst)
                .is_ok()
    }

    fn has_worker(&self) -> bool {
        self.workers.load(Ordering::SeqCst) > 0
    }

    /// Tells the first of the queue that no worker is free, if it has stood there since then.
    fn turn_away<R: Eprint>(&self, rt: &R, listener: &TcpListener, since: u64) {
        let Some(stream) = self.take(listener, since) else {
            return;
        };
        tell_busy(&stream);
        if !self.is_said.swap(true, Ordering::SeqCst) {
            let seconds = self.longest_wait / 1_000;
            say_aside(
                rt,
                format_args!(
                    "all workers are busy: a connection that waited for {seconds} s was told so"
                ),
            );
        }
    }

    /// Takes the first of the queue, where no worker is in, or was since then.
    fn take(&self, listener: &TcpListener, since: u64) -> Option<TcpStream> {
        if self.is_shut.swap(true, Ordering::SeqCst) {
            return None;
        }
        let taken = if self.is_first_since(listener, since) {
            accept(listener)
        } else {
            None
        };
        if taken.is_some() {
            self.since.store(NEVER, Ordering::SeqCst);
        }
        self.is_shut.store(false, Ordering::SeqCst);
        taken
    }

    /// Whether somebody stands in the queue, and no worker is in, or was since then.
    fn is_first_since(&self, listener: &TcpListener, since: u64) -> bool {
        !self.has_worker() && self.since.load(Ordering::SeqCst) == since && is_called(listener)
    }
}

/// Whether a connection stands in the queue of this listener.
fn is_called(listener: &TcpListener) -> bool {
    let mut asked = [pollfd {
        fd: listener.as_raw_fd(),
        events: POLLIN,
        revents: 0,
    }];
    poll(&mut asked, 0) > 0 && asked[0].revents & POLLIN != 0
}

/// The first of the queue of this listener.
fn accept(listener: &TcpListener) -> Option<TcpStream> {
    match listener.accept() {
        Ok((stream, _)) => Some(stream),
        Err(_) => None,
    }
}

/// Tells a connection that no worker is free, and reads away what it has sent: where that were unread, its end would not only end the
/// connection but break it, and the line could be lost. None of that waits.
fn tell_busy(stream: &TcpStream) {
    if stream.set_nonblocking(true).is_err() {
        return;
    }
    let mut stream = stream;
    let _ = stream.write(BUSY);
    let _ = stream.shutdown(Shutdown::Write);
    let mut piece = [0; PIECE];
    for _ in 0..MOST_PIECES {
        match stream.read(&mut piece) {
            Ok(0) | Err(_) => return,
            Ok(_) => {}
        }
    }
}
