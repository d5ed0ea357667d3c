//! The two ends of a connection that was accepted.

ghost use Rattle.std.specs.Prelude.{◌≡◌, []};
ghost use Rattle.boss_outside.specs.Counts.{one_more};

use crate::patience::Patience;
use crate::showing::{Showing, tells_of_a_key};
use crate::signals::read_past_signals;
use boss_outside::{Failed, Got, Hears, Sink, Source};
use std::alloc::Global;
use std::io::{ErrorKind, Write};
use std::net::TcpStream;
use std::sync::Arc;
use std::sync::atomic::{AtomicBool, Ordering};
use std::time::Duration;

/// How long one call to write waits where nothing is taken, in seconds.
const STALL: u64 = 5;

/// How many such calls in a row may take nothing: for a minute in all, behind one that took a part and then waited as long.
const MOST_STALLS: u32 = 12;

/// What comes in by a connection. The connection closes when its source and its sink are dropped. A read fails where the end of a line is
/// overdue: a minute after the connection was made where none came yet, and a minute after a line was begun. Between two lines it waits.
/// Where its worker is kept for whoever shows a key, a read but the first also fails where a key is overdue (`Showing`).
#[derive(Drop)]
pub struct RealSource {
    stream: Arc<TcpStream, Global>,
    patience: Patience,
    /// Its worker is kept for whoever shows a key.
    showing: Option<Showing>,
    /// Something was read.
    has_read: bool,
    /// The last read had a time limit.
    is_limited: bool,
    faults: u64,
}

impl RealSource {
    pub(crate) fn new(stream: Arc<TcpStream, Global>, showing: Option<Showing>) -> RealSource
        ensures { result.faults ≡ 0 }
    {
        RealSource {
            stream,
            patience: Patience::new(),
            showing,
            has_read: false,
            is_limited: false,
            faults: 0,
        }
    }

    /// How long the next read may wait. A key is due before the end of any line.
    fn left(&self) -> Option<Duration> {
        match self.showing.as_ref().and_then(Showing::left) {
            Some(left) => Some(left),
            None => self.patience.left(),
        }
    }

    /// Whether a key is overdue. Whoever was read from late may have sent it in time.
    fn is_overdue(&self) -> bool {
        match &self.showing {
            Some(showing) => self.has_read && showing.is_overdue(),
            None => false,
        }
    }

    /// Counts a fault.
    fn fault(&mut self) -> Got
        ensures counts { self.new ≡ record self.old { faults = one_more self.old.faults } }
        ensures fails { result ≡ Got.Failed }
    {
        self.faults = self.faults.saturating_add(1);
        Got::Failed
    }

    /// Gives the next read as long as there is patience. Where the system takes no limit, there is none.
    fn limit(&mut self)
        ensures { self.new.faults ≡ self.old.faults }
    {
        let left = self.left();
        if left.is_some() || self.is_limited {
            let _ = self.stream.set_read_timeout(left);
        }
        self.is_limited = left.is_some();
    }
}

impl Source for RealSource {
    ghost tells = { ⊥ };

    ghost left = { λ source. [] };

    ghost held = { λ source. [] };

    ghost faults = { λ source. source.faults };

    ghost suffix = { λ source told. absurd told };

    fn read(&mut self, into: &mut [u8]) -> Got {
        if self.is_overdue() {
            return self.fault();
        }
        self.limit();
        self.has_read = true;
        let mut stream: &TcpStream = &self.stream;
        match read_past_signals(&mut stream, into) {
            Ok(0) => Got::Finish,
            Ok(count) => {
                self.patience.hear(&into[..count]);
                Got::Bytes(count)
            }
            Err(Failed) => self.fault(),
        }
    }
}

/// It tells of no read, and has nothing to be shown.
impl Hears<RealSink> for RealSource {
    fn show(&mut self, _sink: &RealSink) {}
}

/// What goes out by a connection. The connection closes when its source and its sink are dropped. A write fails where no byte of it is
/// taken for a minute.
#[derive(Drop)]
pub struct RealSink {
    stream: Arc<TcpStream, Global>,
    /// Whether it told that a key was shown, where its worker is kept for whoever shows one.
    is_shown: Option<Arc<AtomicBool, Global>>,
    faults: u64,
}

impl RealSink {
    pub(crate) fn new(
        stream: Arc<TcpStream, Global>,
        is_shown: Option<Arc<AtomicBool, Global>>,
    ) -> RealSink
        ensures { result.faults ≡ 0 }
    {
        // Where this can't be had, whoever reads nothing holds its worker until the system finds it gone.
        let _ = stream.set_write_timeout(Some(Duration::from_secs(STALL)));
        RealSink {
            stream,
            is_shown,
            faults: 0,
        }
    }

    /// Notes where these answers tell that a key was shown.
    fn note(&self, answers: &[u8]) {
        if let Some(is_shown) = &self.is_shown
            && !is_shown.load(Ordering::SeqCst)
            && tells_of_a_key(answers)
        {
            is_shown.store(true, Ordering::SeqCst);
        }
    }
}

/// Writes all these bytes, while some are taken now and then.
fn write_while_taken(stream: &TcpStream, bytes: &[u8]) -> Result<(), Failed> {
    let mut stream = stream;
    let mut taken = 0;
    let mut stalls: u32 = 0;
    for _ in 0..u64::MAX {
        if taken >= bytes.len() {
            return Ok(());
        }
        match stream.write(&bytes[taken..]) {
            Ok(0) => return Err(Failed),
            Ok(count) => {
                taken += count;
                stalls = 0;
            }
            Err(reason) if reason.kind() == ErrorKind::Interrupted => {}
            Err(reason) if reason.kind() == ErrorKind::WouldBlock && stalls < MOST_STALLS - 1 => {
                stalls += 1;
            }
            Err(_) => return Err(Failed),
        }
    }
    Err(Failed)
}

impl Sink for RealSink {
    ghost tells = { ⊥ };

    ghost taken = { λ sink. [] };

    ghost faults = { λ sink. sink.faults };

    fn write(&mut self, bytes: &[u8]) -> Result<(), Failed> {
        self.note(bytes);
        if write_while_taken(&self.stream, bytes).is_ok() {
            return Ok(());
        }
        self.faults = self.faults.saturating_add(1);
        Err(Failed)
    }
}
