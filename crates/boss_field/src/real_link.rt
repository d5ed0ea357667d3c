ghost use Rattle.std.specs.Prelude.{◌≡◌, ◌≤◌, [], false, IfOk, length};
ghost use Rattle.boss_outside.specs.Counts.{one_more};

use crate::reason::{Reason, of_name};
use crate::silence::Silences;
use arrayvec::ArrayVec;
use boss_model::RETRY_AFTER;
use boss_outside::{Failed, Got, Link};
use std::io::{self, ErrorKind, Read, Write};
use std::net::{Net, SocketAddr, TcpListener, TcpStream, ToSocketAddrs};
use std::time::{Clock, Duration, Instant};

/// How long a host that could not be reached is left alone, in milliseconds. It is less than the pause between two
/// tries of a point, so that each such try asks again.
const LEFT_ALONE: u64 = RETRY_AFTER - 1_000;

/// How many of the addresses of a name are tried.
const MOST_ADDRESSES: usize = 4;

/// How often a read is tried that a signal came between.
const TRIES: u32 = 1_000;

/// How many bytes of a response tell whether its unit answered, and the places in it of the unit, the function and the code
/// (MODBUS Messaging on TCP/IP 1.0b, section 3.1.3).
const TOLD: usize = 9;

const UNIT: usize = 6;

const FUNCTION: usize = 7;

const CODE: usize = 8;

/// How long the name of a host is whose connection may be kept while one of its units is left alone.
const LONGEST_HOST: usize = 255;

/// A TCP connection to one host at a time. An exchange begins with a connection, or over one that there is with what is sent, and has one
/// time in all: once it is over each call fails, however often the host sent a byte meanwhile. Looking up a name is not cut short by it.
///
/// A connection that went stale is made anew before anything is sent over it: many devices end one that is idle for a
/// minute, and no write is to fail for that. After a host could not be reached, connecting fails at once for four
/// seconds: so of many points behind a host that is off only one waits for it.
///
/// A unit of the host that did not answer is left alone as well, the longer the longer it is silent, up to a minute: what is sent to it
/// fails at once meanwhile, and the connection is kept for the other units. That a gateway tells of it counts as silence (exceptions 10
/// and 11 of the MODBUS Application Protocol 1.1b3, section 7).
#[derive(Drop)]
pub struct RealLink<R> {
    rt: R,
    /// How long an exchange may take, in milliseconds.
    wait: u64,
    connection: Option<Connection>,
    /// When the exchange began that goes on.
    begun: Option<Instant>,
    /// Whether nothing was sent yet over a connection that was asked for: the exchange began with it.
    is_new: bool,
    /// When a host could not be reached, unless one was reached since.
    missed: Option<Instant>,
    /// Since when moments are counted.
    started: Option<Instant>,
    silences: Silences,
    /// The unit that was asked last, and the first bytes of what came since.
    asked: Option<u8>,
    heard: ArrayVec<u8, TOLD>,
    /// A connection that is kept while a unit is left alone.
    spare: Option<Connection>,
    /// Why the last call that failed did.
    reason: Option<Reason>,
    faults: u64,
}

#[derive(Drop)]
struct Connection {
    stream: TcpStream,
    address: SocketAddr,
    host: ArrayVec<u8, LONGEST_HOST>,
}

impl<R: Net<Listener = TcpListener, Stream = TcpStream> + Clock + Copy> RealLink<R> {
    /// A link that is not connected, whose exchanges may take so many milliseconds. `rt` is what connects it.
    pub fn new(rt: R, wait: u64) -> RealLink<R>
        ensures { result.faults ≡ 0 }
    {
        RealLink {
            rt,
            wait,
            connection: None,
            begun: None,
            is_new: false,
            missed: None,
            started: Instant::now(&rt).ok(),
            silences: Silences::new(),
            asked: None,
            heard: ArrayVec::new(),
            spare: None,
            reason: None,
            faults: 0,
        }
    }

    /// Why the last call that failed did.
    pub fn reason(&self) -> Option<Reason> {
        self.reason
    }

    /// Counts a fault, and keeps why it was one.
    fn fault(&mut self, reason: Reason) -> Failed
        ensures { self.new.faults ≡ one_more self.old.faults }
    {
        self.reason = Some(reason);
        self.faults = self.faults.saturating_add(1);
        Failed
    }

    /// The moment, in milliseconds since the link was made.
    fn now(&self) -> u64 {
        match self.started.map(|started| started.elapsed(&self.rt)) {
            Some(Ok(passed)) => u64::try_from(passed.as_millis()).unwrap_or(u64::MAX),
            _ => 0,
        }
    }

    /// Begins an exchange.
    fn begin(&mut self)
        ensures { self.new.faults ≡ self.old.faults }
    {
        self.begun = Instant::now(&self.rt).ok();
    }

    /// How much of the exchange's time is left, a millisecond at least; none once it is over.
    fn left(&self) -> io::Result<Duration> {
        let Some(begun) = self.begun else {
            return Err(ErrorKind::TimedOut.into());
        };
        let passed = begun.elapsed(&self.rt)?.as_millis();
        if passed >= u128::from(self.wait) {
            return Err(ErrorKind::TimedOut.into());
        }
        Ok(Duration::from_millis(self.wait - passed as u64))
    }

    /// Whether no host is to be tried for now.
    fn is_left_alone(&self) -> bool {
        let Some(missed) = self.missed else {
            return false;
        };
        match missed.elapsed(&self.rt) {
            Ok(passed) => passed < Duration::from_millis(LEFT_ALONE),
            Err(_) => false,
        }
    }

    /// Connects to the first address of the host that accepts.
    fn reach(&self, host: &[u8]) -> io::Result<Connection> {
        let Ok(host) = str::from_utf8(host) else {
            return Err(ErrorKind::InvalidInput.into());
        };
        let mut last = io::Error::from(ErrorKind::NotFound);
        let addresses = host.to_socket_addrs(&self.rt).map_err(of_name)?;
        for address in addresses.take(MOST_ADDRESSES) {
            match self.connect_to(address, host.as_bytes()) {
                Ok(connection) => return Ok(connection),
                Err(reason) => last = reason,
            }
        }
        Err(last)
    }

    /// Connects to this address, one of the host's.
    fn connect_to(&self, address: SocketAddr, host: &[u8]) -> io::Result<Connection> {
        let stream = TcpStream::connect_timeout(&self.rt, &address, self.left()?)?;
        stream.set_nodelay(true)?;
        let mut name = ArrayVec::new();
        let _ = name.try_extend_from_slice(host);
        Ok(Connection {
            stream,
            address,
            host: name,
        })
    }

    /// Takes up again the connection that was kept while a unit was left alone, where it leads to this host and is as it was left.
    fn take_up(&mut self, host: &[u8]) -> bool
        ensures { self.new.faults ≡ self.old.faults }
    {
        let Some(spare) = self.spare.take() else {
            return false;
        };
        if spare.host.as_slice() != host || !is_fresh(&spare.stream) {
            return false;
        }
        self.connection = Some(spare);
        true
    }

    /// Keeps a new connection, or when it could not be made.
    fn keep(&mut self, connection: io::Result<Connection>) -> io::Result<()>
        ensures { self.new.faults ≡ self.old.faults }
    {
        match connection {
            Ok(connection) => {
                self.connection = Some(connection);
                self.missed = None;
                Ok(())
            }
            Err(reason) => {
                self.missed = Instant::now(&self.rt).ok();
                Err(reason)
            }
        }
    }

    /// Connects again to the same address where the connection went stale. A name is not looked up again.
    fn refresh(&mut self) -> io::Result<()>
        ensures { self.new.faults ≡ self.old.faults }
    {
        let Some(connection) = &self.connection else {
            return Err(ErrorKind::NotConnected.into());
        };
        if is_fresh(&connection.stream) {
            return Ok(());
        }
        let made = self.connect_to(connection.address, connection.host.as_slice());
        self.connection = None;
        self.keep(made)
    }

    /// Sends all these bytes.
    fn send_all(&self, bytes: &[u8]) -> io::Result<()> {
        let Some(connection) = &self.connection else {
            return Err(ErrorKind::NotConnected.into());
        };
        let mut stream: &TcpStream = &connection.stream;
        stream.set_write_timeout(Some(self.left()?))?;
        stream.write_all(bytes)
    }

    /// Reads, and tries again where a signal came between.
    fn read_some(&self, into: &mut [u8]) -> io::Result<usize>
        ensures { IfOk result (λ count. count ≤ length into.new) }
    {
        let Some(connection) = &self.connection else {
            return Err(ErrorKind::NotConnected.into());
        };
        let mut stream: &TcpStream = &connection.stream;
        for _ in 0..TRIES {
            stream.set_read_timeout(Some(self.left()?))?;
            match stream.read(into) {
                Ok(count) => return Ok(count),
                Err(reason) if reason.kind() == ErrorKind::Interrupted => {}
                Err(reason) => return Err(reason),
            }
        }
        Err(ErrorKind::Interrupted.into())
    }
}

impl<R: Net<Listener = TcpListener, Stream = TcpStream> + Clock + Copy> RealLink<R> {
    /// Notes that this frame is about to be sent. Whether its unit is to be left alone.
    fn ask(&mut self, frame: &[u8]) -> bool
        ensures { self.new.faults ≡ self.old.faults }
    {
        self.heard.clear();
        self.asked = frame.get(UNIT).copied();
        match self.asked {
            Some(unit) => {
                let now = self.now();
                self.silences.leaves_alone(u32::from(unit), now)
            }
            None => false,
        }
    }

    /// Notes these bytes of a response, and whether the unit answered once they tell.
    fn hear(&mut self, bytes: &[u8])
        ensures { self.new.faults ≡ self.old.faults }
    {
        let room = TOLD - self.heard.len();
        let _ = self
            .heard
            .try_extend_from_slice(&bytes[..bytes.len().min(room)]);
        if room == 0 || self.heard.len() < TOLD {
            return;
        }
        let is_silence = self.heard[FUNCTION] >= 128 && matches!(self.heard[CODE], 10 | 11);
        self.note_answer(!is_silence);
    }

    /// Notes whether the unit that was asked answered.
    fn note_answer(&mut self, answered: bool)
        ensures { self.new.faults ≡ self.old.faults }
    {
        let Some(unit) = self.asked else {
            return;
        };
        let now = self.now();
        match answered {
            true => self.silences.answered(u32::from(unit)),
            false => self.silences.missed(u32::from(unit), now),
        }
    }
}

/// Whether a connection is as it was left: its host neither ended it nor sent what nobody asked for. A host may end it
/// right after this look; then one write fails.
fn is_fresh(stream: &TcpStream) -> bool {
    if stream.set_nonblocking(true).is_err() {
        return false;
    }
    let is_quiet = match stream.peek(&mut [0]) {
        Ok(_) => false,
        Err(reason) => reason.kind() == ErrorKind::WouldBlock,
    };
    stream.set_nonblocking(false).is_ok() && is_quiet
}

/// Whether a read failed since nothing came in time.
fn is_silence(kind: ErrorKind) -> bool {
    matches!(kind, ErrorKind::TimedOut | ErrorKind::WouldBlock)
}

impl<R: Net<Listener = TcpListener, Stream = TcpStream> + Clock + Copy> Link for RealLink<R> {
    ghost tells = { ⊥ };

    ghost sent = { λ link. [] };

    ghost received = { λ link. [] };

    ghost left = { λ link. [] };

    ghost hosts = { λ link. [] };

    ghost connected = { λ link. false };

    ghost faults = { λ link. link.faults };

    fn connect(&mut self, host: &[u8]) -> Result<(), Failed> {
        self.connection = None;
        if self.is_left_alone() {
            return Err(self.fault(Reason::LeftAlone));
        }
        self.begin();
        self.is_new = true;
        if self.take_up(host) {
            return Ok(());
        }
        let reached = self.reach(host);
        match self.keep(reached) {
            Ok(()) => Ok(()),
            Err(reason) => Err(self.fault(Reason::Unreached(reason.kind()))),
        }
    }

    fn send(&mut self, bytes: &[u8]) -> Result<(), Failed> {
        if !self.is_new {
            self.begin();
        }
        self.is_new = false;
        if self.ask(bytes) {
            self.spare = self.connection.take();
            return Err(self.fault(Reason::LeftAlone));
        }
        if let Err(reason) = self.refresh() {
            return Err(self.fault(Reason::Unreached(reason.kind())));
        }
        match self.send_all(bytes) {
            Ok(()) => Ok(()),
            Err(reason) => Err(self.fault(Reason::Broken(reason.kind()))),
        }
    }

    fn receive(&mut self, into: &mut [u8]) -> Got {
        match self.read_some(into) {
            Ok(0) => Got::Finish,
            Ok(count) => {
                self.hear(&into[..count]);
                Got::Bytes(count)
            }
            Err(reason) => {
                self.note_answer(!is_silence(reason.kind()));
                self.fault(Reason::Broken(reason.kind()));
                Got::Failed
            }
        }
    }

    fn shut(&mut self) {
        self.connection = None;
    }
}
