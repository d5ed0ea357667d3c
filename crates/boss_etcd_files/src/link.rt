//! A connection to one member of etcd at a time.

ghost use Rattle.std.specs.Prelude.{◌≡◌, ◌≤◌, [], false, IfOk, length};
ghost use Rattle.boss_outside.specs.Counts.{one_more};

use crate::reason::{Reason, name_fault};
use arrayvec::ArrayVec;
use boss_adapters::say_aside;
use boss_outside::{Failed, Got, Link};
use std::io::{self, Eprint, ErrorKind, Read, Write};
use std::net::{Net, SocketAddr, TcpListener, TcpStream, ToSocketAddrs};
use std::time::{Clock, Duration, Instant};
use std::{str, thread};

/// How long an exchange may take, in milliseconds: connecting, sending and receiving together. Looking up a name is not cut short by it.
const EXCHANGE: u64 = 5_000;

/// How long connecting may take of that, in milliseconds.
const CONNECTING: u64 = 1_000;

/// How long members are asked again once one has not answered, in milliseconds.
const PATIENCE: u64 = 10_000;

/// The pause before the first time that a member is asked again, in milliseconds. Each later one is twice as long, up to the longest.
const SHORTEST_PAUSE: u64 = 100;

/// The longest of these pauses, in milliseconds.
const LONGEST_PAUSE: u64 = 2_000;

/// How many of the addresses of a name are tried.
const MOST_ADDRESSES: usize = 4;

/// How often a read is tried that a signal came between.
const TRIES: u32 = 1_000;

/// How a response begins that took what was asked.
const TAKEN: &[u8] = b"HTTP/1.1 200";

/// How long the word of a member is at most.
const LONGEST_MEMBER: usize = 260;

/// A TCP connection to one member at a time. An exchange begins with what is sent, or with the connection before it, and has one time in all;
/// once it is over each call fails.
///
/// A connection that went stale is made anew before anything is sent over it. After a member did not answer, or answered that it took
/// nothing, the next connection is made after a pause, which grows; ten seconds after the first such answer connecting fails at once. The first is
/// said on the standard error, and once more when a member answers again.
#[derive(Drop)]
pub struct EtcdLink {
    rt: HostRuntime,
    connection: Option<Connection>,
    /// The word of the member that was connected to last.
    member: ArrayVec<u8, LONGEST_MEMBER>,
    /// When the exchange began that goes on.
    begun: Option<Instant>,
    /// Whether nothing was sent yet over a connection that was asked for: the exchange began with it.
    is_new: bool,
    /// The first bytes of what came in this exchange.
    heard: ArrayVec<u8, 12>,
    /// Whether it was counted as missed.
    is_missed: bool,
    gap: Option<Gap>,
    /// Why the last exchange that was missed was.
    reason: Option<Reason>,
    faults: u64,
}

#[derive(Drop)]
struct Connection {
    stream: TcpStream,
    address: SocketAddr,
}

/// Since when no member took what it was asked, and how many exchanges were missed since.
#[derive(Clone, Copy)]
struct Gap {
    since: Instant,
    missed: u32,
}

impl EtcdLink {
    /// A link that is not connected. `rt` is what connects it, and what lines are written by.
    pub fn new(rt: HostRuntime) -> EtcdLink
        ensures { result.faults ≡ 0 }
    {
        EtcdLink {
            rt,
            connection: None,
            member: ArrayVec::new(),
            begun: None,
            is_new: false,
            heard: ArrayVec::new(),
            is_missed: false,
            gap: None,
            reason: None,
            faults: 0,
        }
    }

    /// Why the last exchange that was missed was.
    pub fn reason(&self) -> Option<Reason> {
        self.reason
    }

    /// Begins an exchange.
    fn begin(&mut self)
        ensures { self.new.faults ≡ self.old.faults }
    {
        self.begun = Instant::now(&self.rt).ok();
        self.heard.clear();
        self.is_missed = false;
    }

    /// How much of the exchange's time is left, a millisecond at least; none once it is over.
    fn left(&self) -> io::Result<Duration> {
        let Some(begun) = self.begun else {
            return Err(ErrorKind::TimedOut.into());
        };
        let passed = begun.elapsed(&self.rt)?.as_millis();
        if passed >= u128::from(EXCHANGE) {
            return Err(ErrorKind::TimedOut.into());
        }
        Ok(Duration::from_millis(EXCHANGE - passed as u64))
    }

    /// Counts a fault of this exchange.
    fn fault(&mut self, reason: Reason) -> Failed
        ensures { self.new.faults ≡ one_more self.old.faults }
    {
        self.miss(reason);
        self.faults = self.faults.saturating_add(1);
        Failed
    }

    /// Notes that this exchange is missed. The first of a gap is said.
    fn miss(&mut self, reason: Reason)
        ensures { self.new.faults ≡ self.old.faults }
    {
        self.reason = Some(reason);
        if self.is_missed {
            return;
        }
        self.is_missed = true;
        match &mut self.gap {
            Some(gap) => gap.missed = gap.missed.saturating_add(1),
            None => self.begin_gap(reason),
        }
    }

    /// Notes the first missed exchange of a gap, and says it.
    fn begin_gap(&mut self, reason: Reason)
        ensures { self.new.faults ≡ self.old.faults }
    {
        let begun = match self.begun {
            Some(begun) => Some(begun),
            None => Instant::now(&self.rt).ok(),
        };
        self.gap = begun.map(|since| Gap { since, missed: 1 });
        let member = str::from_utf8(&self.member).unwrap_or("");
        say_aside(
            &self.rt,
            format_args!("etcd at {member}: {reason}; the next member is asked"),
        );
    }

    /// Notes that a member took what it was asked.
    fn end_gap(&mut self)
        ensures { self.new.faults ≡ self.old.faults }
    {
        let Some(gap) = self.gap.take() else {
            return;
        };
        let passed = passed_since(&self.rt, &gap.since);
        say_aside(
            &self.rt,
            format_args!("etcd answers again after {passed} ms"),
        );
    }

    /// Waits before a member is asked again. Whether there is any use in that.
    fn pause(&self) -> bool {
        let Some(gap) = &self.gap else {
            return true;
        };
        if passed_since(&self.rt, &gap.since) >= PATIENCE {
            return false;
        }
        thread::sleep(&self.rt, Duration::from_millis(pause_after(gap.missed)));
        true
    }

    /// Connects to the first address of the member that accepts.
    fn reach(&self, member: &[u8]) -> io::Result<Connection> {
        let Ok(member) = str::from_utf8(member) else {
            return Err(ErrorKind::InvalidInput.into());
        };
        let mut last = io::Error::from(ErrorKind::NotFound);
        let addresses = member.to_socket_addrs(&self.rt).map_err(name_fault)?;
        for address in addresses.take(MOST_ADDRESSES) {
            match self.connect_to(address) {
                Ok(connection) => return Ok(connection),
                Err(reason) => last = reason,
            }
        }
        Err(last)
    }

    /// Connects to this address.
    fn connect_to(&self, address: SocketAddr) -> io::Result<Connection> {
        let wait = self.left()?.min(Duration::from_millis(CONNECTING));
        let stream = TcpStream::connect_timeout(&self.rt, &address, wait)?;
        stream.set_nodelay(true)?;
        Ok(Connection { stream, address })
    }

    /// Connects again to the same address where the connection went stale. A name is not looked up again.
    fn refresh(&mut self) -> io::Result<()>
        ensures { self.new.faults ≡ self.old.faults }
    {
        let Some(connection) = &self.connection else {
            return Err(ErrorKind::NotConnected.into());
        };
        if is_fresh(&connection.stream) {
            return Ok(());
        }
        let made = self.connect_to(connection.address);
        self.connection = None;
        self.connection = Some(made?);
        Ok(())
    }

    /// Sends all these bytes.
    fn send_all(&self, bytes: &[u8]) -> io::Result<()> {
        let Some(connection) = &self.connection else {
            return Err(ErrorKind::NotConnected.into());
        };
        let mut stream: &TcpStream = &connection.stream;
        stream.set_write_timeout(Some(self.left()?))?;
        stream.write_all(bytes)
    }

    /// Reads, and tries again where a signal came between.
    fn read_some(&self, into: &mut [u8]) -> io::Result<usize>
        ensures { IfOk result (λ count. count ≤ length into.new) }
    {
        let Some(connection) = &self.connection else {
            return Err(ErrorKind::NotConnected.into());
        };
        let mut stream: &TcpStream = &connection.stream;
        for _ in 0..TRIES {
            stream.set_read_timeout(Some(self.left()?))?;
            match stream.read(into) {
                Ok(count) => return Ok(count),
                Err(reason) if reason.kind() == ErrorKind::Interrupted => {}
                Err(reason) => return Err(reason),
            }
        }
        Err(ErrorKind::Interrupted.into())
    }

    /// Notes these bytes of a response, and once they tell whether the member took what it was asked.
    fn hear(&mut self, bytes: &[u8])
        ensures { self.new.faults ≡ self.old.faults }
    {
        let room = TAKEN.len() - self.heard.len().min(TAKEN.len());
        if room == 0 {
            return;
        }
        let _ = self
            .heard
            .try_extend_from_slice(&bytes[..bytes.len().min(room)]);
        if self.heard.len() < TAKEN.len() {
            return;
        }
        if self.heard.as_slice() == TAKEN {
            self.end_gap();
        } else {
            self.miss(Reason::Refused);
        }
    }
}

/// The milliseconds since then.
fn passed_since(rt: &HostRuntime, since: &Instant) -> u64 {
    match since.elapsed(rt) {
        Ok(passed) => u64::try_from(passed.as_millis()).unwrap_or(u64::MAX),
        Err(_) => u64::MAX,
    }
}

/// The pause after so many missed exchanges, in milliseconds.
fn pause_after(missed: u32) -> u64 {
    let doubled = missed.saturating_sub(1).min(5);
    (SHORTEST_PAUSE << doubled).min(LONGEST_PAUSE)
}

/// Whether a connection is as it was left: its host neither ended it nor sent what nobody asked for.
fn is_fresh(stream: &TcpStream) -> bool {
    if stream.set_nonblocking(true).is_err() {
        return false;
    }
    let is_quiet = match stream.peek(&mut [0]) {
        Ok(_) => false,
        Err(reason) => reason.kind() == ErrorKind::WouldBlock,
    };
    stream.set_nonblocking(false).is_ok() && is_quiet
}

impl Link for EtcdLink {
    ghost tells = { ⊥ };

    ghost sent = { λ link. [] };

    ghost received = { λ link. [] };

    ghost left = { λ link. [] };

    ghost hosts = { λ link. [] };

    ghost connected = { λ link. false };

    ghost faults = { λ link. link.faults };

    fn connect(&mut self, host: &[u8]) -> Result<(), Failed> {
        self.connection = None;
        let has_use = self.pause();
        self.begin();
        self.is_new = true;
        self.member.clear();
        let _ = self.member.try_extend_from_slice(host);
        if !has_use {
            return Err(self.fault(Reason::Silent));
        }
        match self.reach(host) {
            Ok(connection) => {
                self.connection = Some(connection);
                Ok(())
            }
            Err(reason) => Err(self.fault(Reason::Unreached(reason.kind()))),
        }
    }

    fn send(&mut self, bytes: &[u8]) -> Result<(), Failed> {
        if !self.is_new {
            self.begin();
        }
        self.is_new = false;
        if let Err(reason) = self.refresh() {
            return Err(self.fault(Reason::Unreached(reason.kind())));
        }
        match self.send_all(bytes) {
            Ok(()) => Ok(()),
            Err(reason) => Err(self.fault(Reason::Broken(reason.kind()))),
        }
    }

    fn receive(&mut self, into: &mut [u8]) -> Got {
        match self.read_some(into) {
            Ok(0) => {
                self.miss(Reason::Broken(ErrorKind::ConnectionAborted));
                Got::Finish
            }
            Ok(count) => {
                self.hear(&into[..count]);
                Got::Bytes(count)
            }
            Err(reason) => {
                self.fault(Reason::Broken(reason.kind()));
                Got::Failed
            }
        }
    }

    fn shut(&mut self) {
        self.connection = None;
    }
}
