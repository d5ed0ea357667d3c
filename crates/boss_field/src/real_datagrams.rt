ghost use Rattle.std.specs.Prelude.{◌≡◌, ◌≤◌, [], IfOk, IfSome, length};
ghost use Rattle.boss_outside.specs.Counts.{one_more};

use crate::reason::{Reason, of_name};
use crate::silence::Silences;
use arrayvec::ArrayVec;
use boss_outside::{Datagrams, Failed, Heard};
use std::io::{self, ErrorKind};
use std::net::{Net, SocketAddr, ToSocketAddrs, UdpSocket};
use std::time::{Clock, Duration, Instant};

/// How many datagrams that lie there are read away before a send.
const MOST_LATE: u32 = 64;

/// How often a read is tried that a signal came between.
const TRIES: u32 = 1_000;

/// How many bytes of the last datagram are kept, for whoever tells what a device was found with.
const KEPT: usize = 64;

/// Where a datagram says that it goes on behind a router, and to which network and station (ASHRAE 135, clause 6.2).
const CONTROL: usize = 5;

const NETWORK: usize = 6;

const STATION: usize = 9;

const HAS_DESTINATION: u8 = 0x20;

/// A UDP socket to one host, which the system lets hear that host alone. An answer is waited for as long after each send.
///
/// What lies there before a send, as a late answer to an earlier one, is read away. A station that did not answer is left alone the
/// longer, the longer it is silent, up to a minute: what is sent to it fails at once meanwhile.
#[derive(Drop)]
pub struct RealDatagrams<R> {
    rt: R,
    /// How long an answer is waited for, in milliseconds.
    wait: u64,
    socket: Option<UdpSocket>,
    sent_at: Option<Instant>,
    last: ArrayVec<u8, KEPT>,
    /// Since when moments are counted.
    started: Option<Instant>,
    silences: Silences,
    /// What was sent last, and whether its silence was counted.
    asked: ArrayVec<u8, KEPT>,
    is_counted: bool,
    /// Why the last call that failed did.
    reason: Option<Reason>,
    faults: u64,
}

impl<R: Net + Clock + Copy> RealDatagrams<R> {
    /// A socket that is not open, which waits so many milliseconds for an answer. `rt` is what opens it.
    pub fn new(rt: R, wait: u64) -> RealDatagrams<R>
        ensures { result.faults ≡ 0 }
    {
        RealDatagrams {
            rt,
            wait,
            socket: None,
            sent_at: None,
            last: ArrayVec::new(),
            started: Instant::now(&rt).ok(),
            silences: Silences::new(),
            asked: ArrayVec::new(),
            is_counted: false,
            reason: None,
            faults: 0,
        }
    }

    /// Why the last call that failed did.
    pub fn reason(&self) -> Option<Reason> {
        self.reason
    }

    /// The moment, in milliseconds since the socket was made.
    fn now(&self) -> u64 {
        match self.started.map(|started| started.elapsed(&self.rt)) {
            Some(Ok(passed)) => u64::try_from(passed.as_millis()).unwrap_or(u64::MAX),
            _ => 0,
        }
    }

    /// Notes that this datagram is about to be sent. Whether its station is to be left alone; one that is sent again is not.
    fn ask(&mut self, bytes: &[u8]) -> bool
        ensures { self.new.faults ≡ self.old.faults }
    {
        if self.asked.as_slice() == bytes {
            return false;
        }
        self.asked.clear();
        let _ = self.asked.try_extend_from_slice(bytes);
        self.is_counted = false;
        let now = self.now();
        self.silences.leaves_alone(station_of(bytes), now)
    }

    /// Notes that no answer came to what was sent last, once for what is sent again.
    fn note_silence(&mut self)
        ensures { self.new.faults ≡ self.old.faults }
    {
        if self.is_counted {
            return;
        }
        self.is_counted = true;
        let now = self.now();
        self.silences.missed(station_of(self.asked.as_slice()), now);
    }

    /// The datagram that was heard last, where it has at most 64 bytes.
    pub fn last(&self) -> &[u8] {
        self.last.as_slice()
    }

    /// Counts a fault, and keeps why it was one.
    fn fault(&mut self, reason: Reason) -> Failed
        ensures { self.new.faults ≡ one_more self.old.faults }
    {
        self.reason = Some(reason);
        self.faults = self.faults.saturating_add(1);
        Failed
    }

    /// Opens a socket to the first address of the host, from a port that the system chooses.
    fn reach(&self, host: &[u8]) -> io::Result<UdpSocket> {
        let Ok(host) = str::from_utf8(host) else {
            return Err(ErrorKind::InvalidInput.into());
        };
        let Some(address) = host.to_socket_addrs(&self.rt).map_err(of_name)?.next() else {
            return Err(ErrorKind::NotFound.into());
        };
        let from = match address {
            SocketAddr::V4(_) => "0.0.0.0:0",
            SocketAddr::V6(_) => "[::]:0",
        };
        let socket = UdpSocket::bind(&self.rt, from)?;
        socket.connect(address)?;
        Ok(socket)
    }

    /// Reads away what lies there.
    fn pass_over(&self) {
        let Some(socket) = &self.socket else {
            return;
        };
        if socket.set_nonblocking(true).is_err() {
            return;
        }
        for _ in 0..MOST_LATE {
            if socket.recv(&mut [0; 512]).is_err() {
                break;
            }
        }
        let _ = socket.set_nonblocking(false);
    }

    /// Sends, over a socket that waits.
    fn send_whole(&self, bytes: &[u8]) -> io::Result<()> {
        let Some(socket) = &self.socket else {
            return Err(ErrorKind::NotConnected.into());
        };
        if socket.send(bytes)? == bytes.len() {
            Ok(())
        } else {
            Err(ErrorKind::WriteZero.into())
        }
    }

    /// What is left of the wait since the last send; none once it is over.
    fn left(&self) -> Option<Duration> {
        let passed = match self.sent_at?.elapsed(&self.rt) {
            Ok(passed) => passed,
            Err(_) => return None,
        };
        let left = Duration::from_millis(self.wait).checked_sub(passed)?;
        if left.is_zero() { None } else { Some(left) }
    }

    /// Waits for a datagram, and tries again where a signal came between; none where none came in time.
    fn hear_some(&self, into: &mut [u8]) -> io::Result<Option<usize>>
        ensures count { IfOk result (λ heard. IfSome heard (λ count. count ≤ length into.old)) }
        ensures room { length into.new ≡ length into.old }
    {
        let Some(socket) = &self.socket else {
            return Err(ErrorKind::NotConnected.into());
        };
        for _ in 0..TRIES {
            let Some(left) = self.left() else {
                return Ok(None);
            };
            socket.set_read_timeout(Some(left))?;
            match socket.recv(into) {
                Ok(count) => return Ok(Some(count)),
                Err(reason) => match reason.kind() {
                    ErrorKind::WouldBlock | ErrorKind::TimedOut => return Ok(None),
                    ErrorKind::Interrupted => {}
                    _ => return Err(reason),
                },
            }
        }
        Err(ErrorKind::Interrupted.into())
    }

    /// Keeps a datagram, where there is room for it.
    fn keep(&mut self, bytes: &[u8])
        ensures { self.new.faults ≡ self.old.faults }
    {
        self.last.clear();
        let _ = self.last.try_extend_from_slice(bytes);
    }
}

/// The station that a datagram goes to, 0 where it is the host itself.
fn station_of(bytes: &[u8]) -> u32 {
    if bytes.len() <= STATION || bytes[CONTROL] & HAS_DESTINATION == 0 {
        return 0;
    }
    u32::from_be_bytes([1, bytes[NETWORK], bytes[NETWORK + 1], bytes[STATION]])
}

impl<R: Net + Clock + Copy> Datagrams for RealDatagrams<R> {
    ghost tells = { ⊥ };

    ghost sent = { λ socket. [] };

    ghost received = { λ socket. [] };

    ghost hosts = { λ socket. [] };

    ghost silences = { λ socket. 0 };

    ghost faults = { λ socket. socket.faults };

    fn open(&mut self, host: &[u8]) -> Result<(), Failed> {
        match self.reach(host) {
            Ok(socket) => {
                self.socket = Some(socket);
                Ok(())
            }
            Err(reason) => Err(self.fault(Reason::Unreached(reason.kind()))),
        }
    }

    fn send(&mut self, bytes: &[u8]) -> Result<(), Failed> {
        if self.ask(bytes) {
            return Err(self.fault(Reason::LeftAlone));
        }
        self.pass_over();
        self.sent_at = Instant::now(&self.rt).ok();
        match self.send_whole(bytes) {
            Ok(()) => Ok(()),
            Err(reason) => Err(self.fault(Reason::Unreached(reason.kind()))),
        }
    }

    fn hear(&mut self, into: &mut [u8]) -> Heard {
        match self.hear_some(into) {
            Ok(Some(count)) => {
                self.keep(&into[..count]);
                self.silences.answered(station_of(self.asked.as_slice()));
                Heard::Datagram(count)
            }
            Ok(None) => {
                self.note_silence();
                Heard::Silence
            }
            Err(reason) => {
                self.fault(Reason::Unreached(reason.kind()));
                Heard::Failed
            }
        }
    }
}
