ghost use Rattle.std.specs.Prelude.{◌≡◌, [], IfOk};
ghost use Rattle.boss_outside.specs.Counts.{one_more};

use crate::aside::say_aside;
use crate::peers::keep_alive;
use crate::showing::Showing;
use crate::{Door, RealSink, RealSource};
use boss_model::{NoMemory, PROGRAM_VERSION, SessionId};
use boss_outside::Failed;
use boss_outside_server::{Accepted, Announcement, Host};
use std::alloc::Global;
use std::io::{self, Eprint, ErrorKind};
use std::net::{Net, SocketAddr, TcpListener, TcpStream};
use std::sync::Arc;
use std::sync::atomic::AtomicBool;
use std::thread;
use std::time::{Clock, Duration};

/// How often an accept is tried that a signal came between, or whose client had gone.
const TRIES: u32 = 1_000;

/// How long an accept that failed is left before it is tried again, in milliseconds.
const ACCEPT_PAUSE: u64 = 1_000;

/// How often in a row it is left: for an hour.
const MOST_PAUSES: u32 = 3_600;

/// A TCP listener. All its parts wait at the same one, and the system hands each connection to one of them. A part that has
/// handed out its share says so without asking the system. On the standard error it says where it listens and what is served there, or why
/// it can't listen, and why a connection could not be accepted.
///
/// Where the system is short of something, as of descriptors, an accept fails that could succeed later. So it is tried again, each second
/// for an hour, unless the listener itself is wrong. Peers that are gone without a word are found out by the system (`keep_alive`),
/// one that reads nothing by its sink, and one that says nothing by its source (`RealSink`, `RealSource`).
///
/// Where it has a door (`stand_at`), a connection for which no part accepts is turned away there. That was handed to nobody and counts
/// nowhere. Whether keys are asked for is no business of its own: it only says so (`say_keyed`).
///
/// Where workers are kept for whoever shows a key (`reserve` of what it announces), they are the first parts that are split off. Whoever
/// connects to one of these has a second to show one (`Showing`).
#[derive(Drop)]
pub struct RealHost<R> {
    alloc: Global,
    rt: R,
    listener: Option<Arc<TcpListener, Global>>,
    door: Option<Arc<Door, Global>>,
    is_keyed: bool,
    /// How many parts are still to be split off that are kept for whoever shows a key.
    reserve: u32,
    /// Whoever connects here has a second to show a key.
    is_kept: bool,
    handed: u64,
    share: u32,
    away: u64,
    faults: u64,
}

impl<R: Net<Listener = TcpListener, Stream = TcpStream> + Eprint + Clock + Copy> RealHost<R> {
    /// A host that listens nowhere yet. `rt` is what makes the listener.
    pub fn new(alloc: Global, rt: R) -> RealHost<R>
        ensures handed { ⟦<RealHost<R> as Host>⟧.handed result ≡ 0 }
        ensures share { ⟦<RealHost<R> as Host>⟧.share result ≡ 0 }
        ensures away { ⟦<RealHost<R> as Host>⟧.away result ≡ 0 }
        ensures faults { ⟦<RealHost<R> as Host>⟧.faults result ≡ 0 }
    {
        RealHost {
            alloc,
            rt,
            listener: None,
            door: None,
            is_keyed: false,
            reserve: 0,
            is_kept: false,
            handed: 0,
            share: 0,
            away: 0,
            faults: 0,
        }
    }

    /// From now on it and the parts that are split off it stand at this door, and the door's queue is that of where it listens next.
    pub fn stand_at(&mut self, door: Arc<Door, Global>)
        ensures handed { ⟦<RealHost<R> as Host>⟧.handed self.new ≡ ⟦<RealHost<R> as Host>⟧.handed self.old }
        ensures share { ⟦<RealHost<R> as Host>⟧.share self.new ≡ ⟦<RealHost<R> as Host>⟧.share self.old }
        ensures away { ⟦<RealHost<R> as Host>⟧.away self.new ≡ ⟦<RealHost<R> as Host>⟧.away self.old }
        ensures faults { ⟦<RealHost<R> as Host>⟧.faults self.new ≡ ⟦<RealHost<R> as Host>⟧.faults self.old }
    {
        self.door = Some(door);
    }

    /// Where it begins to listen it is to say that whoever connects has to show a key, or else that nobody has to.
    pub fn say_keyed(&mut self, is_keyed: bool)
        ensures handed { ⟦<RealHost<R> as Host>⟧.handed self.new ≡ ⟦<RealHost<R> as Host>⟧.handed self.old }
        ensures share { ⟦<RealHost<R> as Host>⟧.share self.new ≡ ⟦<RealHost<R> as Host>⟧.share self.old }
        ensures away { ⟦<RealHost<R> as Host>⟧.away self.new ≡ ⟦<RealHost<R> as Host>⟧.away self.old }
        ensures faults { ⟦<RealHost<R> as Host>⟧.faults self.new ≡ ⟦<RealHost<R> as Host>⟧.faults self.old }
    {
        self.is_keyed = is_keyed;
    }

    /// The address at which it listens, where it does.
    pub fn local_addr(&self) -> Option<SocketAddr> {
        self.listener.as_ref()?.local_addr().ok()
    }

    /// Counts a fault.
    fn fault(&mut self) -> Failed
        ensures { self.new ≡ record self.old { faults = one_more self.old.faults } }
    {
        self.faults = self.faults.saturating_add(1);
        Failed
    }

    /// A listener at this address, whose connections are kept alive.
    fn listen(&self, address: &str) -> io::Result<Arc<TcpListener, Global>> {
        let listener = TcpListener::bind(&self.rt, address)?;
        keep_alive(&listener);
        let listener = Arc::new(self.alloc, listener)?;
        if let Some(door) = &self.door {
            door.open(Arc::try_clone(&listener)?);
        }
        Ok(listener)
    }

    /// The two ends of the next connection. While it waits for that, none is turned away.
    fn meet(&self) -> io::Result<(RealSource, RealSink)>
        ensures { IfOk result (λ ends. (ends.0.faults ≡ 0) × (ends.1.faults ≡ 0)) }
    {
        let Some(door) = &self.door else {
            return self.connect();
        };
        door.go_in(&self.rt);
        let ends = self.connect();
        door.come_out();
        ends
    }

    /// The two ends of the next connection, which is asked for again after a pause where the accept failed and may succeed later.
    fn connect(&self) -> io::Result<(RealSource, RealSink)>
        ensures { IfOk result (λ ends. (ends.0.faults ≡ 0) × (ends.1.faults ≡ 0)) }
    {
        let Some(listener) = &self.listener else {
            return Err(ErrorKind::NotConnected.into());
        };
        let mut has_failed = false;
        for _ in 0..MOST_PAUSES {
            match self.connect_once(listener) {
                Ok(ends) => {
                    if has_failed {
                        say_aside(&self.rt, "connections are accepted again");
                    }
                    return Ok(ends);
                }
                Err(reason) if is_for_good(&reason) => return Err(reason),
                Err(reason) => {
                    if !has_failed {
                        self.say_not_accepted(reason);
                    }
                    has_failed = true;
                    thread::sleep(&self.rt, Duration::from_millis(ACCEPT_PAUSE));
                }
            }
        }
        Err(ErrorKind::TimedOut.into())
    }

    /// The two ends of the next connection.
    fn connect_once(&self, listener: &TcpListener) -> io::Result<(RealSource, RealSink)>
        ensures { IfOk result (λ ends. (ends.0.faults ≡ 0) × (ends.1.faults ≡ 0)) }
    {
        let stream = accept_past_signals(listener)?;
        // Else a reply waits until the client has confirmed the one before. Where it can't be had, replies are late and whole.
        let _ = stream.set_nodelay(true);
        let stream = Arc::new(self.alloc, stream)?;
        let other = Arc::try_clone(&stream)?;
        if !self.is_kept {
            return Ok((RealSource::new(stream, None), RealSink::new(other, None)));
        }
        let is_shown = Arc::new(self.alloc, AtomicBool::new(false))?;
        let showing = Showing::new(Arc::try_clone(&is_shown)?);
        Ok((
            RealSource::new(stream, Some(showing)),
            RealSink::new(other, Some(is_shown)),
        ))
    }

    /// Says why a connection could not be accepted.
    fn say_not_accepted(&self, reason: io::Error) {
        say_aside(
            &self.rt,
            format_args!("a connection could not be accepted: {reason}"),
        );
    }
}

/// Whether an accept that failed for this reason fails ever after: the listener is none, or listens no more.
fn is_for_good(reason: &io::Error) -> bool {
    match reason.raw_os_error() {
        Some(code) => code == libc::EBADF || code == libc::EINVAL,
        None => false,
    }
}

/// Waits for a connection, and tries again where a signal came between or the client had gone.
fn accept_past_signals(listener: &TcpListener) -> io::Result<TcpStream> {
    for _ in 0..TRIES {
        match listener.accept() {
            Ok((stream, _)) => return Ok(stream),
            Err(reason) if reason.kind() == ErrorKind::Interrupted => {}
            Err(reason) if reason.kind() == ErrorKind::ConnectionAborted => {}
            Err(reason) => return Err(reason),
        }
    }
    Err(ErrorKind::Interrupted.into())
}

impl<R: Net<Listener = TcpListener, Stream = TcpStream> + Eprint + Clock + Copy> Host
    for RealHost<R> {
    type In = RealSource;

    type Out = RealSink;

    ghost sound = { λ host. Unit {0} };

    ghost tells = { ⊥ };

    ghost served = { λ host. [] };

    ghost listens = { λ host. [] };

    ghost handed = { λ host. host.handed };

    ghost share = { λ host. host.share };

    ghost away = { λ host. host.away };

    ghost faults = { λ host. host.faults };

    fn bind(&mut self, address: &str) -> Result<(), Failed> {
        match self.listen(address) {
            Ok(listener) => {
                self.listener = Some(listener);
                Ok(())
            }
            Err(reason) => {
                say_aside(
                    &self.rt,
                    format_args!("could not listen at {address}: {reason}"),
                );
                Err(self.fault())
            }
        }
    }

    /// Says where it listens; with port 0 the system has chosen one. Then what is served there, by which version of the program, from
    /// which moment on, and whether keys are asked for.
    fn announce(&mut self, announcement: Announcement) {
        let Announcement {
            points,
            drivers,
            events,
            now,
            reserve,
        } = announcement;
        self.reserve = reserve;
        let keyed = if self.is_keyed { "with" } else { "without" };
        if let Some(found) = self.local_addr() {
            say_aside(
                &self.rt,
                format_args!(
                    "listening at {found}: points {points}, drivers {drivers}, events {events}, version {PROGRAM_VERSION}, now {now}, {keyed} keys"
                ),
            );
        }
    }

    fn split(&mut self, alloc: Global, connections: u32) -> Result<Self, NoMemory> {
        let is_kept = self.reserve > 0;
        self.reserve = self.reserve.saturating_sub(1);
        let listener = match &self.listener {
            Some(listener) => Some(Arc::try_clone(listener)?),
            None => None,
        };
        let door = match &self.door {
            Some(door) => Some(Arc::try_clone(door)?),
            None => None,
        };
        Ok(RealHost {
            alloc,
            rt: self.rt,
            listener,
            door,
            is_keyed: self.is_keyed,
            reserve: 0,
            is_kept,
            handed: 0,
            share: connections,
            away: 0,
            faults: 0,
        })
    }

    fn accept(&mut self) -> Accepted<RealSource, RealSink> {
        if self.handed >= u64::from(self.share) {
            return Accepted::Closed;
        }
        match self.meet() {
            Ok((input, output)) => {
                self.handed += 1;
                self.away = 1;
                Accepted::Conn(input, output)
            }
            Err(reason) => {
                self.say_not_accepted(reason);
                self.fault();
                Accepted::Failed
            }
        }
    }

    /// The connection closes.
    fn give_back(&mut self, _session: SessionId, _input: RealSource, _output: RealSink) {
        self.away -= 1;
    }

    fn join(&mut self, other: Self) {
        self.handed = self.handed.saturating_add(other.handed);
        if other.faults > 0 {
            self.fault();
        }
    }
}
