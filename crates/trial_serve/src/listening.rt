//! A host over a socket that listens before its server is run, so that its address is known.

ghost use Rattle.std.specs.Prelude.{[]};

use boss_adapters::{RealHost, RealSink, RealSource};
use boss_model::{NoMemory, SessionId};
use boss_outside::Failed;
use boss_outside_server::{Accepted, Announcement, Host};
use std::alloc::Global;
use std::io::Eprint;
use std::net::{Net, TcpListener, TcpStream};
use std::time::Clock;

/// A host that listens already.
#[derive(Drop)]
pub struct Listening<R> {
    pub host: RealHost<R>,
}

impl<R: Net<Listener = TcpListener, Stream = TcpStream> + Eprint + Clock + Copy + Drop> Host
    for Listening<R> {
    type In = RealSource;

    type Out = RealSink;

    ghost sound = { λ listening. Unit {0} };

    ghost tells = { ⊥ };

    ghost served = { λ listening. [] };

    ghost listens = { λ listening. [] };

    ghost handed = { λ listening. ⟦<RealHost<R> as Host>⟧.handed listening.host };

    ghost share = { λ listening. ⟦<RealHost<R> as Host>⟧.share listening.host };

    ghost away = { λ listening. ⟦<RealHost<R> as Host>⟧.away listening.host };

    ghost faults = { λ listening. ⟦<RealHost<R> as Host>⟧.faults listening.host };

    fn bind(&mut self, _address: &str) -> Result<(), Failed> {
        Ok(())
    }

    fn announce(&mut self, announcement: Announcement) {
        self.host.announce(announcement);
    }

    fn split(&mut self, alloc: Global, connections: u32) -> Result<Self, NoMemory> {
        match self.host.split(alloc, connections) {
            Ok(host) => Ok(Listening { host }),
            Err(none) => Err(none),
        }
    }

    fn accept(&mut self) -> Accepted<RealSource, RealSink> {
        self.host.accept()
    }

    fn give_back(&mut self, session: SessionId, input: RealSource, output: RealSink) {
        self.host.give_back(session, input, output);
    }

    fn join(&mut self, other: Self) {
        let Listening { host } = other;
        self.host.join(host);
    }
}
