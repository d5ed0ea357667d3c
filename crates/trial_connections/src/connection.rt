//! A connection of a trial.

ghost use Rattle.std.specs.Prelude.{◌≡◌, []};
ghost use Rattle.boss_model.specs.Catalogue.{actuators};

use crate::counting::CountingSink;
use crate::outside::{call, list_clock};
use crate::pieces::{Piece, Pieces};
use boss_keys::Keys;
use boss_model::SessionId;
use boss_outside::BytesSink;
use boss_outside_server::ListClock;
use boss_points::Catalogue;
use boss_sessions::{SessionEnd, serve_connection};
use boss_shared::Desk;
use std::alloc::Global;
use std::process::Abort;

/// The number of the read, of the write and of the reading of the clock that fails, from 1; 0 is none.
#[derive(Clone, Copy)]
pub struct Fails {
    pub read: u64,
    pub write: u64,
    pub reading: u64,
}

pub const NONE_FAILS: Fails = Fails {
    read: 0,
    write: 0,
    reading: 0,
};

/// What comes on a connection, what goes out, and the clock that it is served by.
#[derive(Drop)]
pub struct Connection<'a> {
    pub source: Pieces<'a>,
    pub sink: CountingSink,
    pub clock: ListClock,
}

impl<'a> Connection<'a> {
    /// A connection on which a text comes in pieces, by a clock of these moments.
    pub fn new(
        rt: &impl Abort,
        alloc: Global,
        text: &'a str,
        piece: Piece,
        moments: &[u32],
        fails: Fails,
    ) -> Self {
        Connection {
            source: Pieces::new(text.as_bytes(), piece, call(rt, alloc, fails.read)),
            sink: CountingSink::new(bytes_sink(rt, alloc, fails.write)),
            clock: list_clock(rt, alloc, moments, fails.reading),
        }
    }

    /// Serves the connection as one of this session, by these keys, if there are some.
    pub fn serve<G: Desk>(
        &mut self,
        alloc: Global,
        catalogue: &Catalogue,
        keys: Option<&Keys>,
        desk: &G,
        pass: &mut G::Pass,
        session: SessionId,
    ) -> SessionEnd
        requires own { G.owns desk.now pass.old }
        requires plant { actuators catalogue.now ≡ G.plant desk.now }
        requires ungated { G.denies desk.now ≡ [] }
        ensures own { G.owns desk.now pass.new }
        ensures parts { G.parts pass.new ≡ G.parts pass.old }
    {
        let Connection {
            source,
            sink,
            clock,
        } = self;
        serve_connection(
            alloc, desk, pass, catalogue, keys, session, source, sink, clock,
        )
    }
}

/// A sink of which the write of this number fails, from 1; 0 is none.
pub fn bytes_sink(rt: &impl Abort, alloc: Global, write: u64) -> BytesSink {
    BytesSink::new(alloc, call(rt, alloc, write)).expect(rt, "memory")
}
