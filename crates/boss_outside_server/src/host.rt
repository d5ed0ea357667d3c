ghost use Rattle.std.specs.Prelude.{◌≡◌, ℕ, ◌+◌, ◌-◌, ◌^◌, ◌<◌, min, List, [], ◌∷◌, ◌++◌, IfOk};
ghost use Rattle.boss_outside.specs.Counts.{HasCause, Joins};

use boss_model::{NoMemory, SessionId};
use boss_outside::{Failed, Hears, Sink};
use std::alloc::Global;

/// What an accept gave.
#[derive(Debug, Drop)]
pub enum Accepted<I, O> {
    /// A connection: what is read from it, and what is written to it.
    Conn(I, O),
    /// None: the part has handed out its share.
    Closed,
    /// None: the accept failed, and the host's count of faults rose.
    Failed,
}

/// What a server serves from the moment on that it listens.
#[derive(Clone, Copy, Debug, PartialEq, Eq)]
pub struct Announcement {
    /// How many points its catalogue has.
    pub points: u32,
    /// How many drivers its catalogue names.
    pub drivers: u16,
    /// How many events its journal holds.
    pub events: u64,
    /// The moment of the journal's last change, in milliseconds since 1970; 0 where there was none yet.
    pub now: u64,
    /// How many of its workers are kept for whoever shows a key: one that is silent holds such a worker for a second at most.
    pub reserve: u32,
}

/// Something that hands out connections, one at a time, and takes each back when it has ended.
pub trait Host: Sized + Drop {
    ghost use Rattle.boss_outside_server.specs.Hosts.{Served, served_of, IsFresh, HandsOut, AcceptCause, Listens};

    /// What is read from a connection. It can be shown what the connection's output has taken.
    type In: Hears<Self::Out>;

    /// What is written to a connection.
    type Out: Sink;

    /// That the connections it has still to hand out are untouched.
    ghost sound: { Self → Type 0 };

    /// That the values of this type tell which connections they took back. A form in memory does; a real one can't.
    ghost tells: { Type 0 };

    /// The connections that it took back, as they had ended, in order.
    ghost served: { Self → List Served };

    /// The addresses that it listens at, in the order in which it was asked to.
    ghost listens: { Self → List (List ℕ) };

    /// The number of connections that it handed out, up to `2 ^ 64 - 1`, where it stands still.
    ghost handed: { Self → ℕ };

    /// The number of connections that it is to hand out.
    ghost share: { Self → ℕ };

    /// The number of connections that are handed out and not given back.
    ghost away: { Self → ℕ };

    /// The number of calls that failed, up to `2 ^ 64 - 1`, where it stands still.
    ghost faults: { Self → ℕ };

    /// Listens at this address. It is called before the host is split.
    fn bind(&mut self, address: &str) -> Result<(), Failed>
        requires { sound self.old }
        ensures sound { sound self.new }
        ensures counts { (handed self.new ≡ handed self.old) × (share self.new ≡ share self.old)
            × (away self.new ≡ away self.old) }
        ensures connections { tells → served self.new ≡ served self.old }
        ensures address { tells → Listens (listens self.old) (listens self.new) address.now result }
        ensures cause { HasCause (faults self.old) (faults self.new) result };

    /// Hears what is served at the address from now on, so that it can say so to whoever started the server. It is called once, after
    /// `bind`.
    fn announce(&mut self, announcement: Announcement)
        requires { sound self.old }
        ensures sound { sound self.new }
        ensures counts { (handed self.new ≡ handed self.old) × (share self.new ≡ share self.old)
            × (away self.new ≡ away self.old) × (faults self.new ≡ faults self.old) }
        ensures connections { tells → served self.new ≡ served self.old }
        ensures address { tells → listens self.new ≡ listens self.old };

    /// A part that is to hand out so many connections.
    fn split(&mut self, alloc: Global, connections: u32) -> Result<Self, NoMemory>
        requires { sound self.old }
        ensures part { IfOk result (λ part. sound part × (handed part ≡ 0) × (share part ≡ connections)
            × (away part ≡ 0) × (faults part ≡ 0)) }
        ensures part_served { tells → IfOk result (λ part. served part ≡ []) }
        ensures sound { sound self.new }
        ensures counts { (handed self.new ≡ handed self.old) × (share self.new ≡ share self.old)
            × (away self.new ≡ away self.old) × (faults self.new ≡ faults self.old) }
        ensures connections { tells → served self.new ≡ served self.old }
        ensures address { tells → listens self.new ≡ listens self.old };

    /// Waits for a connection and hands it out. The one before has to be given back.
    fn accept(&mut self) -> Accepted<Self::In, Self::Out>
        requires sound { sound self.old }
        requires back { away self.old ≡ 0 }
        ensures fresh { IsFresh Self.In.Source Self.Out.Sink result }
        ensures count { HandsOut (share self.old) (handed self.old) (handed self.new) (away self.new) result }
        ensures share { share self.new ≡ share self.old }
        ensures sound { sound self.new }
        ensures connections { tells → served self.new ≡ served self.old }
        ensures address { tells → listens self.new ≡ listens self.old }
        ensures cause { AcceptCause (faults self.old) (faults self.new) result };

    /// Takes an ended connection back, which it handed out.
    fn give_back(&mut self, session: SessionId, input: Self::In, output: Self::Out)
        requires sound { sound self.old }
        requires out { 0 < away self.old }
        ensures sound { sound self.new }
        ensures connections { tells → served self.new
            ≡ served self.old ++ served_of Self.In.Source Self.Out.Sink session input output ∷ [] }
        ensures address { tells → listens self.new ≡ listens self.old }
        ensures counts { (handed self.new ≡ handed self.old) × (share self.new ≡ share self.old)
            × (away self.new + 1 ≡ away self.old) × (faults self.new ≡ faults self.old) };

    /// Takes a part back, with the connections that it took back.
    fn join(&mut self, other: Self)
        requires { sound self.old }
        ensures sound { sound self.new }
        ensures connections { tells → served self.new ≡ served self.old ++ served other }
        ensures address { tells → listens self.new ≡ listens self.old }
        ensures counts { (handed self.new ≡ min (handed self.old + handed other) (2 ^ 64 - 1))
            × (share self.new ≡ share self.old) × (away self.new ≡ away self.old) }
        ensures cause { Joins (faults self.old) (faults other) (faults self.new) };
}
