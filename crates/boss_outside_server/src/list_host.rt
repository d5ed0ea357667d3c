ghost use Rattle.std.specs.Prelude.{◌≡◌, ◌+◌, ◌-◌, ◌^◌, ◌<◌, ◌∷◌, ◌++◌, [], map, min, nat_lt, if◌then◌else◌, is_err, IfOk, OnOk, OnErr, IsTrue};
ghost use Rattle.std.specs.List.{AllByRecursion};
ghost use Rattle.boss_outside.specs.Plan.{fails_next, after_call, after_join};

use crate::log::{Log, Room};
use crate::{Accepted, Announcement, Host};
use boss_model::{Items, NoMemory, SessionId};
use boss_outside::{Failed, FaultPlan, Hears, Sink};
use std::alloc::Global;
use std::collections::VecDeque;
use std::marker::Model;

/// A connection that has ended.
#[derive(Debug, Drop)]
pub struct Ended<S, K> {
    pub session: SessionId,
    pub input: S,
    pub output: K,
}

/// A host in memory. The first part that is split off hands out the connections of the first list, and so on; a part
/// without a list of its own has none. A bind fails where its number is one of those that are to fail, and where no memory
/// is left to note the address. An accept fails where its number is one of those that are to fail, where no connection is
/// left although the share is not handed out, and where no memory is left to note it; the connection that it would have
/// given stays. An accept after the share is no call that may fail, and isn't counted.
#[derive(Drop)]
pub struct ListHost<S: Drop, K: Drop> {
    alloc: Global,
    listens: Items<Items<u8>>,
    parts: VecDeque<Items<(S, K)>>,
    waiting: VecDeque<(S, K)>,
    handed: u64,
    share: u32,
    /// For the connection that is away.
    room: Option<Room<Ended<S, K>>>,
    ended: Log<Ended<S, K>>,
    plan: FaultPlan,
}

impl<S: Drop, K: Drop> Model for ListHost<S, K> {
    ghost use Rattle.std.specs.Prelude.{is_some, if◌then◌else◌};
    ghost use Rattle.boss_outside_server.specs.Hosts.{Hosting};

    ghost Value = { Hosting S K };

    ghost view = { λ h. record {
      listens = h.listens;
      parts = h.parts.items;
      waiting = h.waiting.items;
      handed = h.handed;
      share = h.share;
      away = if is_some h.room then 1 else 0;
      ended = h.ended;
      plan = h.plan;
    } };
}

impl<S: Drop, K: Drop> ListHost<S, K> {
    ghost use Rattle.boss_outside_server.specs.Hosts.{new_hosting};

    /// A host of these connections, one list for each part in the order in which they are split off. The binds and
    /// accepts with these numbers fail, counted from 1 in each part.
    pub fn new(
        alloc: Global,
        contents: Items<Items<(S, K)>>,
        fails: Items<u64>,
    ) -> Result<ListHost<S, K>, NoMemory>
        ensures { IfOk result (λ host. host ≡ new_hosting contents fails) }
    {
        Ok(ListHost {
            alloc,
            listens: Items::new(alloc),
            parts: contents.into_vec().into(),
            waiting: VecDeque::new(alloc),
            handed: 0,
            share: 0,
            room: None,
            ended: Log::new(),
            plan: FaultPlan::new(fails),
        })
    }

    /// The connections that it took back, in order.
    pub fn served(&self, alloc: Global) -> Result<Vec<&Ended<S, K>>, NoMemory>
        ensures { IfOk result (λ served. map (λ connection. connection.now) served.items ≡ self.now.ended) }
    {
        self.ended.entries(alloc)
    }

    /// The addresses that it listens at, in the order in which it was asked to.
    pub fn listens(&self) -> &[Items<u8>]
        ensures { result.now ≡ self.now.listens }
    {
        self.listens.slice()
    }

    /// Notes an address.
    fn note(&mut self, address: &str) -> Result<(), NoMemory>
        ensures noted { OnOk result (self.new ≡ record self.old { listens = self.old.listens ++ address.now ∷ [] }) }
        ensures none { OnErr result (self.new ≡ self.old) }
    {
        let address = Items::from_vec(address.as_bytes().to_vec(self.alloc)?);
        self.listens.try_push(address)
    }
}

impl<S: Hears<K> + Drop, K: Sink + Drop> Host for ListHost<S, K> {
    ghost use Rattle.boss_outside_server.specs.Hosts.{new_hosting, AreUntouched, served_of, IsFresh, HandsOut, AcceptCause, Listens, TakesNext, is_failed, next_part, later_parts};

    type In = S;

    type Out = K;

    ghost sound = { λ host. AreUntouched S.Source K.Sink host.waiting
        × AllByRecursion (AreUntouched S.Source K.Sink) host.parts };

    ghost tells = { Unit {0} };

    ghost served = { λ host. map (λ e. served_of S.Source K.Sink e.session e.input e.output) host.ended };

    ghost listens = { λ host. host.listens };

    ghost handed = { λ host. host.handed };

    ghost share = { λ host. host.share };

    ghost away = { λ host. host.away };

    ghost faults = { λ host. host.plan.faults };

    fn bind(&mut self, address: &str) -> Result<(), Failed>
        ensures fails { IsTrue (fails_next self.old.plan) → IsTrue (is_err result) }
        ensures address { Listens self.old.listens self.new.listens address.now result }
        ensures same { self.new ≡ record self.old { listens = self.new.listens; plan = after_call self.old.plan (is_err result) } }
    {
        self.plan.call()?;
        if self.note(address).is_err() {
            return Err(self.plan.fault());
        }
        Ok(())
    }

    /// Nobody is there to hear it.
    fn announce(&mut self, _announcement: Announcement)
        ensures same { self.new ≡ self.old }
    {}

    fn split(&mut self, alloc: Global, connections: u32) -> Result<Self, NoMemory>
        requires { AreUntouched S.Source K.Sink self.old.waiting
            × AllByRecursion (AreUntouched S.Source K.Sink) self.old.parts }
        ensures part { IfOk result (λ part. part ≡ record (new_hosting [] self.old.plan.fails) {
          waiting = next_part self.old.parts;
          share = connections;
        }) }
        ensures sound { AreUntouched S.Source K.Sink self.new.waiting
            × AllByRecursion (AreUntouched S.Source K.Sink) self.new.parts
            × IfOk result (λ part. AreUntouched S.Source K.Sink part.waiting) }
        ensures rest { OnOk result (self.new ≡ record self.old { parts = later_parts self.old.parts }) }
        ensures none { OnErr result (self.new ≡ self.old) }
    {
        let plan = self.plan.split(alloc)?;
        let waiting = match self.parts.pop_front() {
            Some(part) => part.into_vec().into(),
            None => VecDeque::new(alloc),
        };
        Ok(ListHost {
            alloc,
            listens: Items::new(alloc),
            parts: VecDeque::new(alloc),
            waiting,
            handed: 0,
            share: connections,
            room: None,
            ended: Log::new(),
            plan,
        })
    }

    fn accept(&mut self) -> Accepted<S, K>
        requires sound { AreUntouched S.Source K.Sink self.old.waiting
            × AllByRecursion (AreUntouched S.Source K.Sink) self.old.parts }
        requires back { self.old.away ≡ 0 }
        ensures fresh { IsFresh S.Source K.Sink result }
        ensures count { HandsOut self.old.share self.old.handed self.new.handed self.new.away result }
        ensures next { TakesNext self.old.waiting self.new.waiting result }
        ensures sound { AreUntouched S.Source K.Sink self.new.waiting }
        ensures same { (self.new.listens ≡ self.old.listens) × (self.new.parts ≡ self.old.parts) × (self.new.share ≡ self.old.share)
            × (self.new.ended ≡ self.old.ended) }
        ensures cause { AcceptCause self.old.plan.faults self.new.plan.faults result }
        ensures fails { self.old.handed < self.old.share → IsTrue (fails_next self.old.plan) → IsTrue (is_failed result) }
        ensures plan { self.new.plan ≡ (if nat_lt self.old.handed self.old.share
            then after_call self.old.plan (is_failed result) else self.old.plan) }
    {
        if self.handed >= u64::from(self.share) {
            return Accepted::Closed;
        }
        if self.plan.call().is_err() {
            return Accepted::Failed;
        }
        let Ok(room) = Room::new(self.alloc) else {
            self.plan.fault();
            return Accepted::Failed;
        };
        let Some((input, output)) = self.waiting.pop_front() else {
            self.plan.fault();
            return Accepted::Failed;
        };
        self.room = Some(room);
        self.handed += 1;
        Accepted::Conn(input, output)
    }

    fn give_back(&mut self, session: SessionId, input: S, output: K)
        requires { 0 < self.old.away }
        ensures { self.new ≡ record self.old {
          away = self.old.away - 1;
          ended = self.old.ended ++ record { session = session; input = input; output = output } ∷ [];
        } }
    {
        let Some(room) = self.room.take() else {
            unreachable!()
        };
        let connection = Ended {
            session,
            input,
            output,
        };
        self.ended.push(connection, room);
    }

    fn join(&mut self, other: Self)
        ensures { self.new ≡ record self.old {
          handed = min (self.old.handed + other.handed) (2 ^ 64 - 1);
          ended = self.old.ended ++ other.ended;
          plan = after_join self.old.plan other.plan;
        } }
    {
        let ListHost {
            handed,
            ended,
            plan,
            ..
        } = other;
        self.handed = self.handed.saturating_add(handed);
        self.ended.append(ended);
        self.plan.join(plan);
    }
}
