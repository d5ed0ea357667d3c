ghost use Rattle.std.specs.Prelude.{◌≡◌, ◌+◌, ◌≤◌, ◌++◌, ◌∷◌, [], length, OnOk, OnErr};
ghost use Rattle.boss_outside.specs.Sockets.{Fits, gained, HearCause, new_wire, silence_in};

use crate::plan::FaultPlan;
use crate::{Datagrams, Failed, Heard};
use boss_model::{Items, NoMemory};
use std::alloc::Global;
use std::marker::Model;

/// A socket in memory, which gives the datagrams of a list, and keeps what went over it.
#[derive(Debug, Drop)]
pub struct ListDatagrams {
    alloc: Global,
    contents: Items<Items<u8>>,
    given: usize,
    sent: Items<Items<u8>>,
    received: Items<Items<u8>>,
    silences: u64,
    hosts: Items<Items<u8>>,
    plan: FaultPlan,
}

impl Model for ListDatagrams {
    ghost use Rattle.boss_outside.specs.Sockets.{Wire};

    ghost Value = { Wire };

    ghost view = { λ w. record {
      contents = w.contents;
      given = w.given;
      sent = w.sent;
      received = w.received;
      silences = w.silences;
      hosts = w.hosts;
      plan = w.plan;
    } };
}

impl ListDatagrams {
    /// A socket that gives these datagrams, one each time that it hears. One without a byte stands for silence, and after the last there
    /// is nothing else. Of the opens, sends and hears those with these numbers fail, counted from 1.
    pub fn new(alloc: Global, contents: Items<Items<u8>>, fails: Items<u64>) -> ListDatagrams
        ensures { result ≡ new_wire contents fails }
    {
        ListDatagrams {
            alloc,
            contents,
            given: 0,
            sent: Items::new(alloc),
            received: Items::new(alloc),
            silences: 0,
            hosts: Items::new(alloc),
            plan: FaultPlan::new(fails),
        }
    }

    /// All datagrams ever sent, in order.
    pub fn sent(&self) -> &[Items<u8>]
        ensures { result.now ≡ self.now.sent }
    {
        self.sent.slice()
    }

    /// The hosts that it was opened to, in order.
    pub fn hosts(&self) -> &[Items<u8>]
        ensures { result.now ≡ self.now.hosts }
    {
        self.hosts.slice()
    }

    /// How often there was silence.
    pub fn silences(&self) -> u64
        ensures { result ≡ self.now.silences }
    {
        self.silences
    }

    /// Puts the next datagram into the room, and tells how many of its bytes there is room for: none at silence.
    fn take_next(&mut self, into: &mut [u8]) -> usize
        ensures within { result ≤ length into.old }
        ensures room { length into.new ≡ length into.old }
        ensures sent { self.new.sent ≡ self.old.sent }
        ensures received { self.new.received ≡ self.old.received }
        ensures silences { self.new.silences ≡ self.old.silences }
        ensures hosts { self.new.hosts ≡ self.old.hosts }
        ensures plan { self.new.plan ≡ self.old.plan }
    {
        let Some(bytes) = self.contents.slice().get(self.given) else {
            return 0;
        };
        let bytes = bytes.slice();
        let count = bytes.len().min(into.len());
        into[..count].copy_from_slice(&bytes[..count]);
        self.given = self.given.saturating_add(1);
        count
    }

    /// Counts a silence, as far as a `u64` counts.
    fn fall_silent(&mut self) -> Heard
        ensures silences { self.new.silences ≡ self.old.silences + silence_in result }
        ensures received { self.new.received ≡ self.old.received ++ gained [] result }
        ensures sent { self.new.sent ≡ self.old.sent }
        ensures hosts { self.new.hosts ≡ self.old.hosts }
        ensures cause { HearCause self.old.plan.faults self.new.plan.faults result }
        ensures fits { Fits 0 result }
    {
        let Some(silences) = self.silences.checked_add(1) else {
            self.plan.fault();
            return Heard::Failed;
        };
        self.silences = silences;
        Heard::Silence
    }
}

/// Keeps these bytes too, where there is memory.
fn keep(alloc: Global, kept: &mut Items<Items<u8>>, bytes: &[u8]) -> Result<(), NoMemory>
    ensures kept { OnOk result (kept.new ≡ kept.old ++ bytes.now ∷ []) }
    ensures none { OnErr result (kept.new ≡ kept.old) }
{
    let bytes = Items::from_vec(bytes.to_vec(alloc)?);
    kept.try_push(bytes)
}

impl Datagrams for ListDatagrams {
    ghost tells = { Unit {0} };

    ghost sent = { λ wire. wire.sent };

    ghost received = { λ wire. wire.received };

    ghost hosts = { λ wire. wire.hosts };

    ghost silences = { λ wire. wire.silences };

    ghost faults = { λ wire. wire.plan.faults };

    fn open(&mut self, host: &[u8]) -> Result<(), Failed> {
        self.plan.call()?;
        if keep(self.alloc, &mut self.hosts, host).is_err() {
            return Err(self.plan.fault());
        }
        Ok(())
    }

    fn send(&mut self, bytes: &[u8]) -> Result<(), Failed> {
        self.plan.call()?;
        if keep(self.alloc, &mut self.sent, bytes).is_err() {
            return Err(self.plan.fault());
        }
        Ok(())
    }

    fn hear(&mut self, into: &mut [u8]) -> Heard {
        if self.plan.call().is_err() {
            return Heard::Failed;
        }
        let count = self.take_next(into);
        if count == 0 {
            return self.fall_silent();
        }
        if keep(self.alloc, &mut self.received, &into[..count]).is_err() {
            self.plan.fault();
            return Heard::Failed;
        }
        Heard::Datagram(count)
    }
}
