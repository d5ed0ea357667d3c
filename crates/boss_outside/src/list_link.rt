ghost use Rattle.std.specs.Prelude.{◌≡◌, ◌+◌, ◌≤◌, ◌++◌, ◌∷◌, [], length, IfOk, OnOk, OnErr, vec_len, vec_capacity};
ghost use Rattle.boss_outside.specs.Links.{new_line};

use crate::plan::FaultPlan;
use crate::{BytesSource, Failed, Got, Link, Source};
use boss_model::{Items, NoMemory};
use std::alloc::Global;
use std::marker::Model;

/// A link in memory: each connection gives the next of its lists of bytes, and what went over it is kept.
#[derive(Debug, Drop)]
pub struct ListLink {
    alloc: Global,
    contents: Items<Items<u8>>,
    most: usize,
    source: BytesSource,
    sent: Vec<u8>,
    received: Vec<u8>,
    hosts: Items<Items<u8>>,
    connected: bool,
    plan: FaultPlan,
}

impl Model for ListLink {
    ghost use Rattle.boss_outside.specs.Links.{Line};

    ghost Value = { Line };

    ghost view = { λ l. record {
      contents = l.contents;
      most = l.most;
      source = l.source;
      sent = l.sent.items;
      received = l.received.items;
      hosts = l.hosts;
      connected = l.connected;
      plan = l.plan;
    } };
}

impl ListLink {
    /// A link whose first connection gives the first of these lists of bytes, the second the second, and each further one
    /// nothing. A receive gives `most` bytes at most, and one at least. Of the connects, sends and receives those with
    /// these numbers fail, counted from 1.
    pub fn new(
        alloc: Global,
        contents: Items<Items<u8>>,
        most: usize,
        fails: Items<u64>,
    ) -> Result<ListLink, NoMemory>
        ensures { IfOk result (λ link. link ≡ new_line contents most fails) }
    {
        Ok(ListLink {
            alloc,
            contents,
            most,
            source: BytesSource::new(alloc, Items::new(alloc), Items::new(alloc))?,
            sent: Vec::new(alloc),
            received: Vec::new(alloc),
            hosts: Items::new(alloc),
            connected: false,
            plan: FaultPlan::new(fails),
        })
    }

    /// All bytes ever sent, in order.
    pub fn sent(&self) -> &[u8]
        ensures { result.now ≡ self.now.sent }
    {
        self.sent.as_slice()
    }

    /// The hosts that it was connected to, in order.
    pub fn hosts(&self) -> &[Items<u8>]
        ensures { result.now ≡ self.now.hosts }
    {
        self.hosts.slice()
    }

    /// Whether there is a connection.
    pub fn is_connected(&self) -> bool
        ensures { result ≡ self.now.connected }
    {
        self.connected
    }

    /// Notes the host, and has the next list to give. Without memory the host is not noted.
    fn begin(&mut self, host: &[u8]) -> Result<(), NoMemory>
        ensures noted { OnOk result (self.new.hosts ≡ self.old.hosts ++ host.now ∷ []) }
        ensures none { OnErr result (self.new.hosts ≡ self.old.hosts) }
        ensures sent { self.new.sent ≡ self.old.sent }
        ensures received { self.new.received ≡ self.old.received }
        ensures connected { self.new.connected ≡ self.old.connected }
        ensures plan { self.new.plan ≡ self.old.plan }
    {
        let host = Items::from_vec(host.to_vec(self.alloc)?);
        let bytes = match self.contents.slice().get(self.hosts.slice().len()) {
            Some(bytes) => bytes.slice().to_vec(self.alloc)?,
            None => Vec::new(self.alloc),
        };
        self.source = BytesSource::new(self.alloc, Items::from_vec(bytes), Items::new(self.alloc))?;
        self.hosts.try_push(host)
    }
}

impl Link for ListLink {
    ghost use Rattle.boss_outside.specs.Links.{line_left};

    ghost tells = { Unit {0} };

    ghost sent = { λ link. link.sent };

    ghost received = { λ link. link.received };

    ghost left = { line_left };

    ghost hosts = { λ link. link.hosts };

    ghost connected = { λ link. link.connected };

    ghost faults = { λ link. link.plan.faults };

    fn connect(&mut self, host: &[u8]) -> Result<(), Failed> {
        self.connected = false;
        self.plan.call()?;
        let begun = self.begin(host);
        if begun.is_err() {
            return Err(self.plan.fault());
        }
        self.connected = true;
        Ok(())
    }

    fn send(&mut self, bytes: &[u8]) -> Result<(), Failed> {
        self.plan.call()?;
        if self.sent.extend_from_slice(bytes).is_err() {
            return Err(self.plan.fault());
        }
        Ok(())
    }

    /// It has room to keep what comes before it reads: bytes that came have to be kept.
    fn receive(&mut self, into: &mut [u8]) -> Got {
        if self.plan.call().is_err() {
            return Got::Failed;
        }
        let room = into.len().min(self.most.max(1));
        if self.received.reserve(room).is_err() {
            self.plan.fault();
            return Got::Failed;
        }
        match self.source.read(&mut into[..room]) {
            Got::Bytes(count) => {
                keep_in_room(&mut self.received, &into[..count]);
                Got::Bytes(count)
            }
            Got::Finish => Got::Finish,
            Got::Failed => {
                self.plan.fault();
                Got::Failed
            }
        }
    }

    fn shut(&mut self) {
        self.connected = false;
    }
}

/// Keeps bytes, for which there is room.
fn keep_in_room(kept: &mut Vec<u8>, bytes: &[u8])
    requires { vec_len kept.old + length bytes.now ≤ vec_capacity kept.old }
    ensures { kept.new.items ≡ kept.old.items ++ bytes.now }
{
    let taken = kept.extend_from_slice(bytes);
    let Ok(()) = taken else { unreachable!() };
}
