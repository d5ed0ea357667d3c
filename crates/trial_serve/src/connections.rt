//! Connections in memory.

ghost use Rattle.boss_outside_server.specs.Hosts.{AreUntouched, IsUntouched};

use crate::clocks::call;
use crate::texts::tell_talk;
use boss_model::Items;
use boss_outside::{BytesSink, BytesSource, Sink, Source};
use boss_outside_server::{Host, ListHost};
use std::alloc::Global;
use std::process::Abort;

/// A connection: what it sends, and the number of its read that fails, from 1; 0 is none.
#[derive(Clone, Copy)]
pub struct Talk<'a> {
    pub text: &'a str,
    pub fails: u64,
}

pub type Connections = ListHost<BytesSource, BytesSink>;

/// A connection by which this comes in.
fn connection(rt: &impl Abort, alloc: Global, talk: &Talk) -> (BytesSource, BytesSink)
    ensures { IsUntouched ⟦<BytesSource as Source>⟧ ⟦<BytesSink as Sink>⟧ result.0 result.1 }
{
    let bytes = talk.text.as_bytes().to_vec(alloc).expect(rt, "memory");
    let fails = call(rt, alloc, talk.fails);
    let input = BytesSource::new(alloc, Items::from_vec(bytes), fails).expect(rt, "memory");
    let output = BytesSink::new(alloc, Items::new(alloc)).expect(rt, "memory");
    (input, output)
}

/// The connections of one worker.
fn part(rt: &impl Abort, alloc: Global, talks: &[Talk]) -> Items<(BytesSource, BytesSink)>
    ensures { AreUntouched ⟦<BytesSource as Source>⟧ ⟦<BytesSink as Sink>⟧ result }
{
    let mut part = Items::new(alloc);
    for talk in talks {
        part.try_push(connection(rt, alloc, talk))
            .expect(rt, "memory");
    }
    part
}

/// The connections of each worker. The bind or accept of this number fails, counted from 1 over the bind and, in each worker's part, its
/// accepts; 0 is none.
pub fn host(rt: &impl Abort, alloc: Global, workers: &[&[Talk]], fails: u64) -> Connections
    ensures { ⟦<ListHost<BytesSource, BytesSink> as Host>⟧.sound result }
{
    let mut parts = Items::new(alloc);
    for talks in workers {
        parts.try_push(part(rt, alloc, talks)).expect(rt, "memory");
    }
    ListHost::new(alloc, parts, call(rt, alloc, fails)).expect(rt, "memory")
}

/// How many connections there are, of which no worker has more than a thousand.
pub fn count(workers: &[&[Talk]]) -> u32 {
    let mut count: u32 = 0;
    for talks in workers {
        count = count.saturating_add(talks.len().min(1_000) as u32);
    }
    count
}

/// Tells what went out on each connection that came back.
pub fn tell_talks(rt: &impl Abort, text: &mut String, alloc: Global, host: &Connections) {
    for ended in host.served(alloc).expect(rt, "memory") {
        tell_talk(rt, text, ended.session, ended.output.taken());
    }
}
