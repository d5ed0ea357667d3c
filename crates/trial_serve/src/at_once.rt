//! Connections are served at the same time: one waits for what is answered on another.

ghost use Rattle.boss_outside_server.specs.Hosts.{IsUntouched};

use crate::held::{Held, Raising};
use crate::texts::{expect_text, tell_talk};
use crate::threads::serve_in_threads;
use boss_model::Items;
use boss_outside::{BytesSink, Hears, Sink, Source};
use boss_outside_server::{Host, ListHost};
use boss_points::Catalogue;
use std::alloc::Global;
use std::io::Eprint;
use std::process::Abort;
use std::sync::Wait;
use std::sync::atomic::AtomicBool;
use std::thread::Threads;
use std::time;
use trial_parts::THREE_POINTS;

type Connections<'a, R> = ListHost<Held<'a, R>, Raising<'a>>;

/// A connection on which a text comes at once, and another when the flag is raised; and which raises it when so many lines went out.
fn connection<'a, R: Abort + time::Clock + Copy>(
    rt: R,
    alloc: Global,
    flag: &'a AtomicBool,
    ready: &'a [u8],
    later: &'a [u8],
    lines: Option<u64>,
) -> (Held<'a, R>, Raising<'a>)
    ensures { IsUntouched ⟦<Held<'a, R> as Source>⟧ ⟦<Raising<'a> as Sink>⟧ result.0 result.1 }
{
    let sink = BytesSink::new(alloc, Items::new(alloc)).expect(&rt, "memory");
    (
        Held::new(rt, ready, later, flag),
        Raising::new(sink, lines, flag),
    )
}

const ATTACH_A: &str = r#"{"op":"attach","process":"a"}
"#;

const LIGHT: &str =
    r#"{"op":"submit","writes":[{"point":"lamp","value":1,"priority":8,"lease":60000}]}
"#;

const HOLD_AND_RENEW: &str = r#"{"op":"attach","process":"b"}
{"op":"submit","writes":[{"point":"ahu1.damper","value":45000,"priority":8,"lease":60000}]}
{"op":"renew","txn":1,"length":70000}
"#;

/// The connections of two workers. The first worker has one whose second line is held back until the third line went out on that of the
/// second worker, and behind it one that sends these bytes.
fn host<'a, R: Abort + time::Clock + Copy + Drop>(
    rt: R,
    alloc: Global,
    flag: &'a AtomicBool,
    bytes: &'a [u8],
) -> Connections<'a, R>
    ensures { ⟦<ListHost<Held<'a, R>, Raising<'a>> as Host>⟧.sound result }
{
    let waits = connection(rt, alloc, flag, ATTACH_A.as_bytes(), LIGHT.as_bytes(), None);
    let sends = connection(rt, alloc, flag, bytes, &[], None);
    let raises = connection(rt, alloc, flag, HOLD_AND_RENEW.as_bytes(), &[], Some(3));
    let mut first = Items::new(alloc);
    first.try_push(waits).expect(&rt, "memory");
    first.try_push(sends).expect(&rt, "memory");
    let mut second = Items::new(alloc);
    second.try_push(raises).expect(&rt, "memory");
    let mut parts = Items::new(alloc);
    parts.try_push(first).expect(&rt, "memory");
    parts.try_push(second).expect(&rt, "memory");
    ListHost::new(alloc, parts, Items::new(alloc)).expect(&rt, "memory")
}

fn tell_talks<R: Abort + Drop>(
    rt: &R,
    text: &mut String,
    alloc: Global,
    host: &Connections<'_, R>,
) {
    for ended in host.served(alloc).expect(rt, "memory") {
        tell_talk(rt, text, ended.session, ended.output.taken());
    }
}

/// Serves three connections by two workers.
fn serve<
    R: Abort + Threads + Wait + time::Clock + Eprint + Copy + Drop + Send + Sync,
    S: Hears<K> + Drop + Send,
    K: Sink + Drop + Send,
>(rt: R, alloc: Global, catalogue: &Catalogue, host: &mut ListHost<S, K>, text: &mut String)
    requires { ⟦<ListHost<S, K> as Host>⟧.sound host.old }
{
    serve_in_threads(rt, alloc, catalogue, 2, 3, None, host, text);
}

/// What is told of the three connections, and how the server ended.
fn run<R: Abort + Threads + Wait + time::Clock + Eprint + Copy + Drop + Send + Sync>(
    rt: R,
    alloc: Global,
    catalogue: &Catalogue,
    bytes: &[u8],
) -> String {
    let flag = AtomicBool::new(false);
    let mut host = host(rt, alloc, &flag, bytes);
    let mut text = String::new(alloc);
    serve(rt, alloc, catalogue, &mut host, &mut text);
    tell_talks(&rt, &mut text, alloc, &host);
    text
}

/// Worked out by hand. The lamp's lease is the second transaction, as it is held back until the first was renewed. Seven events: two new
/// processes, two leases, a renewal, and two processes that are lost with a lease. One byte more than a line may have, without its end,
/// is too long.
const TOLD: &str = r#"events 7 now 1000 leases 0 pending 0
status 0
session 1
{"ok":"attached","process":"a","next":1}
{"ok":"accepted","txn":2,"until":61000}
session 3
{"error":"too-long"}
session 2
{"ok":"attached","process":"b","next":1}
{"ok":"accepted","txn":1,"until":61000}
{"ok":"renewed","txn":1,"until":71000}
"#;

#[test]
fn connections_are_served_at_the_same_time(rt: HostRuntime) {
    let alloc = rt.alloc();
    let catalogue = Catalogue::read(alloc, THREE_POINTS.as_bytes()).expect(&rt, "a catalogue");
    let mut bytes = Vec::new(alloc);
    bytes.resize(65_537, b'x').expect(&rt, "memory");
    let told = run(&rt, alloc, &catalogue, &bytes);
    expect_text(&rt, told.as_str(), TOLD, "a talk");
}
