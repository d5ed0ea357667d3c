//! A connection over a socket of this machine for which no worker is free.

use crate::listening::Listening;
use crate::socket::put_answers;
use crate::texts::{expect_text, put};
use crate::threads::serve_in_threads;
use boss_adapters::{Door, RealHost};
use boss_outside_server::Host;
use boss_points::Catalogue;
use std::alloc::Global;
use std::io::{Eprint, Read, Write};
use std::net::{Net, Shutdown, SocketAddr, TcpListener, TcpStream};
use std::process::Abort;
use std::sync::{Arc, Wait};
use std::thread::Threads;
use std::time::Duration;
use std::{io, thread, time};
use trial_parts::THREE_POINTS;

/// How long a connection waits for a worker, in milliseconds.
const LONGEST_WAIT: u64 = 300;

const ATTACH: &[u8] = br#"{"op":"attach","process":"a"}
"#;

/// A client that has sent its only line.
fn client<R: Net<Listener = TcpListener, Stream = TcpStream> + Copy>(
    rt: R,
    address: SocketAddr,
) -> io::Result<TcpStream> {
    let mut stream = TcpStream::connect(&rt, address)?;
    // Only where nothing is answered is this time waited out.
    stream.set_read_timeout(Some(Duration::from_secs(10)))?;
    stream.write_all(ATTACH)?;
    Ok(stream)
}

/// Puts the next line that a client reads behind the text.
fn put_line(rt: &impl Abort, text: &mut String, stream: &mut TcpStream) -> io::Result<()> {
    let mut byte = [0];
    for _ in 0..256 {
        stream.read_exact(&mut byte)?;
        put(rt, text, &byte);
        if byte == [b'\n'] {
            break;
        }
    }
    Ok(())
}

/// What three clients read: the second comes while the first is served, and the third when the first has gone.
fn talk<R: Net<Listener = TcpListener, Stream = TcpStream> + Abort + Copy>(
    rt: R,
    address: SocketAddr,
    text: &mut String,
) -> io::Result<()> {
    let mut first = client(rt, address)?;
    put_line(&rt, text, &mut first)?;
    let mut second = client(rt, address)?;
    put_answers(&rt, text, &mut second);
    first.shutdown(Shutdown::Write)?;
    put_answers(&rt, text, &mut first);
    let mut third = client(rt, address)?;
    third.shutdown(Shutdown::Write)?;
    put_answers(&rt, text, &mut third);
    Ok(())
}

/// The same, as text.
fn told<R: Net<Listener = TcpListener, Stream = TcpStream> + Abort + Copy>(
    rt: R,
    alloc: Global,
    address: SocketAddr,
) -> String {
    let mut text = String::new(alloc);
    if talk(rt, address, &mut text).is_err() {
        put(&rt, &mut text, b"a client failed\n");
    }
    text
}

/// What the clients of a server read that serves two connections by one worker, and how it ended.
fn run<
    R: Net<Listener = TcpListener, Stream = TcpStream>
        + Abort
        + Threads
        + Wait
        + time::Clock
        + Eprint
        + Copy
        + Drop
        + Send
        + Sync,
>(rt: R, alloc: Global, catalogue: &Catalogue) -> Option<String> {
    let door = Arc::new(alloc, Door::new(LONGEST_WAIT)).ok()?;
    let mut host = RealHost::new(alloc, rt);
    host.stand_at(Arc::try_clone(&door).ok()?);
    host.bind("127.0.0.1:0").ok()?;
    let address = host.local_addr()?;
    let mut listening = Listening { host };
    let mut ended = String::new(alloc);
    let (_, mut text) = thread::join(
        &rt,
        || {
            serve_in_threads(
                rt,
                alloc,
                catalogue,
                1,
                2,
                Some(door),
                &mut listening,
                &mut ended,
            )
        },
        || told(rt, alloc, address),
    );
    put(&rt, &mut text, ended.as_bytes());
    Some(text)
}

/// Worked out by hand: the one that was turned away came to no worker, so the third is the second that is served, and the server ends
/// behind it. The one event is the new process, which the third finds known.
const TOLD: &str = r#"{"ok":"attached","process":"a","next":1}
{"error":"busy"}
{"ok":"attached","process":"a","next":1}
events 1 now 1000 leases 0 pending 0
status 0
"#;

#[test]
fn a_connection_without_a_worker_is_told_so(rt: HostRuntime) {
    let alloc = rt.alloc();
    let catalogue = Catalogue::read(alloc, THREE_POINTS.as_bytes()).expect(&rt, "a catalogue");
    let told = run(&rt, alloc, &catalogue).expect(&rt, "a server");
    expect_text(&rt, told.as_str(), TOLD, "three talks");
}
