//! A connection over a socket of this machine, both ends in one process.

use crate::listening::Listening;
use crate::texts::{expect_text, put};
use crate::threads::serve_in_threads;
use boss_adapters::RealHost;
use boss_outside_server::Host;
use boss_points::Catalogue;
use std::alloc::Global;
use std::io::{Eprint, Read, Write};
use std::net::{Net, Shutdown, TcpListener, TcpStream};
use std::process::Abort;
use std::sync::Wait;
use std::thread::Threads;
use std::time::Duration;
use std::{io, time};
use trial_parts::THREE_POINTS;

const SENT: &[u8] = br#"{"op":"attach","process":"a"}
{"op":"submit","writes":[{"point":"ahu1.damper","value":45000,"priority":8,"lease":60000}]}
"#;

/// Worked out by hand: a new process, its lease, and its loss with the lease are the three events.
const TOLD: &str = r#"events 3 now 1000 leases 0 pending 0
status 0
{"ok":"attached","process":"a","next":1}
{"ok":"accepted","txn":1,"until":61000}
"#;

/// A client of this host, which has sent all that it sends. The system keeps it until the host accepts.
fn client<R: Net<Listener = TcpListener, Stream = TcpStream> + Eprint + time::Clock + Copy>(
    rt: R,
    host: &RealHost<R>,
) -> io::Result<Option<TcpStream>> {
    let Some(address) = host.local_addr() else {
        return Ok(None);
    };
    let mut stream = TcpStream::connect(&rt, address)?;
    // Only where no worker accepts it is this time waited out.
    stream.set_read_timeout(Some(Duration::from_secs(10)))?;
    stream.write_all(SENT)?;
    stream.shutdown(Shutdown::Write)?;
    Ok(Some(stream))
}

/// Puts what a client reads, up to the end of the stream, behind the text.
pub fn put_answers(rt: &impl Abort, text: &mut String, stream: &mut TcpStream) {
    let mut room = [0; 256];
    for _ in 0..u64::MAX {
        match stream.read(&mut room) {
            Ok(0) => return,
            Ok(count) => put(rt, text, room.get(..count).unwrap_or(&[])),
            Err(_) => return put(rt, text, b"a read failed\n"),
        }
    }
}

/// How the server ended, and what its client read.
fn serve_client<
    R: Net<Listener = TcpListener, Stream = TcpStream>
        + Abort
        + Threads
        + Wait
        + time::Clock
        + Eprint
        + Copy
        + Drop
        + Send
        + Sync,
>(rt: R, alloc: Global, catalogue: &Catalogue, host: RealHost<R>, mut stream: TcpStream) -> String {
    let mut listening = Listening { host };
    let mut text = String::new(alloc);
    serve_in_threads(rt, alloc, catalogue, 1, 1, None, &mut listening, &mut text);
    put_answers(&rt, &mut text, &mut stream);
    text
}

/// The same of a free port of this machine; nothing where a client can't reach it.
fn run<
    R: Net<Listener = TcpListener, Stream = TcpStream>
        + Abort
        + Threads
        + Wait
        + time::Clock
        + Eprint
        + Copy
        + Drop
        + Send
        + Sync,
>(rt: R, alloc: Global, catalogue: &Catalogue) -> String {
    let mut host = RealHost::new(alloc, rt);
    if host.bind("127.0.0.1:0").is_err() {
        return String::new(alloc);
    }
    match client(rt, &host) {
        Ok(Some(stream)) => serve_client(rt, alloc, catalogue, host, stream),
        _ => String::new(alloc),
    }
}

#[test]
fn a_connection_over_a_socket_is_served(rt: HostRuntime) {
    let alloc = rt.alloc();
    let catalogue = Catalogue::read(alloc, THREE_POINTS.as_bytes()).expect(&rt, "a catalogue");
    let told = run(&rt, alloc, &catalogue);
    expect_text(&rt, told.as_str(), TOLD, "a talk");
}
