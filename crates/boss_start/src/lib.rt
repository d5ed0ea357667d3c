//! The program on this machine: its words, its files, its standard input and output, the devices of each of the sixteen
//! drivers, which are simulated until they are assigned their points, and for a server the system's clock, its network
//! and threads. Where not all was done, the last line on the standard error says what happened and what to do; why the
//! system refused something was said there when it did.
#![tactic(auto)]

mod advice;
mod refused;

use crate::advice::{advice, word_at};
use crate::refused::refused_point;
use boss_adapters::{
    Door, RealClock, RealFiles, RealHost, RealSpawner, RealWaiter, StdSink, StdSource, say_aside,
};
use boss_etcd_files::PlacedFiles;
use boss_field::field_devices;
use boss_manager::{Next, Status, boss, boss_serve};
use boss_model::{MOST_DRIVERS, NoMemory};
use std::alloc::AllocError;
use std::env;
use std::io::{self, Eprint};
use std::net::{Net, TcpListener, TcpStream};
use std::process::ExitCode;
use std::sync::{Arc, Wait};
use std::thread::Threads;
use std::time::Clock;

/// How long a connection stands first in a server's queue while no worker is free, in milliseconds, before it is told so.
const LONGEST_WAIT: u64 = 10_000;

/// Does what the program's words ask for, and tells how it ended. By the second handle a server listens, starts threads
/// and waits, and devices are reached.
pub fn start<R>(rt: HostRuntime, server: &R) -> ExitCode
where
    R: Net<Listener = TcpListener, Stream = TcpStream> + Threads + Wait + Clock + Eprint + Sync,
{
    let status = run(rt, server).unwrap_or(Status::NO_MEMORY);
    ExitCode::from(status.0)
}

fn run<R>(rt: HostRuntime, server: &R) -> Result<Status, NoMemory>
where
    R: Net<Listener = TcpListener, Stream = TcpStream> + Threads + Wait + Clock + Eprint + Sync,
{
    let words = words_of(&rt)?;
    let mut devices = field_devices(rt.alloc(), server, MOST_DRIVERS)?;
    let mut source = StdSource::new(rt.stdin());
    let mut sink = StdSink::new(rt.stdout());
    let mut files = PlacedFiles::new(RealFiles::new(rt), rt);
    let mut clock = RealClock::new(rt.alloc(), server)?;
    let mut waiter = RealWaiter::new(rt.alloc(), server, &mut clock)?;
    let mut host = RealHost::new(rt.alloc(), server);
    let door = Arc::new(rt.alloc(), Door::new(LONGEST_WAIT))?;
    waiter.watch(Arc::try_clone(&door)?);
    host.stand_at(door);
    let mut spawner = RealSpawner::new(server);
    let next = boss(
        rt.alloc(),
        &words,
        &mut files,
        &mut source,
        &mut sink,
        &mut devices,
    );
    let status = match next {
        Next::Done(status) => status,
        Next::Serve(job) => {
            host.say_keyed(job.keys.is_some());
            boss_serve(
                server,
                rt.alloc(),
                &job,
                &mut files,
                &mut source,
                &mut sink,
                &mut devices,
                &mut clock,
                &mut host,
                &mut waiter,
                &mut spawner,
            )
        }
    };
    let point = if status == Status::CATALOGUE {
        refused_point(rt.alloc(), &mut files, word_at(&words, 1))
    } else {
        None
    };
    // Where there is no memory for a sentence, or the standard error can't be written, the status alone tells.
    if let Ok(Some(sentence)) = advice(
        rt.alloc(),
        status,
        &words,
        point.as_deref(),
        files.has_disk(),
    ) {
        say_aside(&rt, sentence);
    }
    Ok(status)
}

/// The program's words, without its own name. Words that are not UTF-8 are read as none, which is asking for nothing.
fn words_of(rt: &HostRuntime) -> Result<Vec<String>, AllocError> {
    let mut words = Vec::new(rt.alloc());
    match env::args(rt) {
        Ok(args) => {
            for word in args.skip(1) {
                words.push(word)?;
            }
            Ok(words)
        }
        Err(error) if error.kind() == io::ErrorKind::OutOfMemory => Err(AllocError),
        Err(_) => Ok(words),
    }
}
