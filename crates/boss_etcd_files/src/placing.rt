//! A journal's file in etcd, opened.

ghost use Rattle.std.specs.Prelude.{◌≤◌, ◌^◌, length};

use crate::link::EtcdLink;
use crate::told_cluster::{ToldCluster, say_of, say_unanswered};
use boss_cluster::ClusterDisk;
use boss_etcd::{EtcdCluster, Members};
use boss_etcd_opening::{OpenFault, Opened, open};
use boss_files::FileFault;
use boss_model::Items;
use boss_places::Place;
use std::alloc::Global;
use std::io::Eprint;
use std::net::{Net, TcpListener, TcpStream};
use std::str;
use std::time::Clock;

/// What could not be done.
const OPENED: &str = "opened";

/// A disk in etcd, and whether it had a head.
#[derive(Drop)]
pub struct Placed {
    pub disk: ClusterDisk<ToldCluster>,
    pub has_head: bool,
}

/// The disk at this place, whose word is this. Where it can't be opened the reason is said.
pub fn open_placed(
    alloc: Global,
    rt: HostRuntime,
    word: &str,
    place: Place,
) -> Result<Placed, FileFault> {
    let name = place.key(alloc)?;
    let copy = String::from_str(alloc, word)?;
    let mut members = Members::new(alloc, EtcdLink::new(rt), place.members);
    match open(alloc, &mut members, name.slice()) {
        Ok(opened) => Ok(disk_of(alloc, rt, copy, members, name, opened)),
        Err(fault) => Err(say_fault(&rt, word, name.slice(), &members, fault)),
    }
}

/// The disk of what was found.
fn disk_of(
    alloc: Global,
    rt: HostRuntime,
    word: String,
    members: Members<EtcdLink>,
    name: Items<u8>,
    opened: Opened,
) -> Placed
    requires { length opened.bytes.items ≤ 2 ^ 40 }
{
    let has_head = opened.head.revision.slice() != b"0".as_slice();
    let cluster = EtcdCluster::new(alloc, members, name, opened.head);
    Placed {
        disk: ClusterDisk::new(ToldCluster::new(rt, word, cluster), opened.bytes),
        has_head,
    }
}

/// Says why nothing was opened. Want of memory is no fault of the files, and is not said.
fn say_fault(
    rt: &HostRuntime,
    word: &str,
    name: &[u8],
    members: &Members<EtcdLink>,
    fault: OpenFault,
) -> FileFault {
    let name = str::from_utf8(name).unwrap_or("its name");
    match fault {
        OpenFault::NoMemory => return FileFault::NoMemory,
        OpenFault::Unanswered => say_unanswered(rt, word, OPENED, members),
        OpenFault::Foreign => say_of(
            rt,
            word,
            OPENED,
            format_args!("what stands in etcd under {name}/ is no journal's"),
        ),
        OpenFault::Damaged => say_of(
            rt,
            word,
            OPENED,
            format_args!("pages are missing or damaged in etcd under {name}/"),
        ),
    }
    FileFault::Failed
}

/// Says that a word means no place in etcd.
pub fn say_wrong(rt: &HostRuntime, word: &str) {
    say_of(
        rt,
        word,
        OPENED,
        "a journal in etcd is named etcd:HOST:PORT[,HOST:PORT..]/NAME, with one to nine members, ports up to 65535, and a NAME of 1 to 64 of A-Z a-z 0-9 . _ - that does not end in .b",
    );
}
