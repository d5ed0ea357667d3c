// An adoption over disks that stop or fail at each of its calls, and what is opened of all that a crash may leave.
ghost use Rattle.boss_model.specs.Catalogue.{actuators};
ghost use Rattle.boss_scripts.specs.Devices.{HasDevices};

use crate::bytes::{DIGEST, kept_as, worked};
use crate::outside::*;
use boss_manager::{Status, adopt_on_disks};
use boss_outside::BytesSink;
use boss_points::Catalogue;
use std::alloc::Global;
use std::process::Abort;

/// The lamp is on where nobody holds it, the fan is removed, and a valve is added.
const CHANGED: &str = "drivers=['field']
point=[
{name='ahu1.damper',driver='field',kind='analog',min=0,max=100000,default=20000},
{name='lamp',driver='field',kind='binary',default=1},
{name='valve',driver='field',kind='analog',min=0,max=100,default=10}]
";

/// SHA-256 of its canonical text.
const CHANGED_DIGEST: &[u8; 32] =
    b"\xea\xdc\x84\x8d\xa1\x33\x05\xe3\x55\x49\x57\x4e\xeb\xc2\x96\x75\xc3\x9e\xaa\x34\x18\x66\x93\x89\xe7\xab\x21\x50\xbf\x57\x22\x0d";

/// What is told of an adoption that is done.
const ADOPTED: &str = "adopted events 2 points 3 removed 1 added 1\n";

/// The pairs that are adopted, each with a lease behind two events: a journal alone; a kept state behind it, in the second disk; and one
/// behind that, in the first.
const STARTS: usize = 3;

/// The bytes of the disks of this pair.
fn start(rt: &impl Abort, alloc: Global, place: usize) -> (Vec<u8>, Vec<u8>) {
    match place {
        0 => (worked(rt, alloc), Vec::new(alloc)),
        1 => (worked(rt, alloc), kept_as(rt, alloc, DIGEST, 1)),
        _ => (kept_as(rt, alloc, DIGEST, 2), kept_as(rt, alloc, DIGEST, 1)),
    }
}

/// And once it is adopted: the disk that was not in force has the next generation, under the new catalogue. The state is spelled as
/// before, since its one point has the number that it had.
fn bytes_behind(rt: &impl Abort, alloc: Global, place: usize) -> (Vec<u8>, Vec<u8>) {
    match place {
        0 => (worked(rt, alloc), kept_as(rt, alloc, CHANGED_DIGEST, 1)),
        1 => (
            kept_as(rt, alloc, CHANGED_DIGEST, 2),
            kept_as(rt, alloc, DIGEST, 1),
        ),
        _ => (
            kept_as(rt, alloc, DIGEST, 2),
            kept_as(rt, alloc, CHANGED_DIGEST, 3),
        ),
    }
}

/// What a script is asked behind the adoption.
const ASKED: &str = "{\"at\":1000,\"op\":\"status\",\"txn\":1}\n";

/// What it tells under the old catalogue of the state before.
const KEPT: &str = "write field ahu1.damper 45000 ok
write field lamp 0 ok
write field fan 1 ok
{\"ok\":\"status\",\"txn\":1,\"owner\":\"a\",\"stage\":\"run\",\"live\":1,\"pending\":0}
";

/// What it tells under the new one of the adopted state.
const TAKEN_OVER: &str = "write field ahu1.damper 45000 ok
write field lamp 1 ok
write field valve 10 ok
{\"ok\":\"status\",\"txn\":1,\"owner\":\"a\",\"stage\":\"run\",\"live\":1,\"pending\":0}
";

/// What it tells under the new one of the state before.
const NOT_YET: &str =
    "journal catalogue aaf24f74f7546ec5b6518644b791c16f2669c87380766435de2d82a7a610d059 eadc848da13305e35549574eebc29675c39eaa3418669389e7ab2150bf57220d\n";

/// What it tells under the old one of the adopted state.
const NO_MORE: &str =
    "journal catalogue eadc848da13305e35549574eebc29675c39eaa3418669389e7ab2150bf57220d aaf24f74f7546ec5b6518644b791c16f2669c87380766435de2d82a7a610d059\n";

/// The ways in which bytes that a crash may change are picked.
const PICKS: [u64; 4] = [0, 1, 2, 5];

/// More calls than an adoption makes of a disk.
const MANY: u64 = 60;

/// Whether these disks tell a script that they hold the adopted state. If not, they have to hold the state before.
fn is_adopted(
    rt: &impl Abort,
    alloc: Global,
    old: &Catalogue,
    new: &Catalogue,
    disks: &Pair,
    pick: u64,
) -> bool
    requires old { HasDevices 1 (actuators old.now) }
    requires new { HasDevices 1 (actuators new.now) }
{
    let done = is_taken_over(rt, alloc, new, disks, pick);
    let by_old = if done { NO_MORE } else { KEPT };
    expect_asked(rt, alloc, old, disks, pick, by_old);
    done
}

/// Whether they are taken over under the new catalogue. If not, they have to be those of another one.
fn is_taken_over(
    rt: &impl Abort,
    alloc: Global,
    catalogue: &Catalogue,
    disks: &Pair,
    pick: u64,
) -> bool
    requires { HasDevices 1 (actuators catalogue.now) }
{
    let ran = ask(rt, alloc, catalogue, disks, pick);
    let done = ran.status == Status::DONE;
    expect_told(rt, &ran.sink, if done { TAKEN_OVER } else { NOT_YET });
    done
}

/// Under this catalogue they have to tell this.
fn expect_asked(
    rt: &impl Abort,
    alloc: Global,
    catalogue: &Catalogue,
    disks: &Pair,
    pick: u64,
    told: &str,
)
    requires { HasDevices 1 (actuators catalogue.now) }
{
    let ran = ask(rt, alloc, catalogue, disks, pick);
    expect_told(rt, &ran.sink, told);
}

/// Runs the script under a catalogue over the images that a number picks.
fn ask(rt: &impl Abort, alloc: Global, catalogue: &Catalogue, disks: &Pair, pick: u64) -> Ran
    requires { HasDevices 1 (actuators catalogue.now) }
{
    let left = images(rt, alloc, disks, (pick, pick));
    run(rt, alloc, catalogue, left, ASKED)
}

/// What an adoption left.
#[derive(Drop)]
struct Adopted {
    disks: Pair,
    status: Status,
    sink: BytesSink,
}

/// Adopts this pair with these troubles.
fn adopt(
    rt: &impl Abort,
    alloc: Global,
    old: &Catalogue,
    new: &Catalogue,
    place: usize,
    first: Trouble,
    second: Trouble,
) -> Adopted {
    let (bytes, others) = start(rt, alloc, place);
    let first = disk(rt, alloc, &bytes, first);
    let second = disk(rt, alloc, &others, second);
    let mut sink = sink(rt, alloc, 0);
    let (disks, status) = adopt_on_disks(alloc, old, new, first, second, &mut sink);
    Adopted {
        disks,
        status,
        sink,
    }
}

/// Adopts this pair with these troubles, and looks at all that a crash may leave. Whether it was done.
fn try_adoption(
    rt: &impl Abort,
    alloc: Global,
    old: &Catalogue,
    new: &Catalogue,
    place: usize,
    first: Trouble,
    second: Trouble,
) -> bool
    requires old { HasDevices 1 (actuators old.now) }
    requires new { HasDevices 1 (actuators new.now) }
{
    let adopted = adopt(rt, alloc, old, new, place, first, second);
    let done = adopted.status == Status::DONE;
    assert!(rt; done || adopted.status == Status::FILE_FAULT);
    expect_told(rt, &adopted.sink, if done { ADOPTED } else { "" });
    look(rt, alloc, old, new, &adopted.disks, done);
    done
}

/// Looks at all that a crash may leave of an adoption.
fn look(rt: &impl Abort, alloc: Global, old: &Catalogue, new: &Catalogue, disks: &Pair, done: bool)
    requires old { HasDevices 1 (actuators old.now) }
    requires new { HasDevices 1 (actuators new.now) }
{
    for pick in &PICKS {
        let taken_over = is_adopted(rt, alloc, old, new, disks, *pick);
        assert!(rt; taken_over || !done);
    }
}

/// Adopts it where the calls of either disk behind so many, or the next one alone, come to nothing. Whether each was done.
fn try_calls(
    rt: &impl Abort,
    alloc: Global,
    old: &Catalogue,
    new: &Catalogue,
    place: usize,
    calls: u64,
) -> bool
    requires old { HasDevices 1 (actuators old.now) }
    requires new { HasDevices 1 (actuators new.now) }
{
    let (stops, fails) = (
        Trouble::Stops(calls),
        Trouble::Fails(calls.saturating_add(1)),
    );
    let stopped = try_adoption(rt, alloc, old, new, place, stops, Trouble::None);
    let failed = try_adoption(rt, alloc, old, new, place, fails, Trouble::None);
    let other_stopped = try_adoption(rt, alloc, old, new, place, Trouble::None, stops);
    let other_failed = try_adoption(rt, alloc, old, new, place, Trouble::None, fails);
    stopped && failed && other_stopped && other_failed
}

/// Adopts it where each call comes to nothing in turn, up to the last.
fn stop_at_each(rt: &impl Abort, alloc: Global, old: &Catalogue, new: &Catalogue, place: usize)
    requires old { HasDevices 1 (actuators old.now) }
    requires new { HasDevices 1 (actuators new.now) }
{
    for calls in 0..MANY {
        if try_calls(rt, alloc, old, new, place, calls) {
            return;
        }
    }
    rt.panic("an adoption that is done");
}

/// Adopts it over disks of which no call fails, and compares their bytes.
fn expect_adopted(rt: &impl Abort, alloc: Global, old: &Catalogue, new: &Catalogue, place: usize) {
    let adopted = adopt(rt, alloc, old, new, place, Trouble::None, Trouble::None);
    assert!(rt; adopted.status == Status::DONE);
    expect_told(rt, &adopted.sink, ADOPTED);
    expect_both(rt, adopted.disks, bytes_behind(rt, alloc, place));
}

/// Whether these are the bytes of two disks.
fn expect_both(rt: &impl Abort, disks: Pair, bytes: (Vec<u8>, Vec<u8>)) {
    expect_bytes(rt, disks.0, &bytes.0);
    expect_bytes(rt, disks.1, &bytes.1);
}

#[test]
fn an_adoption_leaves_the_old_or_the_new(rt: HostRuntime) {
    let alloc = rt.alloc();
    let old = three_points(&rt, alloc);
    let new = one_driver(&rt, alloc, CHANGED);
    for place in 0..STARTS {
        expect_adopted(&rt, alloc, &old, &new, place);
        stop_at_each(&rt, alloc, &old, &new, place);
    }
}
