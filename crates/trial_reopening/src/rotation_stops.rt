// A new log that is begun on a disk that stops or fails at each of its calls, and what is opened of all that a crash may leave.
ghost use Rattle.boss_model.specs.Catalogue.{actuators};
ghost use Rattle.boss_scripts.specs.Devices.{HasDevices};

use crate::limited::{Left, run_limited};
use crate::outside::*;
use crate::rotation::log_of;
use boss_disk::MemoryDisk;
use boss_model::Items;
use boss_points::Catalogue;
use std::alloc::Global;
use std::process::Abort;

/// So many submits leave a log that has room for one record more: an attach has 24 bytes there, and a submit 44. A new log begins
/// where less than 65,536 bytes of 131,072 are left, and 24 + 1,488 * 44 = 65,496.
const SUBMITS: u64 = 1_488;

/// The first of the submits has its record behind the others, the second behind a new log's kept state; the read asks for nothing of
/// a disk.
const MORE: &str = "{\"op\":\"attach\",\"process\":\"a\"}
{\"at\":2488,\"op\":\"submit\",\"writes\":[{\"point\":\"ahu1.damper\",\"value\":45000,\"priority\":8,\"lease\":60000}]}
{\"at\":2489,\"op\":\"submit\",\"writes\":[{\"point\":\"ahu1.damper\",\"value\":45000,\"priority\":8,\"lease\":60000}]}
{\"at\":2489,\"op\":\"read\",\"point\":\"lamp\"}
";

/// What is told of them: where the pair was not opened, where the disk of the new log failed behind the first submit, and where both
/// were accepted. Each submit before them, but the last, was superseded with two notices: 1,487 * 2.
const TOLD: [&str; 3] = [
    "",
    "write field ahu1.damper 45000 ok
write field lamp 0 ok
write field fan 1 ok
{\"ok\":\"attached\",\"process\":\"a\",\"next\":2975}
{\"ok\":\"accepted\",\"txn\":1489,\"until\":62488}
{\"error\":\"stopped\"}
{\"error\":\"stopped\"}
",
    "write field ahu1.damper 45000 ok
write field lamp 0 ok
write field fan 1 ok
{\"ok\":\"attached\",\"process\":\"a\",\"next\":2975}
{\"ok\":\"accepted\",\"txn\":1489,\"until\":62488}
{\"ok\":\"accepted\",\"txn\":1490,\"until\":62489}
{\"ok\":\"read\",\"point\":\"lamp\",\"value\":0,\"from\":\"default\",\"mark\":\"settled\"}
",
];

/// What a check tells behind each of them where nothing more was done.
const ANSWERED: [&str; 3] = [
    "events 1489 now 2487 leases 1 pending 0\n",
    "events 1490 now 2488 leases 1 pending 0\n",
    "events 1491 now 2489 leases 1 pending 0\n",
];

/// And where the submit that failed was done.
const UNDER_WAY: [&str; 3] = [
    "events 1489 now 2487 leases 1 pending 0\n",
    "events 1491 now 2489 leases 1 pending 0\n",
    "events 1491 now 2489 leases 1 pending 0\n",
];

/// The ways in which bytes that a crash may change are picked.
const PICKS: [u64; 4] = [0, 1, 2, 5];

/// More calls than are made of the disk that the new log begins on.
const MANY: u64 = 60;

/// The place of the text among those that may be told.
fn place_of(rt: &impl Abort, told: &[u8]) -> usize {
    for place in 0..3usize {
        if told == TOLD[place].as_bytes() {
            return place;
        }
    }
    rt.panic("what a run may tell")
}

/// Looks at all that a crash may leave behind the text of this place.
fn look(rt: &impl Abort, alloc: Global, catalogue: &Catalogue, disks: &Pair, place: usize) {
    let (answered, under_way) = (ANSWERED[place.min(2)], UNDER_WAY[place.min(2)]);
    for pick in &PICKS {
        look_at(rt, alloc, catalogue, disks, *pick, answered, under_way);
    }
}

/// Looks at the image that a number picks, of which one of these is told.
fn look_at(
    rt: &impl Abort,
    alloc: Global,
    catalogue: &Catalogue,
    disks: &Pair,
    pick: u64,
    one: &str,
    other: &str,
) {
    let left = images(rt, alloc, disks, (0, pick));
    let (_, sink) = check(rt, alloc, catalogue, left);
    assert!(rt; is_one_of(sink.taken(), one, other));
}

fn is_one_of(told: &[u8], one: &str, other: &str) -> bool {
    told == one.as_bytes() || told == other.as_bytes()
}

/// Attaches, submits twice and reads, over a log that has room for one record more, beside a disk with a trouble.
fn run_beside(
    rt: &impl Abort,
    alloc: Global,
    catalogue: &Catalogue,
    log: &[u8],
    trouble: Trouble,
) -> Left
    requires { HasDevices 1 (actuators catalogue.now) }
{
    let disks = (
        disk(rt, alloc, log, Trouble::None),
        disk(rt, alloc, &[], trouble),
    );
    run_limited(rt, alloc, catalogue, disks, MORE)
}

/// All calls behind so many come to nothing; and the next one alone, behind which none is made. Whether the run came to its end.
fn try_calls(rt: &impl Abort, alloc: Global, catalogue: &Catalogue, log: &[u8], calls: u64) -> bool
    requires { HasDevices 1 (actuators catalogue.now) }
{
    let stopped = run_beside(rt, alloc, catalogue, log, Trouble::Stops(calls));
    let place = place_of(rt, stopped.sink.taken());
    look(rt, alloc, catalogue, &stopped.disks, place);
    let next = Trouble::Fails(calls.saturating_add(1));
    expect_as(rt, alloc, catalogue, log, next, &stopped);
    place == 2
}

/// The same is told and left beside a disk with this trouble.
fn expect_as(
    rt: &impl Abort,
    alloc: Global,
    catalogue: &Catalogue,
    log: &[u8],
    trouble: Trouble,
    other: &Left,
)
    requires { HasDevices 1 (actuators catalogue.now) }
{
    let left = run_beside(rt, alloc, catalogue, log, trouble);
    assert!(rt; left.sink.taken() == other.sink.taken());
    expect_same(rt, alloc, &other.disks, &left.disks);
}

/// Whether a crash leaves the same of two pairs, whether what was not synced stays or goes.
fn expect_same(rt: &impl Abort, alloc: Global, one: &Pair, other: &Pair) {
    for pick in 0..2u64 {
        let one = second_image(rt, alloc, one, pick);
        expect_bytes(rt, second_disk(rt, alloc, other, pick), one.slice());
    }
}

/// The image of the second disk that a number picks.
fn second_disk(rt: &impl Abort, alloc: Global, disks: &Pair, pick: u64) -> MemoryDisk {
    let (_, second) = images(rt, alloc, disks, (pick, pick));
    second
}

/// And its bytes.
fn second_image(rt: &impl Abort, alloc: Global, disks: &Pair, pick: u64) -> Items<u8> {
    second_disk(rt, alloc, disks, pick).into_bytes()
}

#[test]
fn nothing_is_lost_while_a_new_log_begins(rt: HostRuntime) {
    let alloc = rt.alloc();
    let catalogue = three_points(&rt, alloc);
    let log = log_of(&rt, alloc, SUBMITS);
    assert!(&rt; log.len() == 41 + 65_496 + 1);
    for calls in 0..MANY {
        if try_calls(&rt, alloc, &catalogue, log.as_slice(), calls) {
            return;
        }
    }
    rt.panic("a new log that begins");
}
