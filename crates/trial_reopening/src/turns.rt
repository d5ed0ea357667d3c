// A journal from run to run: what each script tells, and what a check tells behind it.
ghost use Rattle.boss_model.specs.Catalogue.{actuators};
ghost use Rattle.boss_scripts.specs.Devices.{HasDevices};

use crate::bytes::{
    AT_1000, ATTACH_EVENT, ATTACHED, DIGEST, SHUT, SUBMIT_HEAD, SUBMIT_TAG, SUBMIT_TAIL, joined,
    journal, kept, kept_2, kept_as, worked_2,
};
use crate::outside::*;
use crate::sums::summed;
use boss_manager::Status;
use boss_points::Catalogue;
use std::alloc::Global;
use std::process::Abort;

/// A script over the journal that the one before it left.
struct Turn {
    input: &'static str,
    told: &'static str,
    held: &'static str,
}

const TURNS: [Turn; 4] = [
    // A script that asks for nothing makes a journal.
    Turn {
        input: "",
        told: "write field ahu1.damper 20000 ok\nwrite field lamp 0 ok\nwrite field fan 1 ok\n",
        held: "events 0 now 0 leases 0 pending 0\n",
    },
    // A lease is taken.
    Turn {
        input: "{\"op\":\"attach\",\"process\":\"a\"}
{\"at\":1000,\"op\":\"submit\",\"writes\":[{\"point\":\"ahu1.damper\",\"value\":45000,\"priority\":8,\"lease\":60000}]}
",
        told: "write field ahu1.damper 20000 ok
write field lamp 0 ok
write field fan 1 ok
{\"ok\":\"attached\",\"process\":\"a\",\"next\":1}
{\"ok\":\"accepted\",\"txn\":1,\"until\":61000}
write field ahu1.damper 45000 ok
",
        held: "events 2 now 1000 leases 1 pending 0\n",
    },
    // It is in force in the next run, and its process is not there.
    Turn {
        input: "{\"at\":1000,\"op\":\"cancel\",\"txn\":1}
{\"at\":60999,\"op\":\"read\",\"point\":\"ahu1.damper\"}
",
        told: "write field ahu1.damper 45000 ok
write field lamp 0 ok
write field fan 1 ok
{\"error\":\"not-attached\"}
{\"ok\":\"read\",\"point\":\"ahu1.damper\",\"value\":45000,\"from\":\"lease\",\"priority\":8,\"txn\":1,\"mark\":\"settled\"}
",
        held: "events 2 now 1000 leases 1 pending 0\n",
    },
    // It ends in a later one, and its end is kept.
    Turn {
        input: "{\"at\":61000,\"op\":\"read\",\"point\":\"ahu1.damper\"}\n",
        told: "write field ahu1.damper 45000 ok
write field lamp 0 ok
write field fan 1 ok
{\"ok\":\"read\",\"point\":\"ahu1.damper\",\"value\":20000,\"from\":\"default\",\"mark\":\"pending\",\"took\":45000,\"since\":1000}
write field ahu1.damper 20000 ok
",
        held: "events 3 now 61000 leases 0 pending 0\n",
    },
];

/// Runs a turn over these disks, and gives those that it left.
fn take_turn(
    rt: &impl Abort,
    alloc: Global,
    catalogue: &Catalogue,
    turn: &Turn,
    disks: Pair,
) -> Pair
    requires { HasDevices 1 (actuators catalogue.now) }
{
    let disks = expect_run(
        rt,
        alloc,
        catalogue,
        disks,
        turn.input,
        Status::DONE,
        turn.told,
    );
    let copies = images(rt, alloc, &disks, (1, 1));
    expect_check(rt, alloc, catalogue, copies, Status::DONE, turn.held);
    images(rt, alloc, &disks, (1, 1))
}

#[test]
fn a_lease_goes_from_run_to_run(rt: HostRuntime) {
    let alloc = rt.alloc();
    let catalogue = three_points(&rt, alloc);
    let disks = pair(&rt, alloc, &[], &[]);
    let [made, taken, in_force, ended] = &TURNS;
    let disks = take_turn(&rt, alloc, &catalogue, made, disks);
    let disks = take_turn(&rt, alloc, &catalogue, taken, disks);
    let disks = take_turn(&rt, alloc, &catalogue, in_force, disks);
    let (first, second) = take_turn(&rt, alloc, &catalogue, ended, disks);
    expect_bytes(&rt, first, &ticked(&rt, alloc));
    expect_bytes(&rt, second, &[]);
}

/// The journal then: the tick that ended the lease stands behind the two records.
fn ticked(rt: &impl Abort, alloc: Global) -> Vec<u8> {
    let submit = joined(rt, alloc, &[SUBMIT_TAG, AT_1000, SUBMIT_TAIL]);
    let tick: &[u8] = b"\x06\0\0\0\0\0\0\xee\x48";
    summed(rt, alloc, DIGEST, &[ATTACH_EVENT, &submit, tick])
}

const CARRIED_OVER: Turn = Turn {
    input: "",
    told: "write field ahu1.damper 45000 ok\nwrite field lamp 0 ok\nwrite field fan 1 ok\n",
    held: "events 2 now 1000 leases 1 pending 0\n",
};

/// A journal of version 1 stays as it was, and the other disk has what it stands for, in version 3.
#[test]
fn a_journal_of_version_1_is_carried_over(rt: HostRuntime) {
    let alloc = rt.alloc();
    let catalogue = three_points(&rt, alloc);
    let log = [ATTACHED, SUBMIT_HEAD, AT_1000, SUBMIT_TAIL, SHUT];
    let old = journal(&rt, alloc, b"\x01", DIGEST, &log);
    let disks = pair(&rt, alloc, &old, &[]);
    let (first, second) = take_turn(&rt, alloc, &catalogue, &CARRIED_OVER, disks);
    expect_bytes(&rt, first, &old);
    expect_bytes(&rt, second, &kept(&rt, alloc));
}

/// So does one of version 2, whether it is a journal or a kept state.
#[test]
fn a_journal_of_version_2_is_carried_over(rt: HostRuntime) {
    let alloc = rt.alloc();
    let catalogue = three_points(&rt, alloc);
    let old = worked_2(&rt, alloc);
    let disks = pair(&rt, alloc, &old, &[]);
    let (first, second) = take_turn(&rt, alloc, &catalogue, &CARRIED_OVER, disks);
    expect_bytes(&rt, first, &old);
    expect_bytes(&rt, second, &kept(&rt, alloc));
    let state = kept_2(&rt, alloc);
    let disks = pair(&rt, alloc, &old, &state);
    let (first, second) = take_turn(&rt, alloc, &catalogue, &CARRIED_OVER, disks);
    expect_bytes(&rt, first, &kept_as(&rt, alloc, DIGEST, 2));
    expect_bytes(&rt, second, &state);
}
