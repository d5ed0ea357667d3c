// A log that has come to its limit, and the one that is begun behind a kept state.
ghost use Rattle.std.specs.Prelude.{◌≤◌, ◌^◌};
ghost use Rattle.boss_model.specs.Catalogue.{actuators};
ghost use Rattle.boss_scripts.specs.Devices.{HasDevices};

use crate::bytes::{ATTACH_EVENT, DIGEST, SHUT, SUBMIT_TAG, SUBMIT_TAIL, joined, put};
use crate::limited::run_limited;
use crate::outside::*;
use crate::sums::{journal_seed, put_record, seed_of};
use boss_manager::Status;
use boss_points::Catalogue;
use std::alloc::Global;
use std::process::Abort;

/// How many submits a log has room for behind an attach: it is begun anew once it has no room for 65,536 bytes more.
const SUBMITS: u64 = 1_489;

/// What a check tells behind 1,490 submits.
const AFTER: &str = "events 1491 now 2489 leases 1 pending 0\n";

const ATTACH: &str = "{\"op\":\"attach\",\"process\":\"a\"}\n";

/// What is asked of the last transaction and of the last one that ended.
const ASKED: &str = "{\"at\":2489,\"op\":\"status\",\"txn\":1490}
{\"at\":2489,\"op\":\"notices\",\"process\":\"a\",\"from\":2977,\"max\":4}
";

/// Behind 1,490 submits, each of which supersedes the one before it, with two notices.
const ANSWERED: &str =
    "{\"ok\":\"status\",\"txn\":1490,\"owner\":\"a\",\"stage\":\"run\",\"live\":1,\"pending\":0}
{\"ok\":\"notices\",\"first\":1955,\"next\":2979,\"list\":[{\"n\":2977,\"at\":2489,\"txn\":1489,\"kind\":\"ended\",\"point\":\"ahu1.damper\",\"cause\":\"superseded\",\"by\":1490},{\"n\":2978,\"at\":2489,\"txn\":1489,\"kind\":\"done\"}]}
";

/// The same behind an opening, which tells each device its value anew.
const ANSWERED_AGAIN: &str = "write field ahu1.damper 45000 ok
write field lamp 0 ok
write field fan 1 ok
{\"ok\":\"status\",\"txn\":1490,\"owner\":\"a\",\"stage\":\"run\",\"live\":1,\"pending\":0}
{\"ok\":\"notices\",\"first\":1955,\"next\":2979,\"list\":[{\"n\":2977,\"at\":2489,\"txn\":1489,\"kind\":\"ended\",\"point\":\"ahu1.damper\",\"cause\":\"superseded\",\"by\":1490},{\"n\":2978,\"at\":2489,\"txn\":1489,\"kind\":\"done\"}]}
";

/// An attach at 0, and so many submits, a millisecond after one another from 1000 on.
fn submits(rt: &impl Abort, alloc: Global, count: u64) -> String
    requires { count ≤ 2 ^ 32 }
{
    let mut text = String::from_str(alloc, ATTACH).expect(rt, "memory");
    for place in 0..count {
        put_submit(rt, &mut text, 1000 + place);
    }
    text
}

/// A submit at a moment.
fn put_submit(rt: &impl Abort, text: &mut String, moment: u64) {
    writeln!(
        text,
        "{{\"at\":{moment},\"op\":\"submit\",\"writes\":[{{\"point\":\"ahu1.damper\",\"value\":45000,\"priority\":8,\"lease\":60000}}]}}"
    )
    .expect(rt, "memory");
}

/// The event of a submit at a moment.
fn submitted(rt: &impl Abort, alloc: Global, moment: u64) -> Vec<u8> {
    joined(rt, alloc, &[SUBMIT_TAG, &moment.to_be_bytes(), SUBMIT_TAIL])
}

/// The journal of the attach and so many submits.
pub fn log_of(rt: &impl Abort, alloc: Global, submits: u64) -> Vec<u8>
    requires { submits ≤ 2 ^ 32 }
{
    let seed = journal_seed(rt, alloc, DIGEST);
    let mut bytes = joined(rt, alloc, &[b"BOSSJRNL\x03", DIGEST]);
    put_record(rt, alloc, &seed, &mut bytes, ATTACH_EVENT);
    for place in 0..submits {
        let submit = submitted(rt, alloc, 1000 + place);
        put_record(rt, alloc, &seed, &mut bytes, &submit);
    }
    bytes.push(0).expect(rt, "memory");
    bytes
}

/// The second disk has generation 1, with 1,490 events before it, and behind its state, whose first gate is 45 bytes before the end,
/// the record of the last submit.
fn expect_second(rt: &impl Abort, alloc: Global, bytes: &[u8]) {
    let numbers: &[u8] = b"\0\0\0\0\0\0\0\x01\0\0\0\0\0\0\x05\xd2";
    let front = joined(rt, alloc, &[b"OSSSNAP\x03", DIGEST, numbers]);
    assert!(rt; bytes.len() > 118 && bytes[0] == b'B');
    assert!(rt; bytes[1..].starts_with(&front));
    let size = (bytes.len() as u64).saturating_sub(118).to_be_bytes();
    let seed = seed_of(rt, alloc, &[&front, &size]);
    let mut wanted = joined(rt, alloc, &[&bytes[..bytes.len() - 45]]);
    put_record(rt, alloc, &seed, &mut wanted, &submitted(rt, alloc, 2_489));
    put(rt, &mut wanted, SHUT);
    assert!(rt; bytes == wanted.as_slice());
}

/// The first disk has the full log, and the second the new one; and an opening answers what was answered before.
fn expect_again(rt: &impl Abort, alloc: Global, catalogue: &Catalogue, disks: Pair)
    requires { HasDevices 1 (actuators catalogue.now) }
{
    let (first, second) = disks;
    let (log, new) = (first.into_bytes(), second.into_bytes());
    let full = log_of(rt, alloc, SUBMITS);
    assert!(rt; full.len() == 41 + 24 + 44 * 1_489 + 1);
    assert!(rt; log.slice() == full.as_slice());
    expect_second(rt, alloc, new.slice());
    let disks = pair(rt, alloc, log.slice(), new.slice());
    let disks = expect_run(
        rt,
        alloc,
        catalogue,
        disks,
        ASKED,
        Status::DONE,
        ANSWERED_AGAIN,
    );
    expect_check(rt, alloc, catalogue, disks, Status::DONE, AFTER);
}

/// The submit behind a full log begins a new one behind a kept state of what came before, and what was answered is answered again.
#[test]
fn a_new_log_begins_behind_a_kept_state(rt: HostRuntime) {
    let alloc = rt.alloc();
    let catalogue = three_points(&rt, alloc);
    let mut text = submits(&rt, alloc, SUBMITS + 1);
    text.push_str(ASKED).expect(&rt, "memory");
    let disks = pair(&rt, alloc, &[], &[]);
    let left = run_limited(&rt, alloc, &catalogue, disks, text.as_str());
    assert!(&rt; left.generation == 1);
    assert!(&rt; left.sink.taken().ends_with(ANSWERED.as_bytes()));
    expect_again(&rt, alloc, &catalogue, left.disks);
}
