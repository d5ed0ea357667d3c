// What is outside beside the disks and fails: a sink at each of its writes, a device, and a source without an end.
ghost use Rattle.std.specs.Prelude.{[]};
ghost use Rattle.boss_model.specs.Catalogue.{actuators};
ghost use Rattle.boss_scripts.specs.Devices.{HasDevices};

use crate::outside::*;
use boss_manager::Status;
use boss_outside::{BytesSink, Got, Hears, Source};
use boss_points::Catalogue;
use std::alloc::Global;
use std::process::Abort;

const INPUT: &str = "{\"op\":\"attach\",\"process\":\"a\"}
{\"at\":1000,\"op\":\"submit\",\"writes\":[{\"point\":\"ahu1.damper\",\"value\":45000,\"priority\":8,\"lease\":60000}]}
";

const TOLD: &str = "write field ahu1.damper 20000 ok
write field lamp 0 ok
write field fan 1 ok
{\"ok\":\"attached\",\"process\":\"a\",\"next\":1}
{\"ok\":\"accepted\",\"txn\":1,\"until\":61000}
write field ahu1.damper 45000 ok
";

/// The write of the sink that fails, how many bytes were told and how many calls the device was made by then, and what a check then
/// tells: what was done before is kept.
const WRITES: [(u64, usize, usize, &str); 6] = [
    (1, 0, 1, "events 0 now 0 leases 0 pending 0\n"),
    (2, 33, 2, "events 0 now 0 leases 0 pending 0\n"),
    (3, 55, 3, "events 0 now 0 leases 0 pending 0\n"),
    (4, 76, 3, "events 1 now 0 leases 0 pending 0\n"),
    (5, 117, 3, "events 2 now 1000 leases 1 pending 0\n"),
    (6, 157, 4, "events 2 now 1000 leases 1 pending 0\n"),
];

/// How many bytes of the whole text a run told, and how many calls its device was made.
fn told_and_called(rt: &impl Abort, ran: &Ran) -> (usize, usize) {
    let told = ran.sink.taken();
    assert!(rt; TOLD.as_bytes().starts_with(told));
    let device = ran.devices.first().expect(rt, "a device");
    (told.len(), device.calls().len())
}

#[test]
fn a_write_that_fails_ends_a_script(rt: HostRuntime) {
    let alloc = rt.alloc();
    let catalogue = three_points(&rt, alloc);
    for (write, bytes, calls, held) in &WRITES {
        expect_fault(&rt, alloc, &catalogue, *write, (*bytes, *calls), held);
    }
}

/// Runs the script with a sink whose write of this number fails, and compares what was told and called, and what a check tells.
fn expect_fault(
    rt: &impl Abort,
    alloc: Global,
    catalogue: &Catalogue,
    write: u64,
    told: (usize, usize),
    held: &str,
)
    requires { HasDevices 1 (actuators catalogue.now) }
{
    let disks = pair(rt, alloc, &[], &[]);
    let ran = run_failing(rt, alloc, catalogue, disks, INPUT, (write, 0));
    assert!(rt; ran.status == Status::WRITE_FAULT);
    assert!(rt; told_and_called(rt, &ran) == told);
    expect_check(rt, alloc, catalogue, ran.disks, Status::DONE, held);
}

/// The fourth call of the device fails, which ends the transaction: its fault is the third event, and is told behind a stop.
#[test]
fn a_device_that_fails_is_kept(rt: HostRuntime) {
    let alloc = rt.alloc();
    let catalogue = three_points(&rt, alloc);
    let disks = pair(&rt, alloc, &[], &[]);
    let ran = run_failing(&rt, alloc, &catalogue, disks, INPUT, (0, 4));
    expect_told(&rt, &ran.sink, FAILED);
    let disks = expect_run(
        &rt,
        alloc,
        &catalogue,
        ran.disks,
        NOTICES,
        Status::DONE,
        NOTED,
    );
    let held = "events 3 now 1000 leases 0 pending 0\n";
    expect_check(&rt, alloc, &catalogue, disks, Status::DONE, held);
}

const FAILED: &str = "write field ahu1.damper 20000 ok
write field lamp 0 ok
write field fan 1 ok
{\"ok\":\"attached\",\"process\":\"a\",\"next\":1}
{\"ok\":\"accepted\",\"txn\":1,\"until\":61000}
write field ahu1.damper 45000 failed
write field ahu1.damper 20000 ok
";

const NOTICES: &str = "{\"at\":1000,\"op\":\"notices\",\"process\":\"a\"}\n";

const NOTED: &str = "write field ahu1.damper 20000 ok
write field lamp 0 ok
write field fan 1 ok
{\"ok\":\"notices\",\"first\":1,\"next\":4,\"list\":[{\"n\":1,\"at\":1000,\"txn\":1,\"kind\":\"fault\",\"point\":\"ahu1.damper\"},{\"n\":2,\"at\":1000,\"txn\":1,\"kind\":\"ended\",\"point\":\"ahu1.damper\",\"cause\":\"fault\"},{\"n\":3,\"at\":1000,\"txn\":1,\"kind\":\"done\"}]}
";

/// Gives one byte `x` a read, and never ends.
#[derive(Drop)]
struct Endless {
    reads: u64,
}

impl Source for Endless {
    ghost tells = { ⊥ };

    ghost left = { λ source. [] };

    ghost held = { λ source. [] };

    ghost faults = { λ source. 0 };

    fn read(&mut self, into: &mut [u8]) -> Got {
        into[0] = b'x';
        self.reads = self.reads.saturating_add(1);
        Got::Bytes(1)
    }

    ghost suffix = { λ source tells. absurd tells };
}

impl Hears<BytesSink> for Endless {
    fn show(&mut self, _sink: &BytesSink) {}
}

/// It is told once there are as many bytes as no line may have, and nothing is read behind them.
#[test]
fn a_line_without_an_end_ends_a_script(rt: HostRuntime) {
    let alloc = rt.alloc();
    let catalogue = three_points(&rt, alloc);
    let mut source = Endless { reads: 0 };
    expect_ended(&rt, alloc, &catalogue, &mut source);
    assert!(&rt; source.reads == 65_536);
}

fn expect_ended(rt: &impl Abort, alloc: Global, catalogue: &Catalogue, source: &mut Endless)
    requires { HasDevices 1 (actuators catalogue.now) }
{
    let (sink, devices) = (sink(rt, alloc, 0), device(rt, alloc, 0));
    let disks = pair(rt, alloc, &[], &[]);
    let ran = run_over(alloc, catalogue, disks, source, sink, devices);
    assert!(rt; ran.status == Status::LINE_TOO_LONG);
    expect_told(rt, &ran.sink, ENDED);
}

const ENDED: &str = "write field ahu1.damper 20000 ok
write field lamp 0 ok
write field fan 1 ok
{\"error\":\"too-long\"}
";
