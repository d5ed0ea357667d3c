// When a script reads on: only behind what its lines were answered.
ghost use Rattle.boss_model.specs.Catalogue.{actuators};
ghost use Rattle.boss_scripts.specs.Devices.{HasDevices};

use crate::outside::*;
use boss_manager::Status;
use boss_model::Items;
use boss_outside::{BytesSource, HeardSource, ReadAt};
use boss_points::Catalogue;
use std::alloc::Global;
use std::process::Abort;

const ATTACH: &[u8] = b"{\"op\":\"attach\",\"process\":\"a\"}\n";

/// The wants of the beginning are served before anything is read.
const FIRST: usize = 76;

const TOLD: &str = "write field ahu1.damper 20000 ok
write field lamp 0 ok
write field fan 1 ok
{\"ok\":\"attached\",\"process\":\"a\",\"next\":1}
";

/// An attach, and so many blank lines that no reader takes all of them at once.
fn asked(rt: &impl Abort, alloc: Global) -> HeardSource {
    let mut bytes = ATTACH.to_vec(alloc).expect(rt, "memory");
    bytes.resize(200_000, b'\n').expect(rt, "memory");
    let source = BytesSource::new(alloc, Items::from_vec(bytes), Items::new(alloc));
    HeardSource::new(alloc, source.expect(rt, "memory"))
}

/// Whether the first read was made when the wants of the beginning were told, and each later one when all was told.
fn are_in_time(reads: &[ReadAt]) -> bool {
    let Some((first, later)) = reads.split_first() else {
        return false;
    };
    let mut count = 0u32;
    for read in later {
        if read.told != TOLD.len() {
            return false;
        }
        count = count.saturating_add(1);
    }
    first.told == FIRST && first.left == 200_000 && count >= 2
}

#[test]
fn a_script_reads_on_when_its_lines_are_answered(rt: HostRuntime) {
    let alloc = rt.alloc();
    let catalogue = three_points(&rt, alloc);
    let mut source = asked(&rt, alloc);
    expect_answered(&rt, alloc, &catalogue, &mut source);
    assert!(&rt; source.is_whole() && are_in_time(source.reads()));
}

fn expect_answered(rt: &impl Abort, alloc: Global, catalogue: &Catalogue, source: &mut HeardSource)
    requires { HasDevices 1 (actuators catalogue.now) }
{
    let disks = pair(rt, alloc, &[], &[]);
    let (sink, devices) = (sink(rt, alloc, 0), device(rt, alloc, 0));
    let ran = run_over(alloc, catalogue, disks, source, sink, devices);
    assert!(rt; ran.status == Status::DONE);
    expect_told(rt, &ran.sink, TOLD);
}
