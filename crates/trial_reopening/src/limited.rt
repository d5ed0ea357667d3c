// Scripts over a pair of disks whose log has the least limit.
ghost use Rattle.std.specs.Prelude.{◌≡◌, false};
ghost use Rattle.boss_model.specs.Catalogue.{actuators};
ghost use Rattle.boss_model.specs.Sound.{IsSound};
ghost use Rattle.boss_scripts.specs.Devices.{HasDevices};

use crate::outside::*;
use boss_disk::MemoryDisk;
use boss_durable::Durable;
use boss_lines::Next;
use boss_opening::open;
use boss_outside::BytesSink;
use boss_points::Catalogue;
use boss_scripts::run_script;
use std::alloc::Global;
use std::process::Abort;

/// How many bytes a log may have here, the least that is allowed.
pub const LOG_LIMIT: u64 = 131_072;

/// What a script left whose log has the least limit.
#[derive(Drop)]
pub struct Left {
    pub sink: BytesSink,
    pub generation: u64,
    pub disks: Pair,
}

/// Runs a script over two disks whose log has the least limit.
pub fn run_limited(
    rt: &impl Abort,
    alloc: Global,
    catalogue: &Catalogue,
    disks: Pair,
    text: &str,
) -> Left
    requires { HasDevices 1 (actuators catalogue.now) }
{
    let (first, second) = disks;
    match open(alloc, catalogue, first, second, LOG_LIMIT) {
        Ok(durable) => run_on(rt, alloc, catalogue, durable, text),
        Err((disks, _)) => Left {
            sink: sink(rt, alloc, 0),
            generation: 0,
            disks,
        },
    }
}

fn run_on(
    rt: &impl Abort,
    alloc: Global,
    catalogue: &Catalogue,
    durable: Durable<MemoryDisk>,
    text: &str,
) -> Left
    requires plant { durable.engine.plant ≡ actuators catalogue.now }
    requires going { durable.disks.stopped ≡ false }
    requires sound { IsSound durable.engine.plant durable.engine.state }
    requires devices { HasDevices 1 (actuators catalogue.now) }
{
    let mut source = source_of(rt, alloc, text);
    let (mut sink, mut devices) = (sink(rt, alloc, 0), device(rt, alloc, 0));
    let mut durable = durable;
    let end = run_script(
        alloc,
        catalogue,
        &mut durable,
        &mut source,
        &mut sink,
        &mut devices,
    );
    assert!(rt; end == Ok(Next::Finish));
    let generation = durable.generation();
    Left {
        sink,
        generation,
        disks: durable.close(),
    }
}
