ghost use Rattle.std.specs.Prelude.{◌≡◌, ◌<◌};
ghost use Rattle.boss_model.specs.Catalogue.{actuators};

use crate::calls::{answer, expect_alike, expect_same, first_engine};
use crate::plants::plant_of_the_day;
use boss_engine::Engine;
use boss_load::load_script;
use boss_model::Kept;
use boss_points::Catalogue;
use std::alloc::Global;
use std::process::Abort;

/// One of the engines stops behind each so many lines.
const PART: u32 = 701;

/// The day goes so many times as fast: about 120 slots are held at once, and transactions cut the reversions of others.
const PACE: u64 = 300;

/// With how many lines a script begins that attach processes.
const ATTACHES: usize = 6;

/// What is asked behind each stop.
const QUESTIONS: &str = r#"{"op":"array","point":"p0"}
{"op":"array","point":"p19"}
{"op":"array","point":"p39"}
{"op":"status","txn":1}
{"op":"status","txn":100}
{"op":"status","txn":300}
{"op":"status","txn":500}
{"op":"notices","process":"q1","max":64}
{"op":"notices","process":"q2","from":60,"max":64}
{"op":"notices","process":"q3","from":120,"max":64}
{"op":"notices","process":"q6","from":180,"max":64}"#;

/// The engine stops: another goes on in its place from what was kept of it.
fn stop<R: Abort>(rt: &R, alloc: Global, catalogue: &Catalogue, engine: &mut Engine)
    requires { engine.old.plant ≡ actuators catalogue.now }
    ensures { engine.new.plant ≡ actuators catalogue.now }
{
    let kept = engine.keep(alloc).expect(rt, "memory");
    go_on(rt, alloc, catalogue, engine, &kept);
}

/// An engine is replaced by one that goes on from what was kept.
fn go_on<R: Abort>(rt: &R, alloc: Global, catalogue: &Catalogue, engine: &mut Engine, kept: &Kept)
    requires { engine.old.plant ≡ actuators catalogue.now }
    ensures { engine.new.plant ≡ actuators catalogue.now }
{
    match Engine::restore(alloc, catalogue, kept) {
        Ok(restored) => *engine = restored,
        Err(_) => panic!(rt; "what was kept is not sound"),
    }
}

/// The processes come back to an engine, by the lines with which a script begins.
fn attach_all(
    rt: &impl Abort,
    alloc: Global,
    catalogue: &Catalogue,
    engine: &mut Engine,
    script: &str,
)
    requires { engine.old.plant ≡ actuators catalogue.now }
    ensures { engine.new.plant ≡ actuators catalogue.now }
{
    for line in script.split('\n').take(ATTACHES) {
        answer(rt, alloc, catalogue, engine, line, PACE);
    }
}

/// An engine that stopped answers as one that did not.
fn stop_beside<R: Abort>(
    rt: &R,
    alloc: Global,
    catalogue: &Catalogue,
    engine: &mut Engine,
    stopped: &mut Engine,
    script: &str,
)
    requires plant { engine.old.plant ≡ actuators catalogue.now }
    requires stopped { stopped.old.plant ≡ actuators catalogue.now }
    ensures plant { engine.new.plant ≡ actuators catalogue.now }
    ensures stopped { stopped.new.plant ≡ actuators catalogue.now }
{
    stop(rt, alloc, catalogue, stopped);
    attach_all(rt, alloc, catalogue, stopped, script);
    expect_alike(rt, alloc, catalogue, engine, stopped, QUESTIONS);
}

/// Two engines answer alike what a script asks, though one of them stops again and again.
fn run<R: Abort>(
    rt: &R,
    alloc: Global,
    catalogue: &Catalogue,
    engine: &mut Engine,
    stopped: &mut Engine,
    script: &str,
)
    requires plant { engine.old.plant ≡ actuators catalogue.now }
    requires stopped { stopped.old.plant ≡ actuators catalogue.now }
{
    let mut lines = 0_u32;
    for line in script.split('\n') {
        expect_same(rt, alloc, catalogue, engine, stopped, line, PACE);
        lines = lines.saturating_add(1);
        if lines % PART == 0 {
            stop_beside(rt, alloc, catalogue, engine, stopped, script);
        }
    }
}

/// The same of two engines in their first state.
fn run_beside<R: Abort>(rt: &R, alloc: Global, catalogue: &Catalogue, script: &[u8]) {
    let script = str::from_utf8(script).expect(rt, "a text");
    let mut engine = first_engine(rt, alloc, catalogue);
    let mut stopped = first_engine(rt, alloc, catalogue);
    run(rt, alloc, catalogue, &mut engine, &mut stopped, script);
}

/// A generated day of 500 transactions goes as if an engine had not stopped.
#[test]
fn a_day_goes_on_from_what_was_kept(rt: HostRuntime) {
    let alloc = rt.alloc();
    let catalogue = plant_of_the_day(&rt, alloc);
    let script = load_script(alloc, 500, 7).expect(&rt, "memory");
    run_beside(&rt, alloc, &catalogue, script.slice());
}
