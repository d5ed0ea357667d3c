ghost use Rattle.std.specs.Prelude.{◌≡◌, ◌<◌, length};
ghost use Rattle.boss_model.specs.Catalogue.{actuators};

use crate::texts::expect_text;
use crate::trials::{Asked, ask_for, three_points};
use boss_access::Rules;
use boss_gate::Gatekeeper;
use boss_points::Catalogue;
use boss_shared::Manager;
use std::alloc::Global;
use std::process::Abort;
use std::sync::Wait;
use std::thread::Threads;
use trial_keeper::FailingKeeper;

/// `a` may write the damper from level 8 down, and nobody else may write anything.
const RULES: &str = "[[rule]]
process = \"a\"
point = \"ahu1.*\"
highest = 8

[[rule]]
process = \"*\"
point = \"*\"
allow = false
";

/// Asks this of a machine behind the rules before anything was done, and tells what it is told.
fn ask_behind_rules<R: Abort + Threads + Wait + Sync>(
    rt: &R,
    alloc: Global,
    catalogue: &Catalogue,
    asked: Asked,
    told: &mut String,
)
    requires { 0 < length (actuators catalogue.now) }
{
    let rules = Rules::read(alloc, RULES.as_bytes()).expect(rt, "rules");
    let keeper = FailingKeeper::new(alloc, catalogue, 10_000).expect(rt, "memory");
    match Manager::new(rt, alloc, keeper, 2) {
        Ok((manager, pass)) => {
            let gate = Gatekeeper::new(rules, catalogue, &manager);
            let pass = gate.admit(pass);
            let pass = ask_for(rt, alloc, &gate, pass, asked, told);
            gate.close();
            manager.close(pass.inner());
        }
        Err(_) => rt.panic("no memory"),
    }
}

/// What is asked, and what is told. Two threads and a batch are told what they are without rules.
const ROWS: [(Asked, &str); 3] = [
    (
        Asked::InTwoThreads,
        "attached: 1 0
accepted: 1 61000
the damper is held: 1 62000
ticked: 62000 0
refused, for the lease expired: 62000 62000
",
    ),
    (
        Asked::AtOnce,
        "attached: 1 0
accepted: 1 61000
the damper is held: 1 61000
done: 3 0
",
    ),
    (
        Asked::WhatIsDenied,
        "attached: 1 0
accepted: 1 61000
denied: 0 1
attached: 1 0
denied: 0 2
",
    ),
];

/// Asks this of a machine behind the rules, and compares what is told.
fn expect_told<R: Abort + Threads + Wait + Sync>(
    rt: &R,
    alloc: Global,
    catalogue: &Catalogue,
    asked: Asked,
    wanted: &str,
)
    requires { 0 < length (actuators catalogue.now) }
{
    let mut told = String::new(alloc);
    ask_behind_rules(rt, alloc, catalogue, asked, &mut told);
    expect_text(rt, told.as_str(), wanted);
}

#[test]
fn callers_share_one_gatekeeper(rt: HostRuntime) {
    let alloc = rt.alloc();
    let catalogue = three_points(&rt, alloc);
    for row in &ROWS {
        expect_told(&rt, alloc, &catalogue, row.0, row.1);
    }
}
