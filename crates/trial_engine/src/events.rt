ghost use Rattle.std.specs.Prelude.{◌≡◌, ◌≤◌};
ghost use Rattle.boss_model.specs.Catalogue.{actuators};
ghost use Rattle.boss_model.specs.Effects.{act_of, event_of, step_effect};
ghost use Rattle.boss_model.specs.Limits.{last_moment};
ghost use Rattle.boss_model.specs.Plants.{IsPlant};
ghost use Rattle.boss_model.specs.Sound.{IsAllowed, IsSound};
ghost use Rattle.law_spelling.specs.Ranges.{IsSpelled};

use crate::calls::{Call, answer, call_of, expect_alike, first_engine};
use crate::plants::plant;
use boss_engine::Engine;
use boss_model::{Act, Command, DriverId, Effect, Event, ProcId, SessionId};
use boss_points::Catalogue;
use std::alloc::Global;
use std::process::Abort;
use trial_parts::THREE_POINTS;

/// What is asked in turn, each line behind the kind of its event. Numbered requests are among them. The driver asks for a want by
/// `next`, and reports by `fan` that this point's device did not take its second version.
const CALLS: &[(&str, &str)] = &[
    ("enrol", r#"{"op":"attach","process":"a"}"#),
    ("enrol", r#"{"on":2,"op":"attach","process":"b"}"#),
    ("none", r#"{"on":2,"op":"attach","process":"b"}"#),
    (
        "submit",
        r#"{"at":1000,"op":"submit","seq":1,"writes":[{"point":"ahu1.damper","value":45000,"priority":8,"lease":60000,"revert":[[30000,5000]]},{"point":"lamp","value":1,"priority":9,"lease":60000}]}"#,
    ),
    (
        "none",
        r#"{"at":1000,"op":"submit","seq":1,"writes":[{"point":"lamp","value":1,"priority":9,"lease":60000}]}"#,
    ),
    (
        "submit",
        r#"{"on":2,"at":1000,"op":"submit","writes":[{"point":"ahu1.damper","value":20000,"priority":10,"lease":100000}]}"#,
    ),
    (
        "renew",
        r#"{"at":2000,"op":"renew","seq":2,"txn":1,"length":60000}"#,
    ),
    (
        "renew",
        r#"{"at":3000,"op":"renew","txn":1,"length":60000,"points":["lamp"]}"#,
    ),
    ("none", r#"{"at":3500,"op":"tick"}"#),
    ("tick", r#"{"at":62000,"op":"tick"}"#),
    (
        "submit",
        r#"{"on":2,"at":62500,"op":"submit","writes":[{"point":"ahu1.damper","value":50000,"priority":8,"lease":60000,"revert":[[0,1000]]}]}"#,
    ),
    ("cancel", r#"{"on":2,"at":62600,"op":"cancel","txn":2}"#),
    (
        "submit",
        r#"{"on":2,"at":62700,"op":"submit","policy":"keep","writes":[{"point":"fan","value":2,"priority":8,"lease":60000}]}"#,
    ),
    ("none", "next"),
    ("none", "next"),
    ("none", "next"),
    ("fault", "fan"),
    ("cancel", r#"{"at":62800,"op":"cancel","seq":3,"txn":1}"#),
    ("gone", r#"{"on":2,"at":62900,"op":"gone"}"#),
    ("tick", r#"{"at":63900,"op":"tick"}"#),
];

/// The slots of each point, how far each transaction has come, and what the processes were told.
const QUESTIONS: &str = r#"{"op":"array","point":"ahu1.damper"}
{"op":"array","point":"lamp"}
{"op":"array","point":"fan"}
{"op":"status","txn":1}
{"op":"status","txn":2}
{"op":"status","txn":3}
{"op":"status","txn":4}
{"op":"notices","process":"a","max":64}
{"op":"notices","process":"b","max":64}"#;

/// The first process comes back.
const ATTACH: &str = r#"{"op":"attach","process":"a"}"#;

/// The number that was accepted last, and a lesser one.
const NUMBERED: &str = r#"{"op":"cancel","seq":3,"txn":1}
{"op":"cancel","seq":2,"txn":1}"#;

/// The event that does the same again as a command of this effect.
fn event_of(command: Command, effect: Effect) -> Option<Event>
    ensures { result ≡ event_of command effect }
{
    match effect {
        Effect::Unchanged => None,
        Effect::Tick { moment } => Some(Event {
            moment,
            act: Act::Tick,
        }),
        Effect::Whole { moment, owner } => Some(Event {
            moment,
            act: act_of(command, owner),
        }),
    }
}

/// The act that does the same again as a command that concerns this process.
fn act_of(command: Command, owner: ProcId) -> Act
    ensures { result ≡ act_of command owner }
{
    match command {
        Command::Attach { name } => Act::Enrol { name },
        Command::Submit {
            writes,
            policy,
            seq,
        } => Act::Submit {
            owner,
            policy,
            writes,
            seq,
        },
        Command::Renew {
            txn,
            length,
            points,
            seq,
        } => Act::Renew {
            owner,
            txn,
            length,
            points,
            seq,
        },
        Command::Cancel { txn, seq } => Act::Cancel { owner, txn, seq },
        Command::Gone => Act::Gone { owner },
        Command::Report { point, .. } => Act::Fault { point },
        _ => Act::Tick,
    }
}

/// The word for an act.
fn kind(act: &Act) -> &'static str {
    match act {
        Act::Enrol { .. } => "enrol",
        Act::Submit { .. } => "submit",
        Act::Renew { .. } => "renew",
        Act::Cancel { .. } => "cancel",
        Act::Gone { .. } => "gone",
        Act::Tick => "tick",
        Act::Fault { .. } => "fault",
    }
}

/// An engine does an event again, which it has to find effective. The kind of the event is told.
fn do_again<R: Abort>(rt: &R, engine: &mut Engine, event: &Event) -> &'static str
    requires { IsSpelled event.now }
    ensures { engine.new.plant ≡ engine.old.plant }
{
    let effective = engine.replay(event).expect(rt, "memory");
    assert!(rt; effective, "an event that is not effective");
    kind(&event.act)
}

/// An engine makes a call, and another one does the call's event. The kind of the event is told.
fn make<R: Abort>(
    rt: &R,
    catalogue: &Catalogue,
    engine: &mut Engine,
    other: &mut Engine,
    call: Call,
) -> &'static str
    requires moment { call.moment ≤ last_moment }
    requires allowed { IsAllowed (actuators catalogue.now) call.command }
    requires plant { engine.old.plant ≡ actuators catalogue.now }
    requires other { other.old.plant ≡ actuators catalogue.now }
    ensures plant { engine.new.plant ≡ actuators catalogue.now }
    ensures other { other.new.plant ≡ actuators catalogue.now }
{
    let _ = catalogue.count();
    // Nothing is due at the moment of the last change. It is asked since an engine is known to be sound behind a step.
    let told = engine.step(SessionId(0), &Command::Tick, 0);
    let _ = told.expect(rt, "memory");
    make_of_sound(rt, engine, other, call)
}

/// The same of an engine that is known to be sound.
fn make_of_sound<R: Abort>(
    rt: &R,
    engine: &mut Engine,
    other: &mut Engine,
    call: Call,
) -> &'static str
    requires whole { IsPlant engine.old.plant }
    requires sound { IsSound engine.old.plant engine.old.state }
    requires moment { call.moment ≤ last_moment }
    requires allowed { IsAllowed engine.old.plant call.command }
    ensures plant { engine.new.plant ≡ engine.old.plant }
    ensures other { other.new.plant ≡ other.old.plant }
{
    let effect = effect_of(rt, engine, &call);
    let Call { command, .. } = call;
    match event_of(command, effect) {
        Some(event) => do_again(rt, other, &event),
        None => "none",
    }
}

/// The effect of a call of an engine.
fn effect_of<R: Abort>(rt: &R, engine: &mut Engine, call: &Call) -> Effect
    requires moment { call.now.moment ≤ last_moment }
    requires allowed { IsAllowed engine.old.plant call.now.command }
    ensures effect { result ≡ step_effect engine.old.plant call.now.session call.now.command call.now.moment engine.old.state }
    ensures plant { engine.new.plant ≡ engine.old.plant }
{
    let told = engine.step(call.session, &call.command, call.moment);
    let (_, effect) = told.expect(rt, "memory");
    effect
}

/// What a line asks.
fn asked<R: Abort>(rt: &R, alloc: Global, catalogue: &Catalogue, line: &str) -> Call
    ensures moment { result.moment ≤ last_moment }
    ensures allowed { IsAllowed (actuators catalogue.now) result.command }
{
    match call_of(rt, alloc, catalogue, line, 1) {
        Some(call) => call,
        None => Call {
            session: SessionId(0),
            command: driver_command(rt, catalogue, line),
            moment: 0,
        },
    }
}

/// What the driver says: it asks for a want, or reports that a point's device did not take its second version.
fn driver_command<R: Abort>(rt: &R, catalogue: &Catalogue, line: &str) -> Command
    ensures { IsAllowed (actuators catalogue.now) result }
{
    if line == "next" {
        return Command::Next {
            driver: DriverId(0),
        };
    }
    match catalogue.find(line.as_bytes()) {
        Some(point) => Command::Report {
            point,
            version: 2,
            ok: false,
        },
        None => panic!(rt; "no point: {line}"),
    }
}

/// What a line asks is made, and done again by the other engine, and both answer the same then.
fn expect_again<R: Abort>(
    rt: &R,
    alloc: Global,
    catalogue: &Catalogue,
    engine: &mut Engine,
    other: &mut Engine,
    wanted: &str,
    line: &str,
)
    requires plant { engine.old.plant ≡ actuators catalogue.now }
    requires other { other.old.plant ≡ actuators catalogue.now }
    ensures plant { engine.new.plant ≡ actuators catalogue.now }
    ensures other { other.new.plant ≡ actuators catalogue.now }
{
    let call = asked(rt, alloc, catalogue, line);
    let made = make(rt, catalogue, engine, other, call);
    assert!(rt; made == wanted, "{line}: {made}");
    expect_alike(rt, alloc, catalogue, engine, other, QUESTIONS);
}

/// Each event of a run does the same again on an engine that is given the events alone.
fn expect_all_again<R: Abort>(
    rt: &R,
    alloc: Global,
    catalogue: &Catalogue,
    engine: &mut Engine,
    other: &mut Engine,
    calls: &[(&str, &str)],
)
    requires plant { engine.old.plant ≡ actuators catalogue.now }
    requires other { other.old.plant ≡ actuators catalogue.now }
    ensures plant { engine.new.plant ≡ actuators catalogue.now }
    ensures other { other.new.plant ≡ actuators catalogue.now }
{
    for call in calls {
        expect_again(rt, alloc, catalogue, engine, other, call.0, call.1);
    }
}

/// The engine that is given the events alone knows the numbers of requests too.
fn expect_numbers_again<R: Abort>(
    rt: &R,
    alloc: Global,
    catalogue: &Catalogue,
    engine: &mut Engine,
    other: &mut Engine,
)
    requires plant { engine.old.plant ≡ actuators catalogue.now }
    requires other { other.old.plant ≡ actuators catalogue.now }
{
    expect_all_again(rt, alloc, catalogue, engine, other, CALLS);
    answer(rt, alloc, catalogue, other, ATTACH, 1);
    expect_alike(rt, alloc, catalogue, engine, other, NUMBERED);
}

#[test]
fn events_do_the_same_again(rt: HostRuntime) {
    let alloc = rt.alloc();
    let catalogue = plant(&rt, alloc, THREE_POINTS.as_bytes());
    let mut engine = first_engine(&rt, alloc, &catalogue);
    let mut other = first_engine(&rt, alloc, &catalogue);
    expect_numbers_again(&rt, alloc, &catalogue, &mut engine, &mut other);
}
