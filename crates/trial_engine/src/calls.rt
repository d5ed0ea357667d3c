//! What lines ask of engines.

ghost use Rattle.std.specs.Prelude.{◌≡◌, ◌<◌, ◌≤◌, IfSome};
ghost use Rattle.boss_model.specs.Catalogue.{actuators};
ghost use Rattle.boss_model.specs.Limits.{last_moment};
ghost use Rattle.boss_model.specs.Sound.{IsAllowed};

use boss_engine::Engine;
use boss_model::{Command, LAST_MOMENT, SessionId};
use boss_points::Catalogue;
use boss_requests::{ReadRefusal, RequestReader, read_by};
use def_wire::{Ask, Form, Request};
use std::alloc::Global;
use std::process::Abort;

/// What a session asks at a moment.
#[derive(Debug, Drop)]
pub struct Call {
    /// Who asks.
    pub session: SessionId,
    /// What is asked.
    pub command: Command,
    /// When, in milliseconds: 0 to 2^60.
    pub moment: u64,
}

/// An engine in its first state.
pub fn first_engine(rt: &impl Abort, alloc: Global, catalogue: &Catalogue) -> Engine
    ensures { result.plant ≡ actuators catalogue.now }
{
    Engine::new(alloc, catalogue).expect(rt, "memory")
}

/// What a line asks, at a moment that is so many times as early; none where it spells no command.
pub fn call_of(
    rt: &impl Abort,
    alloc: Global,
    catalogue: &Catalogue,
    line: &str,
    pace: u64,
) -> Option<Call>
    requires { 0 < pace }
    ensures moment { IfSome result (λ call. call.moment ≤ last_moment) }
    ensures allowed { IfSome result (λ call. IsAllowed (actuators catalogue.now) call.command) }
{
    let mut reader = RequestReader::new(alloc);
    match read_by(alloc, catalogue, line.as_bytes(), Form::Script, &mut reader) {
        Ok(request) => {
            let Request { on, at, ask } = request;
            match ask {
                Ask::Command(command) => Some(Call {
                    session: on,
                    command,
                    moment: (at / pace).min(LAST_MOMENT),
                }),
                Ask::Watch { .. } => None,
            }
        }
        Err(ReadRefusal::NoMemory) => panic!(rt; "memory"),
        Err(ReadRefusal::Refused(_)) => None,
    }
}

/// What an engine answers to a call, as a text.
pub fn told(rt: &impl Abort, alloc: Global, engine: &mut Engine, call: &Call) -> String
    requires moment { call.now.moment ≤ last_moment }
    requires allowed { IsAllowed engine.old.plant call.now.command }
    ensures { engine.new.plant ≡ engine.old.plant }
{
    let told = engine.step(call.session, &call.command, call.moment);
    let (answer, _) = told.expect(rt, "memory");
    format!(in alloc; "{answer:?}").expect(rt, "memory")
}

/// What an engine answers to a line, as a text; none where the line spells no command.
pub fn answer(
    rt: &impl Abort,
    alloc: Global,
    catalogue: &Catalogue,
    engine: &mut Engine,
    line: &str,
    pace: u64,
) -> String
    requires pace { 0 < pace }
    requires plant { engine.old.plant ≡ actuators catalogue.now }
    ensures { engine.new.plant ≡ actuators catalogue.now }
{
    match call_of(rt, alloc, catalogue, line, pace) {
        Some(call) => told(rt, alloc, engine, &call),
        None => String::new(alloc),
    }
}

/// Two engines answer a line alike.
pub fn expect_same<R: Abort>(
    rt: &R,
    alloc: Global,
    catalogue: &Catalogue,
    engine: &mut Engine,
    other: &mut Engine,
    line: &str,
    pace: u64,
)
    requires pace { 0 < pace }
    requires plant { engine.old.plant ≡ actuators catalogue.now }
    requires other { other.old.plant ≡ actuators catalogue.now }
    ensures plant { engine.new.plant ≡ actuators catalogue.now }
    ensures other { other.new.plant ≡ actuators catalogue.now }
{
    let one = answer(rt, alloc, catalogue, engine, line, pace);
    let two = answer(rt, alloc, catalogue, other, line, pace);
    expect_equal(rt, line, one.as_str(), two.as_str());
}

/// Compares what two engines answer to a line.
fn expect_equal(rt: &impl Abort, line: &str, one: &str, two: &str) {
    assert!(rt; one == two, "{line}: {one}, and {two}");
}

/// Two engines answer each of these lines alike.
pub fn expect_alike<R: Abort>(
    rt: &R,
    alloc: Global,
    catalogue: &Catalogue,
    engine: &mut Engine,
    other: &mut Engine,
    lines: &str,
)
    requires plant { engine.old.plant ≡ actuators catalogue.now }
    requires other { other.old.plant ≡ actuators catalogue.now }
    ensures plant { engine.new.plant ≡ actuators catalogue.now }
    ensures other { other.new.plant ≡ actuators catalogue.now }
{
    for line in lines.split('\n') {
        expect_same(rt, alloc, catalogue, engine, other, line, 1);
    }
}
