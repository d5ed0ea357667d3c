//! What a process has done before the worker's turns.

ghost use Rattle.std.specs.Prelude.{◌≡◌};
ghost use Rattle.boss_model.specs.Catalogue.{actuators};

use boss_model::Answer;
use boss_points::Catalogue;
use boss_requests::{Ask, Form, Request, RequestReader, read_by};
use boss_shared::Desk;
use def_history::Outcome;
use std::alloc::Global;

/// Whether a line of a script asks for a command that is done, and not refused.
fn is_done<G: Desk>(
    alloc: Global,
    catalogue: &Catalogue,
    desk: &G,
    pass: &mut G::Pass,
    line: &str,
) -> bool
    requires own { G.owns desk.now pass.old }
    requires plant { actuators catalogue.now ≡ G.plant desk.now }
    ensures own { G.owns desk.now pass.new }
    ensures parts { G.parts pass.new ≡ G.parts pass.old }
{
    let mut reader = RequestReader::new(alloc);
    let read = read_by(alloc, catalogue, line.as_bytes(), Form::Script, &mut reader);
    let Ok(Request { on, at, ask }) = read else {
        return false;
    };
    let Ask::Command(command) = ask else {
        return false;
    };
    match desk.call(pass, on, &command, at) {
        Outcome::Done { answer } => !matches!(answer, Answer::Refused(_)),
        _ => false,
    }
}

/// Has the commands of a script's lines done, up to the first that is not. Says whether all were.
pub fn are_done<G: Desk>(
    alloc: Global,
    catalogue: &Catalogue,
    desk: &G,
    pass: &mut G::Pass,
    lines: &[&str],
) -> bool
    requires own { G.owns desk.now pass.old }
    requires plant { actuators catalogue.now ≡ G.plant desk.now }
    ensures own { G.owns desk.now pass.new }
    ensures parts { G.parts pass.new ≡ G.parts pass.old }
{
    for line in lines {
        if !is_done(alloc, catalogue, desk, pass, line) {
            return false;
        }
    }
    true
}
