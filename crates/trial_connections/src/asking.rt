//! What others ask of the machine of a trial.

ghost use Rattle.std.specs.Prelude.{◌≡◌};
ghost use Rattle.boss_model.specs.Catalogue.{actuators};
ghost use Rattle.def_history.specs.History.{MayCall};

use boss_model::{Answer, Command, SessionId};
use boss_points::Catalogue;
use boss_requests::{Ask, Form, Request, RequestReader, read_by};
use boss_shared::Desk;
use def_history::Outcome;
use std::alloc::Global;

/// More calls than any trial makes.
pub const ALL: u64 = 1_000_000;

/// When a machine fails.
#[derive(Clone, Copy)]
pub struct Machine {
    /// How many calls the disk is good for.
    pub good_calls: u64,
    /// How many of the commands that may want memory find it, before one finds none.
    pub fed: u64,
    /// Whether it is another session that then meets the fault of the disk.
    pub broken: bool,
}

/// A machine that never fails.
pub const GOOD: Machine = Machine {
    good_calls: ALL,
    fed: ALL,
    broken: false,
};

/// Whether a command is done, and not refused.
fn is_done<G: Desk>(
    desk: &G,
    pass: &mut G::Pass,
    session: SessionId,
    command: &Command,
    moment: u64,
) -> bool
    requires own { G.owns desk.now pass.old }
    requires may { MayCall (G.plant desk.now) (command.now, moment) }
    ensures own { G.owns desk.now pass.new }
    ensures parts { G.parts pass.new ≡ G.parts pass.old }
{
    match desk.call(pass, session, command, moment) {
        Outcome::Done { answer } => !matches!(answer, Answer::Refused(_)),
        _ => false,
    }
}

/// Whether a line of a script asks for a command that is done, and not refused.
pub fn is_line_done<G: Desk>(
    alloc: Global,
    catalogue: &Catalogue,
    desk: &G,
    pass: &mut G::Pass,
    line: &str,
) -> bool
    requires own { G.owns desk.now pass.old }
    requires plant { actuators catalogue.now ≡ G.plant desk.now }
    ensures own { G.owns desk.now pass.new }
    ensures parts { G.parts pass.new ≡ G.parts pass.old }
{
    let mut reader = RequestReader::new(alloc);
    let read = read_by(alloc, catalogue, line.as_bytes(), Form::Script, &mut reader);
    let Ok(Request { on, at, ask }) = read else {
        return false;
    };
    let Ask::Command(command) = ask else {
        return false;
    };
    is_done(desk, pass, on, &command, at)
}

/// Has the commands of a script's lines done, up to the first that is not. Says whether all were.
fn are_done<G: Desk>(
    alloc: Global,
    catalogue: &Catalogue,
    desk: &G,
    pass: &mut G::Pass,
    lines: &[&str],
) -> bool
    requires own { G.owns desk.now pass.old }
    requires plant { actuators catalogue.now ≡ G.plant desk.now }
    ensures own { G.owns desk.now pass.new }
    ensures parts { G.parts pass.new ≡ G.parts pass.old }
{
    for line in lines {
        if !is_line_done(alloc, catalogue, desk, pass, line) {
            return false;
        }
    }
    true
}

/// Has the commands of a script's lines done, and then a tick where the disk is to fail in it. Says whether all was as it is to be.
pub fn prepare<G: Desk>(
    alloc: Global,
    catalogue: &Catalogue,
    desk: &G,
    pass: &mut G::Pass,
    lines: &[&str],
    broken: bool,
) -> bool
    requires own { G.owns desk.now pass.old }
    requires plant { actuators catalogue.now ≡ G.plant desk.now }
    ensures own { G.owns desk.now pass.new }
    ensures parts { G.parts pass.new ≡ G.parts pass.old }
{
    if !are_done(alloc, catalogue, desk, pass, lines) {
        return false;
    }
    !broken || !is_done(desk, pass, SessionId(2), &Command::Tick, 0)
}
