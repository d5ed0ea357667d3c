ghost use Rattle.std.specs.Prelude.{◌≡◌, ◌≤◌, List, length, map, drop, Option, IfOk, vec_capacity};
ghost use Rattle.std.specs.List.{AllByRecursion};
ghost use Rattle.boss_model.specs.Catalogue.{actuators};
ghost use Rattle.def_history.specs.History.{is_broken, MayCall};
ghost use Rattle.boss_keys.specs.declared.entry.Entry.{Entry};
ghost use Rattle.boss_sessions.specs.Speaking.{speech_of};
ghost use Rattle.boss_lock.specs.Places.{entries_at};
ghost use Rattle.def_connection.specs.Speech.{attaches_by, of_answer};
ghost use Rattle.boss_sessions.specs.Replies.{reply_room};
ghost use Rattle.boss_sessions.specs.Turns.{attached_by, counted, Replied, replied_to, turned, voice};

use crate::halt::Halt;
use crate::replies::tell_replies;
use boss_model::{Answer, Buffer, Command, Items, SessionId};
use boss_outside::{Failed, Sink};
use boss_points::Catalogue;
use boss_shared::Desk;
use def_history::Outcome;

/// Has all commands done in order, each at its moment in milliseconds, and tells a reply to each. One for which there is no memory,
/// or that is denied, is told so, and the ones behind it are done all the same.
pub(crate) fn answer_all<G: Desk, K: Sink>(
    catalogue: &Catalogue,
    desk: &G,
    pass: &mut G::Pass,
    session: SessionId,
    commands: Vec<(Command, u64)>,
    answers: &mut Vec<Answer>,
    attached: &mut bool,
    text: &mut Buffer,
    sink: &mut K,
) -> Result<(), Halt>
    requires own { G.owns desk.now pass.old }
    requires plant { actuators catalogue.now ≡ G.plant desk.now }
    requires few { length commands.items ≤ 16 }
    requires may { AllByRecursion (MayCall (actuators catalogue.now)) commands.items }
    requires room { 16 ≤ vec_capacity answers.old }
    requires text { reply_room ≤ text.old.capacity }
    ensures own { G.owns desk.now pass.new }
    ensures parts { G.parts pass.new ≡ G.parts pass.old }
    ensures room { vec_capacity answers.new ≡ vec_capacity answers.old }
    ensures text { text.new.capacity ≡ text.old.capacity }
    ensures replied { (keys : Option (List Entry)) → Replied (speech_of catalogue.now (G.denies desk.now) keys) session K.tells commands.items
        (voice (entries_at (G.seen pass.old) (G.mine pass.old)) (K.taken sink.old) (K.faults sink.old) attached.old (G.seen pass.old) (G.held pass.old))
        (voice (entries_at (G.seen pass.new) (G.mine pass.new)) (K.taken sink.new) (K.faults sink.new) attached.new (G.seen pass.new) (G.held pass.new))
        (counted (length commands.items) result) }
{
    let mut held = Items::from_vec(commands);
    while !held.slice().is_empty() {
        let count = match one_turn(
            catalogue, desk, pass, session, &held, answers, attached, text, sink,
        ) {
            Ok(count) => count,
            Err(halt) => return Err(halt),
        };
        held = without_front(held, count);
    }
    Ok(())
}

/// Has commands done until there is no memory for one or one is denied, tells the replies, and gives how many were replied to.
fn one_turn<G: Desk, K: Sink>(
    catalogue: &Catalogue,
    desk: &G,
    pass: &mut G::Pass,
    session: SessionId,
    commands: &Items<(Command, u64)>,
    answers: &mut Vec<Answer>,
    attached: &mut bool,
    text: &mut Buffer,
    sink: &mut K,
) -> Result<usize, Halt>
    requires own { G.owns desk.now pass.old }
    requires plant { actuators catalogue.now ≡ G.plant desk.now }
    requires some { 1 ≤ length commands.now }
    requires few { length commands.now ≤ 16 }
    requires may { AllByRecursion (MayCall (actuators catalogue.now)) commands.now }
    requires room { 16 ≤ vec_capacity answers.old }
    requires text { reply_room ≤ text.old.capacity }
    ensures own { G.owns desk.now pass.new }
    ensures parts { G.parts pass.new ≡ G.parts pass.old }
    ensures room { vec_capacity answers.new ≡ vec_capacity answers.old }
    ensures text { text.new.capacity ≡ text.old.capacity }
    ensures some { IfOk result (λ count. (1 ≤ count) × (count ≤ length commands.now)) }
    ensures replied { (keys : Option (List Entry)) → Replied (speech_of catalogue.now (G.denies desk.now) keys) session K.tells commands.now
        (voice (entries_at (G.seen pass.old) (G.mine pass.old)) (K.taken sink.old) (K.faults sink.old) attached.old (G.seen pass.old) (G.held pass.old))
        (voice (entries_at (G.seen pass.new) (G.mine pass.new)) (K.taken sink.new) (K.faults sink.new) attached.new (G.seen pass.new) (G.held pass.new)) result }
{
    let outcomes = desk.call_all(pass, session, commands, answers);
    let told = tell_replies(catalogue, answers.as_slice(), &outcomes.rest, text, sink);
    let accepted = attaches(commands.slice(), answers.as_slice());
    *attached = *attached || accepted;
    turn_end(&outcomes.rest, answers.len(), told)
}

/// How many of the commands were replied to, or why no more are done.
fn turn_end(
    rest: &Option<Outcome>,
    answered: usize,
    told: Result<(), Failed>,
) -> Result<usize, Halt>
    requires { answered ≤ 16 }
    ensures { result ≡ turned rest.now answered told }
{
    match rest {
        Some(Outcome::Stopped) => Err(Halt::Stopped),
        Some(Outcome::DiskFault) => Err(Halt::DiskFault),
        Some(Outcome::NoMemory | Outcome::Denied { .. } | Outcome::Done { .. }) => {
            replied(answered + 1, told)
        }
        None => replied(answered, told),
    }
}

/// This many commands were replied to, unless a write failed.
fn replied(count: usize, told: Result<(), Failed>) -> Result<usize, Halt>
    ensures { result ≡ replied_to count told }
{
    match told {
        Ok(()) => Ok(count),
        Err(Failed) => Err(Halt::WriteFault),
    }
}

/// The items behind the first ones, this many, in the same room.
fn without_front(held: Items<(Command, u64)>, count: usize) -> Items<(Command, u64)>
    requires { count ≤ length held }
    ensures { result ≡ drop count held }
{
    let mut items = held.into_vec();
    let rest = items.len() - count;
    items.rotate_left(count);
    items.truncate(rest);
    Items::from_vec(items)
}

/// Whether an attach was accepted.
fn attaches(commands: &[(Command, u64)], answers: &[Answer]) -> bool
    requires { length answers.now ≤ length commands.now }
    ensures { result ≡ attached_by commands.now (map of_answer answers.now) }
{
    for place in 0..answers.len() {
        if is_attach(&commands[place].0, &answers[place]) {
            return true;
        }
    }
    false
}

/// Whether this is an attach that was accepted.
fn is_attach(command: &Command, answer: &Answer) -> bool
    ensures { result ≡ attaches_by command.now (of_answer answer.now) }
{
    match command {
        Command::Attach { .. } => matches!(answer, Answer::Attached { .. }),
        _ => false,
    }
}
