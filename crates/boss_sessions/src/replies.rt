ghost use Rattle.std.specs.Prelude.{◌≡◌, ◌+◌, ◌≤◌, ◌++◌, List, [], length, Option, OnOk};
ghost use Rattle.std.specs.List.{AllByRecursion, flat_map};
ghost use Rattle.boss_model.specs.Tellable.{IsTellable};
ghost use Rattle.def_wire.specs.Texts.{answer_text, line_of};
ghost use Rattle.boss_outside.specs.Counts.{HasCause};
ghost use Rattle.boss_outside.specs.Streams.{Writes};
ghost use Rattle.boss_keys.specs.declared.entry.Entry.{Entry};
ghost use Rattle.boss_sessions.specs.Speaking.{speech_of};
ghost use Rattle.def_connection.specs.Batches.{texts_by};
ghost use Rattle.def_connection.specs.Speech.{Gate};
ghost use Rattle.boss_sessions.specs.Replies.{last_room, most_unsent, reply_room, PutsBy};
ghost use Rattle.boss_sessions.specs.Turns.{replies_of, rest_of, IsRest};

use boss_answers::{put_answer_line, put_denied_line, put_memory_line, put_stopped_line};
use boss_model::{ANSWER_ROOM, Answer, Buffer};
use boss_outside::{Failed, Sink};
use boss_points::Catalogue;
use def_history::Outcome;

/// How many bytes of replies are held, at most, where one more answer is put behind them: sixteen arrays with all their slots
/// have no more, so that the replies of nearly every batch are one write.
const MOST_UNSENT: u32 = ANSWER_ROOM;

/// Room for the line of why no more was done, in bytes.
const LAST_ROOM: u32 = 128;

/// Room for the replies that are written together, in bytes: those that are held, a longest answer behind them, and behind that
/// why no more was done. It is taken once a connection.
pub(crate) const REPLY_ROOM: u32 = MOST_UNSENT + ANSWER_ROOM + LAST_ROOM;

/// Tells the answers to commands, and behind them why no more were done: in one write, unless they are long.
pub(crate) fn tell_replies<K: Sink>(
    catalogue: &Catalogue,
    answers: &[Answer],
    rest: &Option<Outcome>,
    text: &mut Buffer,
    sink: &mut K,
) -> Result<(), Failed>
    requires room { reply_room ≤ text.old.capacity }
    requires tellable { AllByRecursion (IsTellable catalogue.now) answers.now }
    requires rest { IsRest rest.now }
    ensures room { text.new.capacity ≡ text.old.capacity }
    ensures bytes { (gates : List Gate) (keys : Option (List Entry)) → K.tells → Writes (K.taken sink.old) (K.taken sink.new)
        (texts_by (speech_of catalogue.now gates keys) (replies_of answers.now rest.now)) result }
    ensures cause { HasCause (K.faults sink.old) (K.faults sink.new) result }
{
    text.clear();
    match put_answers(catalogue, answers, text, sink) {
        Ok(()) => {
            put_rest(rest, text);
            sink.write(text.bytes())
        }
        Err(failed) => Err(failed),
    }
}

/// Puts answers behind what the buffer holds, each as a line.
fn put_answers<K: Sink>(
    catalogue: &Catalogue,
    answers: &[Answer],
    text: &mut Buffer,
    sink: &mut K,
) -> Result<(), Failed>
    requires room { reply_room ≤ text.old.capacity }
    requires held { length text.old.bytes + last_room ≤ text.old.capacity }
    requires tellable { AllByRecursion (IsTellable catalogue.now) answers.now }
    ensures room { text.new.capacity ≡ text.old.capacity }
    ensures held { OnOk result (length text.new.bytes + last_room ≤ text.new.capacity) }
    ensures bytes { K.tells → PutsBy (K.taken sink.old) text.old.bytes (K.taken sink.new) text.new.bytes
        (flat_map (λ answer. line_of (answer_text catalogue.now answer)) answers.now) result }
    ensures cause { HasCause (K.faults sink.old) (K.faults sink.new) result }
{
    for answer in answers {
        if let Err(failed) = put_answer(catalogue, answer, text, sink) {
            return Err(failed);
        }
    }
    Ok(())
}

/// Puts an answer behind what the buffer holds, as a line. Where it might not fit there, what is held is written first.
fn put_answer<K: Sink>(
    catalogue: &Catalogue,
    answer: &Answer,
    text: &mut Buffer,
    sink: &mut K,
) -> Result<(), Failed>
    requires room { reply_room ≤ text.old.capacity }
    requires tellable { IsTellable catalogue.now answer.now }
    ensures room { text.new.capacity ≡ text.old.capacity }
    ensures held { OnOk result (length text.new.bytes + last_room ≤ text.new.capacity) }
    ensures bytes { K.tells → PutsBy (K.taken sink.old) text.old.bytes (K.taken sink.new) text.new.bytes
        (line_of (answer_text catalogue.now answer.now)) result }
    ensures cause { HasCause (K.faults sink.old) (K.faults sink.new) result }
{
    match make_room(text, sink) {
        Ok(()) => {
            put_answer_line(text, catalogue, answer);
            Ok(())
        }
        Err(failed) => Err(failed),
    }
}

/// Writes what the buffer holds, where it holds more than `MOST_UNSENT` bytes.
fn make_room<K: Sink>(text: &mut Buffer, sink: &mut K) -> Result<(), Failed>
    ensures room { text.new.capacity ≡ text.old.capacity }
    ensures held { OnOk result (length text.new.bytes ≤ most_unsent) }
    ensures bytes { K.tells → PutsBy (K.taken sink.old) text.old.bytes (K.taken sink.new) text.new.bytes [] result }
    ensures cause { HasCause (K.faults sink.old) (K.faults sink.new) result }
{
    if text.bytes().len() <= MOST_UNSENT as usize {
        return Ok(());
    }
    let told = sink.write(text.bytes());
    text.clear();
    told
}

/// Puts why no more commands were done behind what the buffer holds, if there is a reason.
fn put_rest(rest: &Option<Outcome>, text: &mut Buffer)
    requires rest { IsRest rest.now }
    requires room { length text.old.bytes + last_room ≤ text.old.capacity }
    ensures { text.new ≡ record text.old { bytes = text.old.bytes ++ rest_of rest.now } }
{
    match rest {
        None => {}
        Some(Outcome::NoMemory) => put_memory_line(text),
        Some(Outcome::Denied { index, rule }) => put_denied_line(text, *index, *rule),
        Some(Outcome::Stopped | Outcome::DiskFault) => put_stopped_line(text),
        Some(Outcome::Done { .. }) => unreachable!(),
    }
}
