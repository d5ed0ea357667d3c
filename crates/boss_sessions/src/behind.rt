ghost use Rattle.std.specs.Prelude.{◌≡◌, ◌≤◌, List, Option};
ghost use Rattle.boss_model.specs.Limits.{answer_room};
ghost use Rattle.boss_outside.specs.Counts.{HasCause};
ghost use Rattle.boss_outside.specs.Streams.{Writes};
ghost use Rattle.boss_model.specs.Catalogue.{Catalogue};
ghost use Rattle.def_wire.specs.Texts.{line_of};
ghost use Rattle.def_connection.specs.Speech.{Gate};
ghost use Rattle.boss_keys.specs.declared.entry.Entry.{Entry};
ghost use Rattle.boss_sessions.specs.Speaking.{speech_of, wrong_key_text};
ghost use Rattle.boss_sessions.specs.Ends.{end_at, end_behind, end_of, text_behind};

use crate::SessionEnd;
use crate::halt::Halt;
use crate::heard::Heard;
use boss_answers::{tell_memory, tell_refusal, tell_too_long};
use boss_model::Buffer;
use boss_outside::{Failed, Sink};

/// Tells the reply to what came behind the requests, if it has one.
pub(crate) fn tell_behind<K: Sink>(
    heard: &Heard,
    text: &mut Buffer,
    sink: &mut K,
) -> Result<(), Failed>
    requires room { answer_room ≤ text.old.capacity }
    ensures room { text.new.capacity ≡ text.old.capacity }
    ensures bytes { (catalogue : Catalogue) (gates : List Gate) (keys : Option (List Entry)) → K.tells →
        Writes (K.taken sink.old) (K.taken sink.new) (text_behind (speech_of catalogue gates keys) heard.now) result }
    ensures cause { HasCause (K.faults sink.old) (K.faults sink.new) result }
{
    match heard {
        Heard::Refused(why) => tell_refusal(why, text, sink),
        Heard::Unread => tell_memory(sink),
        Heard::TooLong => tell_too_long(sink),
        Heard::WrongKey => tell_wrong_key(sink),
        _ => Ok(()),
    }
}

/// Tells that no key was shown, or that it was another's.
fn tell_wrong_key<K: Sink>(sink: &mut K) -> Result<(), Failed>
    ensures bytes { K.tells → Writes (K.taken sink.old) (K.taken sink.new) (line_of wrong_key_text) result }
    ensures cause { HasCause (K.faults sink.old) (K.faults sink.new) result }
{
    sink.write(b"{\"error\":\"wrong-key\"}\n")
}

/// Why the session ends after what was heard and its reply, if it does. A clock that failed goes before a write that did.
pub(crate) fn end_behind(heard: Heard, told: Result<(), Failed>) -> Option<SessionEnd>
    ensures { result ≡ end_behind heard told }
{
    match told {
        Ok(()) => end_of(heard),
        Err(Failed) => Some(end_at(Halt::WriteFault, &heard)),
    }
}

/// Why the session ends where requests were halted.
pub(crate) fn end_at(halt: Halt, heard: &Heard) -> SessionEnd
    ensures { result ≡ end_at halt heard.now }
{
    match halt {
        Halt::Stopped => SessionEnd::Stopped,
        Halt::DiskFault => SessionEnd::DiskFault,
        Halt::WriteFault => match heard {
            Heard::Untimed => SessionEnd::ClockFault,
            _ => SessionEnd::WriteFault,
        },
    }
}

/// Why the session ends where nothing failed but what was heard, if it does.
fn end_of(heard: Heard) -> Option<SessionEnd>
    ensures { result ≡ end_of heard }
{
    match heard {
        Heard::Requests | Heard::Refused(_) | Heard::Unread => None,
        Heard::Watch { name, from } => Some(SessionEnd::Watch { name, from }),
        Heard::Untimed => Some(SessionEnd::ClockFault),
        Heard::Limit => Some(SessionEnd::Limit),
        Heard::Finish => Some(SessionEnd::End),
        Heard::TooLong => Some(SessionEnd::TooLong),
        Heard::WrongKey => Some(SessionEnd::WrongKey),
        Heard::ReadFault => Some(SessionEnd::ReadFault),
    }
}
