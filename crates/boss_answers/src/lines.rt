//! Lines that go into a buffer, behind what it holds: of an answer, and of what came to none.

ghost use Rattle.std.specs.Prelude.{◌≡◌, ◌+◌, ◌≤◌, ◌++◌, length};
ghost use Rattle.boss_model.specs.Limits.{answer_room};
ghost use Rattle.boss_model.specs.Tellable.{IsTellable};
ghost use Rattle.def_wire.specs.Texts.{answer_text, denied_text, line_of, memory_text, stopped_text};

use crate::refusal::write_denied;
use crate::write_answer;
use boss_model::{Answer, Buffer};
use boss_points::Catalogue;

/// An answer as a line.
pub fn put_answer_line(into: &mut Buffer, catalogue: &Catalogue, answer: &Answer)
    requires room { length into.old.bytes + answer_room ≤ into.old.capacity }
    requires tellable { IsTellable catalogue.now answer.now }
    ensures text { into.new ≡ record into.old { bytes = into.old.bytes ++ line_of (answer_text catalogue.now answer.now) } }
    ensures short { length (line_of (answer_text catalogue.now answer.now)) ≤ answer_room }
{
    write_answer(into, catalogue, answer);
    into.push(b'\n');
}

/// That there was no memory for what was asked, as a line.
pub fn put_memory_line(into: &mut Buffer)
    requires { length into.old.bytes + length (line_of memory_text) ≤ into.old.capacity }
    ensures { into.new ≡ record into.old { bytes = into.old.bytes ++ line_of memory_text } }
{
    into.extend(memory_line());
}

/// That the disk has failed, as a line.
pub fn put_stopped_line(into: &mut Buffer)
    requires { length into.old.bytes + length (line_of stopped_text) ≤ into.old.capacity }
    ensures { into.new ≡ record into.old { bytes = into.old.bytes ++ line_of stopped_text } }
{
    into.extend(stopped_line());
}

/// Which write of a submit is denied, from 0, and by which rule, from 1, or 0 where no rule is for it, as a line.
pub fn put_denied_line(into: &mut Buffer, index: u32, rule: u32)
    requires { length into.old.bytes + 128 ≤ into.old.capacity }
    ensures { into.new ≡ record into.old { bytes = into.old.bytes ++ line_of (denied_text index rule) } }
{
    write_denied(into, index, rule);
    into.push(b'\n');
}

pub(crate) fn memory_line() -> &'static [u8]
    ensures { result.now ≡ line_of memory_text }
{
    b"{\"error\":\"memory\"}\n"
}

pub(crate) fn stopped_line() -> &'static [u8]
    ensures { result.now ≡ line_of stopped_text }
{
    b"{\"error\":\"stopped\"}\n"
}
