ghost use Rattle.std.specs.Prelude.{◌+◌, ◌≤◌, ◌++◌, length, codes, decimal};
ghost use Rattle.def_wire.specs.Spots.{spot_text};
ghost use Rattle.def_wire.specs.Texts.{cause_text, denied_text, placed, quoted, refusal_text};
ghost use Rattle.boss_answers.specs.Room.{HasRoom, PutsAtMost};

use crate::parts::{write_cause, write_last, write_number, write_quoted};
use crate::spot::write_spot;
use boss_model::{Buffer, Cause, Name, Refusal, Spot};

/// A refusal as a JSON object.
pub(crate) fn write_refusal(into: &mut Buffer, refusal: &Refusal)
    requires { HasRoom 160 into.old }
    ensures { PutsAtMost 160 into.old into.new (refusal_text refusal.now) }
{
    match refusal {
        Refusal::Malformed { at: None } => into.extend(b"{\"error\":\"malformed\"}"),
        Refusal::Malformed { at: Some(spot) } => put_malformed(into, *spot),
        Refusal::UnknownOp => into.extend(b"{\"error\":\"unknown-op\"}"),
        Refusal::UnknownPoint { index } => put_placed(into, b"unknown-point", *index),
        Refusal::NotAttached => into.extend(b"{\"error\":\"not-attached\"}"),
        Refusal::Stale { kept } => write_last(into, b"{\"error\":\"stale\",\"kept\":", *kept),
        Refusal::SamePoint { index } => put_placed(into, b"same-point", *index),
        Refusal::BadPriority { index } => put_placed(into, b"bad-priority", *index),
        Refusal::OutOfRange { index } => put_placed(into, b"out-of-range", *index),
        Refusal::BadLease { index } => put_placed(into, b"bad-lease", *index),
        Refusal::BadReversion { index } => put_placed(into, b"bad-reversion", *index),
        Refusal::UnknownTxn => into.extend(b"{\"error\":\"unknown-txn\"}"),
        Refusal::NotYours => into.extend(b"{\"error\":\"not-yours\"}"),
        Refusal::NotInTxn { index } => put_placed(into, b"not-in-txn", *index),
        Refusal::Ended { cause, at, moment } => put_ended(into, *cause, *at, *moment),
        Refusal::Over { at } => write_last(into, b"{\"error\":\"over\",\"at\":", *at),
        Refusal::Already { name } => put_already(into, name),
        Refusal::Taken { session } => {
            write_last(into, b"{\"error\":\"taken\",\"session\":", session.0)
        }
        Refusal::TooManyProcesses => into.extend(b"{\"error\":\"too-many-processes\"}"),
        Refusal::Spent => into.extend(b"{\"error\":\"spent\"}"),
    }
}

/// A line that is at fault, and where.
fn put_malformed(into: &mut Buffer, spot: Spot)
    requires { HasRoom 160 into.old }
    ensures { PutsAtMost 160 into.old into.new (codes "{\"error\":\"malformed\",\"key\":" ++ quoted (spot_text spot) ++ codes "}") }
{
    into.extend(b"{\"error\":\"malformed\",\"key\":\"");
    write_spot(into, spot);
    into.push(b'"');
    into.push(b'}');
}

/// A write of a submit that is denied, from 0, and the rule, from 1, or 0 where no rule is for it.
pub(crate) fn write_denied(into: &mut Buffer, index: u32, rule: u32)
    requires { HasRoom 96 into.old }
    ensures { PutsAtMost 96 into.old into.new (denied_text index rule) }
{
    write_number(into, b"{\"error\":\"denied\",\"index\":", u64::from(index));
    write_number(into, b",\"rule\":", u64::from(rule));
    into.push(b'}');
}

/// A refusal with a place in the line or the command that was refused, counted from 0.
fn put_placed(into: &mut Buffer, error: &[u8], index: u32)
    requires short { length error.now ≤ 16 }
    requires room { HasRoom 64 into.old }
    ensures { PutsAtMost 64 into.old into.new (placed error.now index) }
{
    into.extend(b"{\"error\":\"");
    into.extend(error);
    write_number(into, b"\",\"index\":", u64::from(index));
    into.push(b'}');
}

/// A lease that was to be renewed has ended.
fn put_ended(into: &mut Buffer, cause: Cause, at: u64, moment: u64)
    requires { HasRoom 160 into.old }
    ensures { PutsAtMost 160 into.old into.new
        (codes "{\"error\":\"ended\",\"cause\":" ++ cause_text cause ++ codes ",\"at\":" ++ decimal at
        ++ codes ",\"moment\":" ++ decimal moment ++ codes "}") }
{
    into.extend(b"{\"error\":\"ended\",\"cause\":");
    write_cause(into, cause);
    write_number(into, b",\"at\":", at);
    write_number(into, b",\"moment\":", moment);
    into.push(b'}');
}

/// The session holds the process of this name.
fn put_already(into: &mut Buffer, name: &Name)
    requires { HasRoom 160 into.old }
    ensures { PutsAtMost 160 into.old into.new (codes "{\"error\":\"already\",\"process\":" ++ quoted name.now ++ codes "}") }
{
    write_quoted(into, b"{\"error\":\"already\",\"process\":", name);
    into.push(b'}');
}
