ghost use Rattle.std.specs.Prelude.{◌≡◌, ◌+◌, ◌≤◌, ◌<◌, ◌++◌, length, codes, decimal};
ghost use Rattle.std.specs.Fmt.{signed_decimal};
ghost use Rattle.def_wire.specs.Texts.{quoted, point_text, mark_text, stage_text, cause_text, basis_text};
ghost use Rattle.boss_answers.specs.Room.{HasRoom, PutsAtMost};

use boss_model::{Basis, Buffer, Cause, Mark, Name, PointId, Priority, Stage, Txn};
use boss_points::Catalogue;

/// A number behind its key. It is compiled into its callers, as all here that write behind a key: the key is known there, and so
/// is moved without a call.
#[inline(always)]
pub(crate) fn write_number(into: &mut Buffer, key: &[u8], number: u64)
    requires { HasRoom (length key.now + 20) into.old }
    ensures { PutsAtMost (length key.now + 20) into.old into.new (key.now ++ decimal number) }
{
    let mut digits = itoa::Buffer::new();
    into.extend(key);
    into.extend(digits.format(number).as_bytes());
}

/// The number that ends an object, behind its key.
#[inline(always)]
pub(crate) fn write_last(into: &mut Buffer, key: &[u8], number: u64)
    requires { HasRoom (length key.now + 21) into.old }
    ensures { PutsAtMost (length key.now + 21) into.old into.new (key.now ++ decimal number ++ codes "}") }
{
    write_number(into, key, number);
    into.push(b'}');
}

/// A transaction behind its key.
#[inline(always)]
pub(crate) fn write_txn(into: &mut Buffer, key: &[u8], txn: Txn)
    requires { HasRoom (length key.now + 20) into.old }
    ensures { PutsAtMost (length key.now + 20) into.old into.new (key.now ++ decimal txn) }
{
    write_number(into, key, txn.0);
}

/// A number that may be negative, behind its key.
#[inline(always)]
pub(crate) fn write_signed(into: &mut Buffer, key: &[u8], number: i64)
    requires { HasRoom (length key.now + 20) into.old }
    ensures { PutsAtMost (length key.now + 20) into.old into.new (key.now ++ signed_decimal number) }
{
    let mut digits = itoa::Buffer::new();
    into.extend(key);
    into.extend(digits.format(number).as_bytes());
}

/// A name in quotes, behind its key.
#[inline(always)]
pub(crate) fn write_quoted(into: &mut Buffer, key: &[u8], name: &Name)
    requires { HasRoom (length key.now + 66) into.old }
    ensures { PutsAtMost (length key.now + 66) into.old into.new (key.now ++ quoted name.now) }
{
    into.extend(key);
    into.push(b'"');
    into.extend(name.bytes());
    into.push(b'"');
}

/// The name of a point in quotes, behind its key.
#[inline(always)]
pub(crate) fn write_point(into: &mut Buffer, key: &[u8], catalogue: &Catalogue, point: PointId)
    requires room { HasRoom (length key.now + 66) into.old }
    requires known { point < length catalogue.now.points }
    ensures { PutsAtMost (length key.now + 66) into.old into.new (key.now ++ point_text catalogue.now point) }
{
    write_quoted(into, key, &catalogue.point(point).name);
}

/// How far a device has come.
pub(crate) fn mark_name(mark: Mark) -> &'static [u8]
    ensures text { result.now ≡ mark_text mark }
    ensures short { length result.now ≤ 9 }
{
    match mark {
        Mark::Settled => b"\"settled\"",
        Mark::Pending => b"\"pending\"",
        Mark::Failed => b"\"failed\"",
    }
}

/// How far a transaction has come.
pub(crate) fn stage_name(stage: Stage) -> &'static [u8]
    ensures text { result.now ≡ stage_text stage }
    ensures short { length result.now ≤ 8 }
{
    match stage {
        Stage::Run => b"\"run\"",
        Stage::Revert => b"\"revert\"",
        Stage::Done => b"\"done\"",
    }
}

/// Why a lease ended.
pub(crate) fn write_cause(into: &mut Buffer, cause: Cause)
    requires { HasRoom 38 into.old }
    ensures { PutsAtMost 38 into.old into.new (cause_text cause) }
{
    match cause {
        Cause::Expired => into.extend(b"\"expired\""),
        Cause::Cancelled => into.extend(b"\"cancelled\""),
        Cause::Died => into.extend(b"\"died\""),
        Cause::Fault => into.extend(b"\"fault\""),
        Cause::Superseded { by } => write_txn(into, b"\"superseded\",\"by\":", by),
    }
}

/// What a value rests on.
#[inline(always)]
pub(crate) fn write_basis(into: &mut Buffer, basis: Basis)
    requires { HasRoom 68 into.old }
    ensures { PutsAtMost 68 into.old into.new (basis_text basis) }
{
    match basis {
        Basis::Lease { priority, txn } => {
            write_level(into, b"\"lease\",\"priority\":", priority, txn);
        }
        Basis::Pending { priority, txn } => {
            write_level(into, b"\"pending\",\"priority\":", priority, txn);
        }
        Basis::Default => into.extend(b"\"default\""),
    }
}

/// A priority behind its key, and the transaction that holds the slot there.
#[inline(always)]
fn write_level(into: &mut Buffer, key: &[u8], priority: Priority, txn: Txn)
    requires { HasRoom (length key.now + 47) into.old }
    ensures { PutsAtMost (length key.now + 47) into.old into.new (key.now ++ decimal priority ++ codes ",\"txn\":" ++ decimal txn) }
{
    write_number(into, key, u64::from(priority.0));
    write_txn(into, b",\"txn\":", txn);
}
