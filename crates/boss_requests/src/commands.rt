ghost use Rattle.std.specs.Prelude.{◌≡◌, ◌<◌, length, List, IfOk, IfSome};
ghost use Rattle.def_wire.specs.declared.form.Form.{Form};
ghost use Rattle.def_wire.specs.declared.form.Form.TheVariants.{Script, FirstLine};
ghost use Rattle.def_wire.specs.declared.form.Op.TheVariants.{Attach, Submit, Renew, Cancel, Read, Array, Status, Notices, Points};
ghost use Rattle.boss_model.specs.declared.state.Actuator.{Actuator};
ghost use Rattle.boss_model.specs.declared.spot.Key.TheVariants.{Txn as TxnKey};
ghost use Rattle.boss_model.specs.Catalogue.{actuators};
ghost use Rattle.def_wire.specs.Keys.{number_from};
ghost use Rattle.def_wire.specs.Requests.{array_of, ask_of, attach_of, cancel_of, common_op, needs, notices_of, op_named, page_of, point_of, read_of, renew_of, status_of, submit_of, watch_of};
ghost use Rattle.boss_requests.specs.Given.{Gives, IsAskOf, IsOpOf, MayAsk};

use crate::ReadRefusal;
use crate::keys::{
    first_notice, number_under, number_within, points_of, policy_of, process_of, seq_of,
    some_process_of, text_under, whole_under, writes_of,
};
use crate::points::{point_at, points_named};
use crate::refusal::in_line;
use crate::writes::settings_in;
use boss_json::JsonValue;
use boss_model::{Command, Key, LAST_NUMBER, MOST_TOLD, PointId, Txn};
use boss_points::Catalogue;
use def_wire::{Ask, Form, Op};
use std::alloc::Global;

/// What the text under `op` asks for.
pub(crate) fn op_named(form: Form, text: &[u8]) -> Option<Op>
    ensures op { result ≡ op_named form text.now }
    ensures form { IfSome result (IsOpOf form) }
{
    match form {
        Form::Script => script_op(text),
        Form::FirstLine => first_op(text),
        Form::LaterLine => common_op(text),
    }
}

fn script_op(text: &[u8]) -> Option<Op>
    ensures op { result ≡ op_named Script text.now }
    ensures form { IfSome result (IsOpOf Script) }
{
    match text {
        b"gone" => Some(Op::Gone),
        b"tick" => Some(Op::Tick),
        _ => common_op(text),
    }
}

fn first_op(text: &[u8]) -> Option<Op>
    ensures op { result ≡ op_named FirstLine text.now }
    ensures form { IfSome result (IsOpOf FirstLine) }
{
    match text {
        b"watch" => Some(Op::Watch),
        _ => common_op(text),
    }
}

fn common_op(text: &[u8]) -> Option<Op>
    ensures op { result ≡ common_op text.now }
    ensures form { (form : Form) → IfSome result (IsOpOf form) }
{
    match text {
        b"attach" => Some(Op::Attach),
        b"submit" => Some(Op::Submit),
        b"renew" => Some(Op::Renew),
        b"cancel" => Some(Op::Cancel),
        b"read" => Some(Op::Read),
        b"array" => Some(Op::Array),
        b"status" => Some(Op::Status),
        b"notices" => Some(Op::Notices),
        b"points" => Some(Op::Points),
        b"version" => Some(Op::Version),
        _ => None,
    }
}

/// What an object asks. It is compiled into the reader of each kind of values, as what it calls for each line: a request is then made
/// where it is told, and not passed on.
#[inline(always)]
pub(crate) fn ask_in<V: JsonValue>(
    alloc: Global,
    catalogue: &Catalogue,
    op: Op,
    value: &V,
) -> Result<Ask, ReadRefusal>
    ensures ask { Gives (λ ask. ask) result (ask_of catalogue.now op (V.meaning value.now)) }
    ensures allowed { IfOk result (MayAsk (actuators catalogue.now)) }
    ensures op { IfOk result (IsAskOf op) }
{
    match op {
        Op::Attach => attach_in(value),
        Op::Submit => submit_in(alloc, catalogue, value),
        Op::Renew => renew_in(alloc, catalogue, value),
        Op::Cancel => cancel_in(value),
        Op::Read => read_in(catalogue, value),
        Op::Array => array_in(catalogue, value),
        Op::Status => status_in(value),
        Op::Notices => notices_in(value),
        Op::Points => page_in(value),
        Op::Version => Ok(Ask::Command(Command::Version)),
        Op::Gone => Ok(Ask::Command(Command::Gone)),
        Op::Tick => Ok(Ask::Command(Command::Tick)),
        Op::Watch => watch_in(value),
    }
}

fn attach_in<V: JsonValue>(value: &V) -> Result<Ask, ReadRefusal>
    ensures ask { Gives (λ ask. ask) result (attach_of (V.meaning value.now)) }
    ensures allowed { (plant : List Actuator) → IfOk result (MayAsk plant) }
    ensures op { IfOk result (IsAskOf Attach) }
{
    let name = process_of(value).ok_or(in_line(Key::Process))?;
    Ok(Ask::Command(Command::Attach { name }))
}

fn submit_in<V: JsonValue>(
    alloc: Global,
    catalogue: &Catalogue,
    value: &V,
) -> Result<Ask, ReadRefusal>
    ensures ask { Gives (λ ask. ask) result (submit_of catalogue.now (V.meaning value.now)) }
    ensures allowed { IfOk result (MayAsk (actuators catalogue.now)) }
    ensures op { IfOk result (IsAskOf Submit) }
{
    let values = writes_of(value).ok_or(in_line(Key::Writes))?;
    let policy = policy_of(value).ok_or(in_line(Key::Policy))?;
    let seq = seq_of(value).ok_or(in_line(Key::Seq))?;
    let writes = settings_in(alloc, catalogue, values)?;
    Ok(Ask::Command(Command::Submit {
        writes,
        policy,
        seq,
    }))
}

fn renew_in<V: JsonValue>(
    alloc: Global,
    catalogue: &Catalogue,
    value: &V,
) -> Result<Ask, ReadRefusal>
    ensures ask { Gives (λ ask. ask) result (renew_of catalogue.now (V.meaning value.now)) }
    ensures allowed { IfOk result (MayAsk (actuators catalogue.now)) }
    ensures op { IfOk result (IsAskOf Renew) }
{
    let txn = txn_of(value)?;
    let length = whole_under(value, "length").ok_or(in_line(Key::Length))?;
    let names = points_of(value).ok_or(in_line(Key::Points))?;
    let seq = seq_of(value).ok_or(in_line(Key::Seq))?;
    let points = points_named(alloc, catalogue, names)?;
    Ok(Ask::Command(Command::Renew {
        txn,
        length,
        points,
        seq,
    }))
}

fn cancel_in<V: JsonValue>(value: &V) -> Result<Ask, ReadRefusal>
    ensures ask { Gives (λ ask. ask) result (cancel_of (V.meaning value.now)) }
    ensures allowed { (plant : List Actuator) → IfOk result (MayAsk plant) }
    ensures op { IfOk result (IsAskOf Cancel) }
{
    let txn = txn_of(value)?;
    let seq = seq_of(value).ok_or(in_line(Key::Seq))?;
    Ok(Ask::Command(Command::Cancel { txn, seq }))
}

fn read_in<V: JsonValue>(catalogue: &Catalogue, value: &V) -> Result<Ask, ReadRefusal>
    ensures ask { Gives (λ ask. ask) result (read_of catalogue.now (V.meaning value.now)) }
    ensures allowed { IfOk result (MayAsk (actuators catalogue.now)) }
    ensures op { IfOk result (IsAskOf Read) }
{
    let point = point_of(catalogue, value)?;
    Ok(Ask::Command(Command::Read { point }))
}

fn array_in<V: JsonValue>(catalogue: &Catalogue, value: &V) -> Result<Ask, ReadRefusal>
    ensures ask { Gives (λ ask. ask) result (array_of catalogue.now (V.meaning value.now)) }
    ensures allowed { IfOk result (MayAsk (actuators catalogue.now)) }
    ensures op { IfOk result (IsAskOf Array) }
{
    let point = point_of(catalogue, value)?;
    Ok(Ask::Command(Command::Array { point }))
}

fn status_in<V: JsonValue>(value: &V) -> Result<Ask, ReadRefusal>
    ensures ask { Gives (λ ask. ask) result (status_of (V.meaning value.now)) }
    ensures allowed { (plant : List Actuator) → IfOk result (MayAsk plant) }
    ensures op { IfOk result (IsAskOf Status) }
{
    let txn = txn_of(value)?;
    Ok(Ask::Command(Command::Status { txn }))
}

fn notices_in<V: JsonValue>(value: &V) -> Result<Ask, ReadRefusal>
    ensures ask { Gives (λ ask. ask) result (notices_of (V.meaning value.now)) }
    ensures allowed { (plant : List Actuator) → IfOk result (MayAsk plant) }
    ensures op { IfOk result (IsAskOf Notices) }
{
    let name = some_process_of(value).ok_or(in_line(Key::Process))?;
    let from = first_notice(value).ok_or(in_line(Key::From))?;
    let max = number_within(value, "max", 1, MOST_TOLD, 16).ok_or(in_line(Key::Max))?;
    Ok(Ask::Command(Command::Notices { name, from, max }))
}

fn page_in<V: JsonValue>(value: &V) -> Result<Ask, ReadRefusal>
    ensures ask { Gives (λ ask. ask) result (page_of (V.meaning value.now)) }
    ensures allowed { (plant : List Actuator) → IfOk result (MayAsk plant) }
    ensures op { IfOk result (IsAskOf Points) }
{
    let from = number_within(value, "from", 0, LAST_NUMBER, 0).ok_or(in_line(Key::From))?;
    let max = number_within(value, "max", 1, MOST_TOLD, MOST_TOLD).ok_or(in_line(Key::Max))?;
    Ok(Ask::Command(Command::Points { from, max }))
}

fn watch_in<V: JsonValue>(value: &V) -> Result<Ask, ReadRefusal>
    ensures ask { Gives (λ ask. ask) result (watch_of (V.meaning value.now)) }
    ensures allowed { (plant : List Actuator) → IfOk result (MayAsk plant) }
{
    let name = process_of(value).ok_or(in_line(Key::Process))?;
    let from = first_notice(value).ok_or(in_line(Key::From))?;
    Ok(Ask::Watch { name, from })
}

/// The number of the transaction that a line is about.
fn txn_of<V: JsonValue>(value: &V) -> Result<Txn, ReadRefusal>
    ensures { Gives (λ txn. txn) result (needs TxnKey (number_from 0) (V.meaning value.now)) }
{
    let number = number_under(value, "txn").ok_or(in_line(Key::Txn))?;
    Ok(Txn(number))
}

/// The point that a line is about.
fn point_of<V: JsonValue>(catalogue: &Catalogue, value: &V) -> Result<PointId, ReadRefusal>
    ensures point { Gives (λ point. point) result (point_of catalogue.now (V.meaning value.now)) }
    ensures known { IfOk result (λ point. point < length catalogue.now.points) }
{
    let name = text_under(value, "point").ok_or(in_line(Key::Point))?;
    point_at(catalogue, 0, name)
}
