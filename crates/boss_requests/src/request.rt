ghost use Rattle.std.specs.Prelude.{◌≡◌, ◌≤◌, IfOk, IfSome};
ghost use Rattle.boss_model.specs.Catalogue.{actuators};
ghost use Rattle.boss_model.specs.Limits.{last_moment};
ghost use Rattle.def_wire.specs.Requests.{moment_of, request_of, session_of};
ghost use Rattle.boss_requests.specs.Given.{Gives, IsOfForm, IsSession, MayAsk};

use crate::ReadRefusal;
use crate::commands::{ask_in, op_named};
use crate::keys::{number_within, text_under};
use crate::refusal::in_line;
use boss_json::JsonValue;
use boss_model::{Key, LAST_MOMENT, LAST_SESSION, Refusal, SessionId};
use boss_points::Catalogue;
use def_wire::{Form, Request};
use std::alloc::Global;

/// What a value asks.
pub(crate) fn request_in<V: JsonValue>(
    alloc: Global,
    catalogue: &Catalogue,
    form: Form,
    value: &V,
) -> Result<Request, ReadRefusal>
    ensures request { Gives (λ request. request) result (request_of catalogue.now form (V.meaning value.now)) }
    ensures on { IfOk result (λ request. IsSession form request.on) }
    ensures at { IfOk result (λ request. request.at ≤ last_moment) }
    ensures allowed { IfOk result (λ request. MayAsk (actuators catalogue.now) request.ask) }
    ensures watch { IfOk result (λ request. IsOfForm form request.ask) }
{
    let text = text_under(value, "op").ok_or(in_line(Key::Op))?;
    let op = op_named(form, text).ok_or(ReadRefusal::Refused(Refusal::UnknownOp))?;
    let on = session_of(form, value).ok_or(in_line(Key::On))?;
    let at = moment_of(form, value).ok_or(in_line(Key::At))?;
    let ask = ask_in(alloc, catalogue, op, value)?;
    Ok(Request { on, at, ask })
}

/// The session that a line is of.
fn session_of<V: JsonValue>(form: Form, value: &V) -> Option<SessionId>
    ensures session { result ≡ session_of form (V.meaning value.now) }
    ensures within { IfSome result (IsSession form) }
{
    match form {
        Form::Script => {
            let number = number_within(value, "on", 1, LAST_SESSION, 1)?;
            Some(SessionId(number))
        }
        Form::FirstLine | Form::LaterLine => Some(SessionId(0)),
    }
}

/// The moment at which a line asks.
fn moment_of<V: JsonValue>(form: Form, value: &V) -> Option<u64>
    ensures moment { result ≡ moment_of form (V.meaning value.now) }
    ensures within { IfSome result (λ at. at ≤ last_moment) }
{
    match form {
        Form::Script => number_within(value, "at", 0, LAST_MOMENT, 0),
        Form::FirstLine | Form::LaterLine => Some(0),
    }
}
