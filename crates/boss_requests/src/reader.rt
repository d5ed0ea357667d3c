ghost use Rattle.std.specs.Prelude.{◌≤◌, IfOk};
ghost use Rattle.boss_model.specs.Catalogue.{actuators};
ghost use Rattle.boss_model.specs.Limits.{last_moment};
ghost use Rattle.def_wire.specs.Requests.{parsed};
ghost use Rattle.boss_requests.specs.Given.{Gives, IsOfForm, IsSession, MayAsk};

use crate::ReadRefusal;
use crate::request::request_in;
use boss_json::ValueReader;
use boss_points::Catalogue;
use def_wire::{Form, Request};
use std::alloc::Global;

/// The room that reading requests takes, kept from line to line. It grows up to the longest line.
#[derive(Debug, Drop)]
pub struct RequestReader {
    values: ValueReader,
}

impl RequestReader {
    /// The room before the first line, which takes no memory.
    pub fn new(alloc: Global) -> RequestReader {
        RequestReader {
            values: ValueReader::new(alloc),
        }
    }
}

/// What a line asks, as a line of this form, or why it is refused. Only the first line of a connection may ask to watch. What the
/// reader read before does not matter. It is compiled apart, so that what it tells is moved once.
///
/// # Errors
///
/// `Refused` with `Malformed`, `UnknownOp` or `UnknownPoint`, which is the answer to the line, or `NoMemory`.
#[inline(never)]
#[tactic(auto, using(crate::proofs::Values::told), unfolding(def_wire::specs::Requests::parsed))]
pub fn read_by(
    alloc: Global,
    catalogue: &Catalogue,
    line: &[u8],
    form: Form,
    reader: &mut RequestReader,
) -> Result<Request, ReadRefusal>
    ensures request { Gives (λ request. request) result (parsed catalogue.now form line.now) }
    ensures on { IfOk result (λ request. IsSession form request.on) }
    ensures at { IfOk result (λ request. request.at ≤ last_moment) }
    ensures allowed { IfOk result (λ request. MayAsk (actuators catalogue.now) request.ask) }
    ensures watch { IfOk result (λ request. IsOfForm form request.ask) }
{
    if let Some(tree) = reader.values.read_compact(alloc, line) {
        return request_in(alloc, catalogue, form, &tree);
    }
    read_otherwise(alloc, catalogue, line, form, reader)
}

/// The same of a line that is spelled otherwise than most.
#[inline(never)]
#[tactic(auto, using(crate::proofs::Values::told), unfolding(def_wire::specs::Requests::parsed))]
fn read_otherwise(
    alloc: Global,
    catalogue: &Catalogue,
    line: &[u8],
    form: Form,
    reader: &mut RequestReader,
) -> Result<Request, ReadRefusal>
    ensures request { Gives (λ request. request) result (parsed catalogue.now form line.now) }
    ensures on { IfOk result (λ request. IsSession form request.on) }
    ensures at { IfOk result (λ request. request.at ≤ last_moment) }
    ensures allowed { IfOk result (λ request. MayAsk (actuators catalogue.now) request.ask) }
    ensures watch { IfOk result (λ request. IsOfForm form request.ask) }
{
    let value = reader.values.read(alloc, line)?;
    request_in(alloc, catalogue, form, &value)
}
