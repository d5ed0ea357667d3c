//! What is said of a plan that was refused.

ghost use Rattle.std.specs.Prelude.{◌≡◌, ◌++◌, codes, decimal, IfOk};
ghost use Rattle.boss_plans.specs.Lines.{key_text, name_at, refusal_line, refusal_text};

use crate::{PlanKey, PlanRefusal};
use boss_model::{NoMemory, PointId};
use boss_points::Catalogue;
use std::alloc::Global;

/// The line that says why a plan for the points of this catalogue was refused. It has the name of a point without a place.
pub fn refusal_line(
    alloc: Global,
    catalogue: &Catalogue,
    refusal: PlanRefusal,
) -> Result<Vec<u8>, NoMemory>
    ensures { IfOk result (λ line. line.items ≡ refusal_line catalogue.now refusal) }
{
    let mut line = Vec::from_slice(alloc, b"plan ")?;
    line.extend_from_slice(&text_of(alloc, catalogue, refusal)?)?;
    line.extend_from_slice(b"\n")?;
    Ok(line)
}

fn text_of(alloc: Global, catalogue: &Catalogue, refusal: PlanRefusal) -> Result<Vec<u8>, NoMemory>
    ensures { IfOk result (λ text. text.items ≡ refusal_text catalogue.now refusal) }
{
    match refusal {
        PlanRefusal::TooLong { length } => with_number(alloc, b"too-long ", length),
        PlanRefusal::NotToml => Ok(Vec::from_slice(alloc, b"not-toml")?),
        PlanRefusal::Missing { key } => missing(alloc, key),
        PlanRefusal::BadDriver { place } => with_number(alloc, b"bad-driver ", place),
        PlanRefusal::BadPlace { place } => with_number(alloc, b"bad-place ", place),
        PlanRefusal::NoPlace { point } => no_place(alloc, catalogue, point),
        PlanRefusal::NoMemory => Ok(Vec::new(alloc)),
    }
}

fn missing(alloc: Global, key: PlanKey) -> Result<Vec<u8>, NoMemory>
    ensures { IfOk result (λ text. text.items ≡ codes "missing " ++ key_text key) }
{
    match key {
        PlanKey::Driver => Ok(Vec::from_slice(alloc, b"missing driver")?),
        PlanKey::Place => Ok(Vec::from_slice(alloc, b"missing place")?),
    }
}

fn no_place(alloc: Global, catalogue: &Catalogue, point: PointId) -> Result<Vec<u8>, NoMemory>
    ensures { IfOk result (λ text. text.items ≡ codes "no-place " ++ name_at catalogue.now point) }
{
    let mut text = Vec::from_slice(alloc, b"no-place ")?;
    if point.0 < catalogue.count() {
        text.extend_from_slice(catalogue.point(point).name.bytes())?;
    }
    Ok(text)
}

fn with_number(alloc: Global, word: &[u8], number: u64) -> Result<Vec<u8>, NoMemory>
    ensures { IfOk result (λ text. text.items ≡ word.now ++ decimal number) }
{
    let mut text = Vec::from_slice(alloc, word)?;
    text.extend_from_slice(itoa::Buffer::new().format(number).as_bytes())?;
    Ok(text)
}
