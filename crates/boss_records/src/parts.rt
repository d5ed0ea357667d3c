ghost use Rattle.std.specs.Prelude.{◌≡◌, ◌≤◌, ◌<◌, ℕ, length, map};
ghost use Rattle.def_bytes.specs.Fields.{byte, items_at};
ghost use Rattle.def_bytes.specs.Parts.{name, policy, steps};
ghost use Rattle.boss_records.specs.Given.{Finds, Gives};

use crate::numbers::{read_i64, read_natural32, read_u8, read_within};
use crate::spelled::{Spelled, read_items};
use crate::unread::{NoSpelling, Unread};
use boss_model::{LONGEST_NAME, MOST_STEPS, Name, Policy, Step};
use std::alloc::Global;

/// A policy: 0 for abort, 1 for keep.
pub fn read_policy(bytes: &[u8]) -> Result<(Policy, &[u8]), NoSpelling>
    ensures { Finds (λ x. (x.0, x.1.now)) result (policy.at bytes.now) }
{
    let (number, rest) = read_within(0, 1, bytes)?;
    let policy = if number == 0 {
        Policy::Abort
    } else {
        Policy::Keep
    };
    Ok((policy, rest))
}

/// So many bytes.
#[tactic(auto, using(crate::proofs::Bytes::some_bytes, crate::proofs::Bytes::too_few))]
fn read_bytes(count: usize, bytes: &[u8]) -> Result<(&[u8], &[u8]), NoSpelling>
    ensures { Finds (λ x. (x.0.now, x.1.now)) result (items_at byte count bytes.now) }
{
    if bytes.len() < count {
        return Err(NoSpelling);
    }
    Ok(bytes.split_at(count))
}

/// A name: its length in a byte, and so many bytes.
pub fn read_name(bytes: &[u8]) -> Result<(Name, &[u8]), NoSpelling>
    ensures { Finds (λ x. (x.0, x.1.now)) result (name.at bytes.now) }
{
    let (length, rest) = read_u8(bytes)?;
    if usize::from(length) > LONGEST_NAME {
        return Err(NoSpelling);
    }
    let (front, behind) = read_bytes(usize::from(length), rest)?;
    match Name::new(front) {
        Some(name) => Ok((name, behind)),
        None => Err(NoSpelling),
    }
}

impl Spelled for Step {
    ghost use Rattle.boss_model.specs.declared.command.Step.{Step};
    ghost use Rattle.def_bytes.specs.Parts.{step};

    ghost Value = { Step };

    ghost view = { λ x. x };

    ghost field = { step };

    fn read(_alloc: Global, bytes: &[u8]) -> Result<(Self, &[u8]), Unread> {
        let (value, rest) = read_i64(bytes)?;
        let (hold, rest) = read_natural32(rest)?;
        Ok((Step { value, hold }, rest))
    }
}

/// A reversion: the number of its steps in a byte, at most eight, and the steps.
pub fn read_steps(alloc: Global, bytes: &[u8]) -> Result<(Vec<Step>, &[u8]), Unread>
    ensures { Gives (λ x. (x.0.items, x.1.now)) result (steps.at bytes.now) }
{
    let (count, rest) = read_u8(bytes)?;
    if usize::from(count) > MOST_STEPS {
        return Err(Unread::NoSpelling);
    }
    read_items(alloc, u32::from(count), rest)
}
