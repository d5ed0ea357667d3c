ghost use Rattle.std.specs.Prelude.{◌≡◌, ◌≤◌, ◌-◌, ℕ, true, List, ◌++◌, length, take, Option, Some, None, IfOk, IfSome};
ghost use Rattle.boss_model.specs.declared.event.Event.{Event};
ghost use Rattle.def_bytes.specs.Events.{act_at, event};
ghost use Rattle.boss_records.specs.Given.{Gives};

use crate::acts::{
    read_cancel, read_enrol, read_fault, read_gone, read_moment, read_numbered_cancel,
    read_numbered_renew, read_numbered_submit, read_renew, read_submit,
};
use crate::numbers::read_u8;
use crate::tag;
use crate::unread::Unread;
use boss_model::{Act, Event, NoMemory};
use std::alloc::Global;

/// The act of this tag that the bytes begin with.
fn read_act(alloc: Global, first: u8, bytes: &[u8]) -> Result<(Act, &[u8]), Unread>
    ensures { Gives (λ x. (x.0, x.1.now)) result (act_at first bytes.now) }
{
    match first {
        tag::ENROL => read_enrol(bytes),
        tag::SUBMIT => read_submit(alloc, bytes),
        tag::RENEW => read_renew(alloc, bytes),
        tag::CANCEL => read_cancel(bytes),
        tag::GONE => read_gone(bytes),
        tag::TICK => Ok((Act::Tick, bytes)),
        tag::FAULT => read_fault(bytes),
        tag::NUMBERED_SUBMIT => read_numbered_submit(alloc, bytes),
        tag::NUMBERED_RENEW => read_numbered_renew(alloc, bytes),
        tag::NUMBERED_CANCEL => read_numbered_cancel(bytes),
        _ => Err(Unread::NoSpelling),
    }
}

/// The event that the bytes begin with, and what is behind it.
fn event_at(alloc: Global, bytes: &[u8]) -> Result<(Event, &[u8]), Unread>
    ensures { Gives (λ x. (x.0, x.1.now)) result (event.at bytes.now) }
{
    let (first, rest) = read_u8(bytes)?;
    let (moment, rest) = read_moment(rest)?;
    match read_act(alloc, first, rest) {
        Ok((act, rest)) => Ok((Event { moment, act }, rest)),
        Err(unread) => Err(unread),
    }
}

/// The event that the bytes begin with, and how many bytes it has; none exactly where they begin with no event.
pub fn read_event(alloc: Global, bytes: &[u8]) -> Result<Option<(Event, usize)>, NoMemory>
    // What is read is spelled so.
    ensures found { IfOk result (λ read. IfSome read (λ x. (x.1 ≤ length bytes.now) × (event.fits x.0 ≡ true) × (take x.1 bytes.now ≡ event.text x.0))) }
    // What is spelled so is read, whatever follows it.
    ensures only { (e : Event) (rest : List ℕ) → event.fits e ≡ true → bytes.now ≡ event.text e ++ rest →
        IfOk result (λ read. read ≡ Some (e, length (event.text e))) }
{
    match event_at(alloc, bytes) {
        Ok((event, rest)) => Ok(Some((event, bytes.len() - rest.len()))),
        Err(Unread::NoSpelling) => Ok(None),
        Err(Unread::NoMemory) => Err(NoMemory),
    }
}
