ghost use Rattle.std.specs.Prelude.{◌≡◌, Some};
ghost use Rattle.boss_model.specs.declared.answer.Refusal.TheVariants.{Malformed};
ghost use Rattle.boss_model.specs.declared.spot.Spot.TheVariants.{Line, Write};
ghost use Rattle.boss_requests.specs.declared.refusal.ReadRefusal.TheVariants.{NoMemory as Memory, Refused};
ghost use Rattle.boss_requests.specs.Given.{refusal_of};

use boss_json::Unread;
use boss_model::{Key, NoMemory, Refusal, Spot};
use std::alloc::{AllocError, AllocFailed};
use std::error::Error;
use std::fmt;

/// Why a line gives no request.
#[derive(Debug, Drop)]
pub enum ReadRefusal {
    /// The line is refused, and this is the answer to it.
    Refused(Refusal),
    /// No memory was to be had. This says nothing of the line.
    NoMemory,
}

/// The line spells no request, and this is where.
#[inline(always)]
pub(crate) fn malformed(at: Spot) -> ReadRefusal
    ensures { result ≡ Refused (Malformed (Some at)) }
{
    ReadRefusal::Refused(Refusal::Malformed { at: Some(at) })
}

/// The same, under a key of the line itself.
#[inline(always)]
pub(crate) fn in_line(key: Key) -> ReadRefusal
    ensures { result ≡ Refused (Malformed (Some (Line key))) }
{
    malformed(Spot::Line { key })
}

/// The same, under a key of the write at this place.
#[inline(always)]
pub(crate) fn in_write(place: u32, key: Key) -> ReadRefusal
    ensures { result ≡ Refused (Malformed (Some (Write place key))) }
{
    malformed(Spot::Write { place, key })
}

impl fmt::Display for ReadRefusal {
    fn fmt<W: fmt::Write>(&self, f: &mut fmt::Formatter<W>) -> fmt::Result {
        match self {
            ReadRefusal::Refused(refusal) => write!(f, "{refusal}"),
            ReadRefusal::NoMemory => f.write_str("out of memory"),
        }
    }
}

impl Error for ReadRefusal {}

impl From<Unread> for ReadRefusal {
    ghost from_gives = { λ why refusal. refusal ≡ refusal_of why };

    fn from(why: Unread) -> Self {
        match why {
            Unread::Malformed => ReadRefusal::Refused(Refusal::Malformed { at: None }),
            Unread::NoMemory => ReadRefusal::NoMemory,
        }
    }
}

impl From<NoMemory> for ReadRefusal {
    ghost from_gives = { λ _ refusal. refusal ≡ Memory };

    fn from(_error: NoMemory) -> Self {
        ReadRefusal::NoMemory
    }
}

impl From<AllocError> for ReadRefusal {
    ghost from_gives = { λ _ refusal. refusal ≡ Memory };

    fn from(_error: AllocError) -> Self {
        ReadRefusal::NoMemory
    }
}

impl<T: Drop> From<AllocFailed<T>> for ReadRefusal {
    ghost from_gives = { λ _ refusal. refusal ≡ Memory };

    fn from(_failed: AllocFailed<T>) -> Self {
        ReadRefusal::NoMemory
    }
}
