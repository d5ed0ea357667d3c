ghost use Rattle.std.specs.Prelude.{◌≡◌, ◌≤◌, false, [], None, IfOk, vec_capacity};
ghost use Rattle.boss_model.specs.Limits.{most_lines};
ghost use Rattle.def_connection.specs.Speech.{beginning};
ghost use Rattle.boss_sessions.specs.Places.{footing_of};
ghost use Rattle.boss_sessions.specs.Replies.{reply_room};

use crate::hearing::Hearing;
use crate::replies::REPLY_ROOM;
use boss_model::{Answer, Buffer, MOST_HELD, NoMemory};
use boss_requests::RequestReader;
use std::alloc::Global;

/// A session, as far as it has come.
#[derive(Debug, Drop)]
pub(crate) struct Session {
    pub(crate) hearing: Hearing,
    /// Room for reading its requests.
    pub(crate) requests: RequestReader,
    /// Whether an attach was accepted.
    pub(crate) attached: bool,
    /// The last moment that the clock gave, in milliseconds, and 0 before the first.
    pub(crate) last: u64,
    /// Room for the answers to the requests that are held.
    pub(crate) answers: Vec<Answer>,
    /// Room for the texts of replies.
    pub(crate) text: Buffer,
}

impl Session {
    /// A session before its first line. It takes all the memory that it keeps, but for the room for reading requests,
    /// which grows up to the longest line.
    pub(crate) fn new(alloc: Global) -> Result<Session, NoMemory>
        ensures reader { IfOk result (λ session. session.hearing.reader ≡ record { line = []; ahead = []; stopped = None }) }
        ensures lines { IfOk result (λ session. session.hearing.lines ≡ most_lines) }
        ensures footing { IfOk result (λ session. footing_of session.hearing ≡ beginning) }
        ensures attached { IfOk result (λ session. session.attached ≡ false) }
        ensures last { IfOk result (λ session. session.last ≡ 0) }
        ensures answers { IfOk result (λ session. 16 ≤ vec_capacity session.answers) }
        ensures text { IfOk result (λ session. reply_room ≤ session.text.capacity) }
    {
        Ok(Session {
            hearing: Hearing::new(alloc)?,
            requests: RequestReader::new(alloc),
            attached: false,
            last: 0,
            answers: Vec::with_capacity(alloc, MOST_HELD)?,
            text: Buffer::new(alloc, REPLY_ROOM)?,
        })
    }
}
