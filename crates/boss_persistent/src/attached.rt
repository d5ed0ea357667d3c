ghost use Rattle.std.specs.Prelude.{◌≡◌, ◌≤◌, ◌<◌, length, vec_len, vec_capacity};
ghost use Rattle.boss_model.specs.Processes.{attached_too, detached, process_of, session_of};

use boss_model::{ProcId, SessionId};
use std::marker::Model;

/// A session that holds a process.
#[derive(Clone, Copy)]
pub struct Attachment {
    pub session: SessionId,
    pub process: ProcId,
}

impl Model for Attachment {
    ghost use Rattle.boss_model.specs.State.{Attachment as Holding};

    ghost Value = { Holding };

    ghost view = { λ a. record { session = a.session; process = a.process } };

    ghost inverse = { λ a. record { session = a.session; process = a.process } };
}

/// The process that the session holds.
pub fn process_of(attached: &[Attachment], session: SessionId) -> Option<ProcId>
    ensures { result ≡ process_of attached.now session }
{
    for attachment in attached {
        if attachment.session == session {
            return Some(attachment.process);
        }
    }
    None
}

/// The session that holds the process.
pub fn session_of(attached: &[Attachment], process: ProcId) -> Option<SessionId>
    ensures { result ≡ session_of attached.now process }
{
    for attachment in attached {
        if attachment.process == process {
            return Some(attachment.session);
        }
    }
    None
}

/// The session holds the process from now on.
pub fn attach(attached: &mut Vec<Attachment>, session: SessionId, process: ProcId)
    requires { vec_len attached.old < vec_capacity attached.old }
    ensures items { attached.new.items ≡ attached_too session process attached.old.items }
    ensures room { vec_capacity attached.new ≡ vec_capacity attached.old }
{
    attached.push_reserved(Attachment { session, process });
}

/// The session holds no process any more.
pub fn detach(attached: &mut Vec<Attachment>, session: SessionId)
    ensures items { attached.new.items ≡ detached session attached.old.items }
    ensures room { vec_capacity attached.new ≡ vec_capacity attached.old }
{
    attached.retain(|attachment| attachment.session != session);
}
