ghost use Rattle.std.specs.Prelude.{◌≡◌, None};
ghost use Rattle.boss_engine.specs.declared.reply.Reply.TheVariants as reply;

use crate::reply::Reply;
use boss_model::{ProcId, Refusal};

/// What a command came to.
#[derive(Drop)]
pub struct Done {
    pub reply: Reply,
    /// The process that the command concerned, where it changed what outlasts a stop, beside what time did.
    pub concerned: Option<ProcId>,
}

impl Done {
    /// The command changed nothing that outlasts a stop.
    pub fn unchanged(reply: Reply) -> Done
        ensures { result ≡ record { reply = reply; concerned = None } }
    {
        Done {
            reply,
            concerned: None,
        }
    }

    /// The command was refused.
    pub fn refused(why: Refusal) -> Done
        ensures { result ≡ record { reply = reply.Refused why; concerned = None } }
    {
        Done::unchanged(Reply::Refused(why))
    }
}

/// A command that was carried out: what it came to, and the moment of the last change before it acted.
#[derive(Drop)]
pub struct Deed {
    pub done: Done,
    pub passed: u64,
}
