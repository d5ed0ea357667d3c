use boss_model::{Answer, Command, Items, SessionId};

/// Commands of a session that were tried in one call of a disk, each at its moment, in milliseconds. No value of it is ever made.
#[derive(Debug, Drop)]
pub struct Tried {
    pub session: SessionId,
    pub commands: Items<(Command, u64)>,
}

/// What stands in a history. No value of it is ever made: it is the type that contracts speak of.
#[derive(Debug, Drop)]
pub enum Entry {
    /// The machine did a command of a session at a moment, in milliseconds, and answered this.
    Did {
        session: SessionId,
        command: Command,
        moment: u64,
        answer: Answer,
    },
    /// The disk failed in a call of these commands, each at its moment: first those of the caller that was told so, and behind
    /// them those of others, which the disk was to keep together with them. They may outlast a stop, all of them or none. It is
    /// the last that happens.
    Broke {
        session: SessionId,
        commands: Items<(Command, u64)>,
        others: Items<Tried>,
    },
}
