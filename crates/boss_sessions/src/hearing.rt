ghost use Rattle.std.specs.Prelude.{◌≡◌, [], None, IfOk};
ghost use Rattle.boss_model.specs.Limits.{most_lines};
ghost use Rattle.def_connection.specs.Speech.{beginning};
ghost use Rattle.boss_sessions.specs.Places.{footing_of};

use boss_lines::Lines;
use boss_model::{MOST_LINES, Name, NoMemory};
use std::alloc::Global;

/// The lines of a connection, as far as they were taken.
#[derive(Debug, Drop)]
pub struct Hearing {
    /// Where they come from.
    pub reader: Lines,
    /// How many more of them may be taken.
    pub lines: u64,
    /// Whether one was taken that is not blank.
    pub later: bool,
    /// The name whose key was shown, where there are keys.
    pub known: Option<Name>,
}

impl Hearing {
    /// Before the first line. The reader's room is the only memory that it takes.
    pub fn new(alloc: Global) -> Result<Hearing, NoMemory>
        ensures reader { IfOk result (λ hearing. hearing.reader ≡ record { line = []; ahead = []; stopped = None }) }
        ensures lines { IfOk result (λ hearing. hearing.lines ≡ most_lines) }
        ensures footing { IfOk result (λ hearing. footing_of hearing ≡ beginning) }
    {
        Ok(Hearing {
            reader: Lines::new(alloc)?,
            lines: MOST_LINES,
            later: false,
            known: None,
        })
    }
}
