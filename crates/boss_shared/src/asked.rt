ghost use Rattle.std.specs.Prelude.{◌≡◌, ◌≤◌, true, false, List, [], ◌∷◌, length, map, Some, vec_capacity};
ghost use Rattle.std.specs.List.{AllByRecursion};
ghost use Rattle.def_history.specs.declared.entry.Entry.TheVariants.{Broke};
ghost use Rattle.boss_shared.specs.declared.asked.Asked.{Asked};
ghost use Rattle.boss_shared.specs.Together.{made_together, tried_of, AreReplied, AreSameAsked, AsksSome};

use boss_model::{Answer, Command, Items, SessionId};
use def_history::{Outcome, Outcomes};

/// What one of several callers asks for, and what has come of it.
#[derive(Drop)]
pub struct Asked {
    pub session: SessionId,
    /// The commands: 1 to 16, each at its moment, in milliseconds.
    pub commands: Items<(Command, u64)>,
    /// The answers to those that were done, from the first on. There is room for one for each command.
    pub answers: Vec<Answer>,
    /// How many commands were tried, also where none of them is told as done: all of them, or those before one that may want
    /// memory, for which there was none.
    pub tried: u32,
    /// What became of them.
    pub outcomes: Outcomes,
}

impl Asked {
    /// Tells that none of the commands was done, and why.
    fn undo(&mut self, why: Outcome)
        ensures asked { (self.new.session ≡ self.old.session) × (self.new.commands ≡ self.old.commands) × (self.new.tried ≡ self.old.tried) }
        ensures answers { (self.new.answers.items ≡ []) × (vec_capacity self.new.answers ≡ vec_capacity self.old.answers) }
        ensures outcomes { self.new.outcomes ≡ record { done = 0; rest = Some why } }
    {
        self.answers.clear();
        self.outcomes = Outcomes {
            done: 0,
            rest: Some(why),
        };
    }
}

/// Tells all callers that the disk had failed before, and none of their commands was done.
pub fn stop_all(group: &mut [Asked])
    requires some { AllByRecursion AsksSome group.old }
    ensures asked { AreSameAsked group.old group.new }
    ensures told { AreReplied true group.new }
    ensures nothing { made_together group.new ≡ [] }
    ensures tried { map tried_of group.new ≡ map tried_of group.old }
{
    for asked in group.iter_mut() {
        asked.undo(Outcome::Stopped);
    }
}

/// Tells the first caller that the disk failed, and the others that it had. None of their commands is told as done. The mark has the
/// first one's, and behind them what was tried of the others.
pub fn fail_all(group: &mut [Asked])
    requires first { 1 ≤ length group.old }
    requires some { AllByRecursion AsksSome group.old }
    ensures asked { AreSameAsked group.old group.new }
    ensures told { AreReplied false group.new }
    ensures mark { (first : Asked) × (others : List Asked) × (group.old ≡ first ∷ others)
        × (made_together group.new ≡ Broke first.session first.commands (map tried_of others) ∷ []) }
{
    if let Some((first, others)) = group.split_first_mut() {
        first.undo(Outcome::DiskFault);
        stop_all(others);
    }
}
