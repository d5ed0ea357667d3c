ghost use Rattle.std.specs.Prelude.{◌≡◌};
ghost use Rattle.boss_shared.specs.Gates.{held_by};

use boss_model::{Answer, Command, Name, SessionId};

/// A pass of a desk behind a gate, and the session whose process it holds, with the name of that process, if it holds one.
#[derive(Drop)]
pub struct Admitted<P: Drop> {
    pub(crate) inner: P,
    pub(crate) held: Option<(SessionId, Name)>,
}

impl<P: Drop> Admitted<P> {
    /// The pass of the desk within.
    pub fn inner(self) -> P
        ensures { result ≡ self.inner }
    {
        let Admitted { inner, held } = self;
        drop(held);
        inner
    }
}

/// Notes what a command that was done leaves held: an attach that was accepted sets it, and a session that is gone clears it. No
/// memory is taken.
pub(crate) fn hold(
    held: &mut Option<(SessionId, Name)>,
    session: SessionId,
    command: &Command,
    answer: &Answer,
)
    ensures { held.new ≡ held_by session command.now answer.now held.old }
{
    match (command, answer) {
        (Command::Attach { name }, Answer::Attached { .. }) => {
            *held = Some((session, name.copied()));
        }
        (Command::Gone, Answer::Gone { .. }) => *held = None,
        _ => {}
    }
}
