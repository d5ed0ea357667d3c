ghost use Rattle.std.specs.Prelude.{◌≡◌};
ghost use Rattle.std.specs.List.{AllByRecursion};
ghost use Rattle.boss_gate.specs.Gates.{gate_of};
ghost use Rattle.boss_gate.specs.Whole.{goes_whole, is_naming, is_through};
ghost use Rattle.boss_model.specs.Catalogue.{actuators};
ghost use Rattle.boss_model.specs.Sound.{IsAllowed};
ghost use Rattle.boss_shared.specs.Gates.{denied_at, denied_name};
ghost use Rattle.def_history.specs.History.{MayCall};

use boss_access::Rules;
use boss_model::{Command, Name, SessionId};
use boss_points::Catalogue;

/// What is told of a name that no rule is for: it has no write, and no rule, so both are 0. None where some rule is for the name.
fn denied_name(rules: &Rules, catalogue: &Catalogue, name: &Name) -> Option<(u32, u32)>
    ensures { result ≡ denied_name (gate_of rules.now catalogue.now.points) name.now }
{
    if rules.admits(name) {
        None
    } else {
        Some((0, 0))
    }
}

/// What the rules deny of a command. Of an attach its name, as 0 and 0, whatever is held. Of a submit its first write that they deny
/// to the process that is held, from 0, and the rule that denies it, from 1, or 0 where no rule is for it. None where they allow it,
/// or it is neither, or a submit of a session that is not the one that is held.
pub(crate) fn denial(
    rules: &Rules,
    catalogue: &Catalogue,
    held: &Option<(SessionId, Name)>,
    session: SessionId,
    command: &Command,
) -> Option<(u32, u32)>
    requires { IsAllowed (actuators catalogue.now) command.now }
    ensures { result ≡ denied_at (gate_of rules.now catalogue.now.points) held.now session command.now }
{
    if let Command::Attach { name } = command {
        return denied_name(rules, catalogue, name);
    }
    let Some((holder, name)) = held else {
        return None;
    };
    match command {
        Command::Submit { writes, .. } if holder.0 == session.0 => {
            rules.first_denied(catalogue, name, writes.slice())
        }
        _ => None,
    }
}

/// Whether a command may set or clear what is held.
fn is_naming(command: &Command) -> bool
    ensures { result ≡ is_naming command.now }
{
    matches!(command, Command::Attach { .. } | Command::Gone)
}

/// Whether a command leaves what is held, and is not denied.
fn is_through(
    rules: &Rules,
    catalogue: &Catalogue,
    held: &Option<(SessionId, Name)>,
    session: SessionId,
    call: &(Command, u64),
) -> bool
    requires { MayCall (actuators catalogue.now) call.now }
    ensures { result ≡ is_through (gate_of rules.now catalogue.now.points) held.now session call.now }
{
    !is_naming(&call.0) && denial(rules, catalogue, held, session, &call.0).is_none()
}

/// Whether commands may go on as one batch: each of them leaves what is held, and none is denied.
pub(crate) fn goes_whole(
    rules: &Rules,
    catalogue: &Catalogue,
    held: &Option<(SessionId, Name)>,
    session: SessionId,
    calls: &[(Command, u64)],
) -> bool
    requires { AllByRecursion (MayCall (actuators catalogue.now)) calls.now }
    ensures { result ≡ goes_whole (gate_of rules.now catalogue.now.points) held.now session calls.now }
{
    for call in calls {
        if !is_through(rules, catalogue, held, session, call) {
            return false;
        }
    }
    true
}
