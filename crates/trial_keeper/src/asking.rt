// What callers of tests ask for.
ghost use Rattle.std.specs.Prelude.{◌≡◌, ◌<◌, ◌≤◌, List, length, IfOk};
ghost use Rattle.boss_model.specs.declared.state.Actuator.{Actuator};
ghost use Rattle.boss_model.specs.Limits.{last_moment};
ghost use Rattle.boss_model.specs.Sound.{IsAllowed};
ghost use Rattle.boss_shared.specs.Together.{MayAsk};

use boss_model::{Command, Items, Name, NoMemory, PointId, Policy, SessionId, Setting};
use boss_shared::Asked;
use def_history::Outcomes;
use std::alloc::Global;

/// The first point at 45 for a minute, at this level. The only error is want of memory.
pub fn submit(alloc: Global, priority: i64) -> Result<Command, NoMemory>
    ensures { IfOk result (λ command. (plant : List Actuator) → 0 < length plant → IsAllowed plant command) }
{
    let mut writes = Items::new(alloc);
    let write = Setting {
        point: PointId(0),
        value: 45_000,
        priority,
        lease: 60_000,
        revert: Items::new(alloc),
    };
    writes.try_push(write)?;
    Ok(Command::Submit {
        writes,
        policy: Policy::Abort,
        seq: 0,
    })
}

/// Two commands of one of several callers, at this moment. The only error is want of memory.
pub fn two_asked(
    alloc: Global,
    session: SessionId,
    first: Command,
    second: Command,
    moment: u64,
) -> Result<Asked, NoMemory>
    requires { moment ≤ last_moment }
    ensures count { IfOk result (λ asked. length asked.commands ≡ 2) }
    ensures may { IfOk result (λ asked. (plant : List Actuator) → IsAllowed plant first → IsAllowed plant second → MayAsk plant asked) }
{
    let mut commands = Items::new(alloc);
    commands.try_push((first, moment))?;
    commands.try_push((second, moment))?;
    let answers = Vec::with_capacity(alloc, 2)?;
    Ok(Asked {
        session,
        commands,
        answers,
        tried: 0,
        outcomes: Outcomes {
            done: 0,
            rest: None,
        },
    })
}

/// An attach under this name and a submit at this level, both at 1000, by one of several callers. The only error is want of
/// memory.
pub fn asked(
    alloc: Global,
    session: SessionId,
    name: Name,
    priority: i64,
) -> Result<Asked, NoMemory>
    ensures count { IfOk result (λ asked. length asked.commands ≡ 2) }
    ensures may { IfOk result (λ asked. (plant : List Actuator) → 0 < length plant → MayAsk plant asked) }
{
    let submit = submit(alloc, priority)?;
    two_asked(alloc, session, Command::Attach { name }, submit, 1000)
}
