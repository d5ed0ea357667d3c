ghost use Rattle.std.specs.Prelude.{◌≡◌, ◌≤◌, ◌<◌, true, length, take};
ghost use Rattle.boss_durable.specs.Begun.{may_want, WantNone};
ghost use Rattle.def_history.specs.Made.{is_growing};
ghost use Rattle.boss_shared.specs.Calls.{is_growing_at};

use boss_engine::Engine;
use boss_model::Command;

/// Whether a command may want memory: a submit, an attach of a new name, or notices.
pub fn may_want(engine: &Engine, command: &Command) -> bool
    ensures is { result ≡ may_want engine.now.state command.now }
    ensures grows { result ≡ true → is_growing command.now ≡ true }
{
    match command {
        Command::Attach { name } => !engine.knows(name),
        Command::Submit { .. } | Command::Notices { .. } => true,
        Command::Renew { .. }
        | Command::Cancel { .. }
        | Command::Gone
        | Command::Tick
        | Command::Next { .. }
        | Command::Report { .. }
        | Command::Doubt { .. }
        | Command::Read { .. }
        | Command::Array { .. }
        | Command::Status { .. }
        | Command::Points { .. }
        | Command::Version => false,
    }
}

/// How many commands there are before the first that may want memory.
pub fn before_want(engine: &Engine, commands: &[(Command, u64)]) -> usize
    ensures within { result ≤ length commands.now }
    ensures wants { result < length commands.now → is_growing_at commands.now result ≡ true }
    ensures none_before { WantNone engine.now.state (take result commands.now) }
{
    for (place, call) in commands.iter().enumerate() {
        if may_want(engine, &call.0) {
            return place;
        }
    }
    commands.len()
}
