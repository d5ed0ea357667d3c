ghost use Rattle.std.specs.Prelude.{◌≡◌, IfOk};

use boss_model::{Command, Items, Name, NoMemory, PointId, Setting, Step};
use std::alloc::Global;

/// The same commands once more, each at its moment, in milliseconds. The only error is want of memory.
pub fn copy_commands(
    alloc: Global,
    commands: &Items<(Command, u64)>,
) -> Result<Items<(Command, u64)>, NoMemory>
    ensures { IfOk result (λ copy. copy ≡ commands.now) }
{
    let calls = commands.slice();
    let mut copy = Vec::with_capacity(alloc, calls.len())?;
    for call in calls {
        copy.push_reserved((copy_command(alloc, &call.0)?, call.1));
    }
    Ok(Items::from_vec(copy))
}

/// The same command once more.
fn copy_command(alloc: Global, command: &Command) -> Result<Command, NoMemory>
    ensures { IfOk result (λ copy. copy ≡ command.now) }
{
    Ok(match command {
        Command::Attach { name } => Command::Attach {
            name: name.copied(),
        },
        Command::Submit {
            writes,
            policy,
            seq,
        } => Command::Submit {
            writes: copy_writes(alloc, writes)?,
            policy: *policy,
            seq: *seq,
        },
        Command::Renew {
            txn,
            length,
            points,
            seq,
        } => Command::Renew {
            txn: *txn,
            length: *length,
            points: copy_points(alloc, points)?,
            seq: *seq,
        },
        Command::Cancel { txn, seq } => Command::Cancel {
            txn: *txn,
            seq: *seq,
        },
        Command::Gone => Command::Gone,
        Command::Tick => Command::Tick,
        Command::Next { driver } => Command::Next { driver: *driver },
        Command::Report { point, version, ok } => Command::Report {
            point: *point,
            version: *version,
            ok: *ok,
        },
        Command::Doubt { point, differs } => Command::Doubt {
            point: *point,
            differs: *differs,
        },
        Command::Read { point } => Command::Read { point: *point },
        Command::Array { point } => Command::Array { point: *point },
        Command::Status { txn } => Command::Status { txn: *txn },
        Command::Notices { name, from, max } => Command::Notices {
            name: copy_name(name),
            from: *from,
            max: *max,
        },
        Command::Points { from, max } => Command::Points {
            from: *from,
            max: *max,
        },
        Command::Version => Command::Version,
    })
}

/// The same name once more, where there is one. No memory is taken.
fn copy_name(name: &Option<Name>) -> Option<Name>
    ensures { result ≡ name.now }
{
    match name {
        Some(name) => Some(name.copied()),
        None => None,
    }
}

/// The same writes once more.
fn copy_writes(alloc: Global, writes: &Items<Setting>) -> Result<Items<Setting>, NoMemory>
    ensures { IfOk result (λ copy. copy ≡ writes.now) }
{
    let settings = writes.slice();
    let mut copy = Vec::with_capacity(alloc, settings.len())?;
    for setting in settings {
        copy.push_reserved(copy_setting(alloc, setting)?);
    }
    Ok(Items::from_vec(copy))
}

/// The same write once more.
fn copy_setting(alloc: Global, setting: &Setting) -> Result<Setting, NoMemory>
    ensures { IfOk result (λ copy. copy ≡ setting.now) }
{
    Ok(Setting {
        point: setting.point,
        value: setting.value,
        priority: setting.priority,
        lease: setting.lease,
        revert: copy_steps(alloc, &setting.revert)?,
    })
}

/// The same steps once more.
fn copy_steps(alloc: Global, steps: &Items<Step>) -> Result<Items<Step>, NoMemory>
    ensures { IfOk result (λ copy. copy ≡ steps.now) }
{
    let steps = steps.slice();
    let mut copy = Vec::with_capacity(alloc, steps.len())?;
    for step in steps {
        copy.push_reserved(*step);
    }
    Ok(Items::from_vec(copy))
}

/// The same points once more.
fn copy_points(alloc: Global, points: &Items<PointId>) -> Result<Items<PointId>, NoMemory>
    ensures { IfOk result (λ copy. copy ≡ points.now) }
{
    let points = points.slice();
    let mut copy = Vec::with_capacity(alloc, points.len())?;
    for point in points {
        copy.push_reserved(*point);
    }
    Ok(Items::from_vec(copy))
}
