ghost use Rattle.std.specs.Prelude.{◌≡◌, ◌≢◌, ◌+◌, ◌≤◌, true, ◌∷◌, ◌++◌, length, Some};
ghost use Rattle.boss_model.specs.declared.event.Act.TheVariants as act;
ghost use Rattle.boss_model.specs.declared.event.Effect.TheVariants.{Unchanged};
ghost use Rattle.boss_model.specs.declared.event.Event.{Event};
ghost use Rattle.boss_model.specs.Effects.{act_of, event_of};
ghost use Rattle.def_bytes.specs.Events.{act_fits, event, numbered, owned, points, renewal, submission, writes};
ghost use Rattle.def_bytes.specs.Parts.{moment};

use boss_model::{Buffer, Command, Effect, Name, PointId, Policy, ProcId, Setting, Txn};
use boss_records::{
    Room, put_name, put_natural32, put_policy, put_u8, put_u16, put_u32, put_u64, tag, write_items,
};

/// A tag, and a moment.
fn put_head<R: Room>(into: &mut R, tag: u8, at: u64)
    requires { length (R.bytes into.old) + 9 ≤ R.capacity into.old }
    ensures bytes { R.bytes into.new ≡ R.bytes into.old ++ tag ∷ moment.text at }
    ensures long { length (R.bytes into.new) ≡ length (R.bytes into.old) + 9 }
    ensures capacity { R.capacity into.new ≡ R.capacity into.old }
{
    put_u8(into, tag);
    put_u64(into, at);
}

/// What a submit writes.
fn put_writes<R: Room>(into: &mut R, settings: &[Setting])
    requires fits { writes.fits settings.now ≡ true }
    requires room { length (R.bytes into.old) + writes.most ≤ R.capacity into.old }
    ensures bytes { R.bytes into.new ≡ R.bytes into.old ++ writes.text settings.now }
    ensures capacity { R.capacity into.new ≡ R.capacity into.old }
{
    put_u8(into, settings.len() as u8);
    write_items(into, settings);
}

/// The points that a renewal names.
fn put_points<R: Room>(into: &mut R, named: &[PointId])
    requires fits { points.fits named.now ≡ true }
    requires room { length (R.bytes into.old) + points.most ≤ R.capacity into.old }
    ensures bytes { R.bytes into.new ≡ R.bytes into.old ++ points.text named.now }
    ensures capacity { R.capacity into.new ≡ R.capacity into.old }
{
    put_u8(into, named.len() as u8);
    write_items(into, named);
}

/// A submit without a number.
fn put_submit<R: Room>(into: &mut R, owner: ProcId, on_fault: Policy, settings: &[Setting])
    requires fits { (owned submission).fits (owner, (on_fault, settings.now)) ≡ true }
    requires room { length (R.bytes into.old) + (owned submission).most ≤ R.capacity into.old }
    ensures bytes { R.bytes into.new ≡ R.bytes into.old ++ (owned submission).text (owner, (on_fault, settings.now)) }
    ensures capacity { R.capacity into.new ≡ R.capacity into.old }
{
    put_u16(into, owner.0);
    put_policy(into, on_fault);
    put_writes(into, settings);
}

/// A submit with a number.
fn put_numbered_submit<R: Room>(
    into: &mut R,
    owner: ProcId,
    seq: u64,
    on_fault: Policy,
    settings: &[Setting],
)
    requires fits { (numbered submission).fits (owner, (seq, (on_fault, settings.now))) ≡ true }
    requires room { length (R.bytes into.old) + (numbered submission).most ≤ R.capacity into.old }
    ensures bytes { R.bytes into.new ≡ R.bytes into.old ++ (numbered submission).text (owner, (seq, (on_fault, settings.now))) }
    ensures capacity { R.capacity into.new ≡ R.capacity into.old }
{
    put_u16(into, owner.0);
    put_u64(into, seq);
    put_policy(into, on_fault);
    put_writes(into, settings);
}

/// What a renewal has: transaction, length, points.
fn put_renewal<R: Room>(into: &mut R, txn: Txn, longer: i64, named: &[PointId])
    requires fits { renewal.fits (txn, (longer, named.now)) ≡ true }
    requires room { length (R.bytes into.old) + renewal.most ≤ R.capacity into.old }
    ensures bytes { R.bytes into.new ≡ R.bytes into.old ++ renewal.text (txn, (longer, named.now)) }
    ensures capacity { R.capacity into.new ≡ R.capacity into.old }
{
    put_u64(into, txn.0);
    put_natural32(into, longer);
    put_points(into, named);
}

/// A submit, by whether it has a number.
pub(crate) fn write_submit<R: Room>(
    into: &mut R,
    at: u64,
    owner: ProcId,
    on_fault: Policy,
    seq: u64,
    settings: &[Setting],
)
    requires fits { act_fits (act.Submit owner on_fault settings.now seq) ≡ true }
    requires room { length (R.bytes into.old) + 4096 ≤ R.capacity into.old }
    ensures bytes { R.bytes into.new ≡ R.bytes into.old ++ event.text (record { moment = at; act = act.Submit owner on_fault settings.now seq }) }
    ensures capacity { R.capacity into.new ≡ R.capacity into.old }
{
    if seq == 0 {
        put_head(into, tag::SUBMIT, at);
        put_submit(into, owner, on_fault, settings);
    } else {
        put_head(into, tag::NUMBERED_SUBMIT, at);
        put_numbered_submit(into, owner, seq, on_fault, settings);
    }
}

/// A renewal, by whether it has a number.
pub(crate) fn write_renew<R: Room>(
    into: &mut R,
    at: u64,
    owner: ProcId,
    txn: Txn,
    longer: i64,
    named: &[PointId],
    seq: u64,
)
    requires fits { act_fits (act.Renew owner txn longer named.now seq) ≡ true }
    requires room { length (R.bytes into.old) + 4096 ≤ R.capacity into.old }
    ensures bytes { R.bytes into.new ≡ R.bytes into.old ++ event.text (record { moment = at; act = act.Renew owner txn longer named.now seq }) }
    ensures capacity { R.capacity into.new ≡ R.capacity into.old }
{
    if seq == 0 {
        put_head(into, tag::RENEW, at);
        put_u16(into, owner.0);
    } else {
        put_head(into, tag::NUMBERED_RENEW, at);
        put_u16(into, owner.0);
        put_u64(into, seq);
    }
    put_renewal(into, txn, longer, named);
}

/// A cancel, by whether it has a number.
pub(crate) fn write_cancel<R: Room>(into: &mut R, at: u64, owner: ProcId, txn: Txn, seq: u64)
    requires { length (R.bytes into.old) + 4096 ≤ R.capacity into.old }
    ensures bytes { R.bytes into.new ≡ R.bytes into.old ++ event.text (record { moment = at; act = act.Cancel owner txn seq }) }
    ensures capacity { R.capacity into.new ≡ R.capacity into.old }
{
    if seq == 0 {
        put_head(into, tag::CANCEL, at);
        put_u16(into, owner.0);
    } else {
        put_head(into, tag::NUMBERED_CANCEL, at);
        put_u16(into, owner.0);
        put_u64(into, seq);
    }
    put_u64(into, txn.0);
}

/// An act of a name that was taken on.
pub(crate) fn write_enrol<R: Room>(into: &mut R, at: u64, name: &Name)
    requires { length (R.bytes into.old) + 4096 ≤ R.capacity into.old }
    ensures bytes { R.bytes into.new ≡ R.bytes into.old ++ event.text (record { moment = at; act = act.Enrol name.now }) }
    ensures capacity { R.capacity into.new ≡ R.capacity into.old }
{
    put_head(into, tag::ENROL, at);
    put_name(into, name);
}

/// A process that was lost.
pub(crate) fn write_gone<R: Room>(into: &mut R, at: u64, owner: ProcId)
    requires { length (R.bytes into.old) + 4096 ≤ R.capacity into.old }
    ensures bytes { R.bytes into.new ≡ R.bytes into.old ++ event.text (record { moment = at; act = act.Gone owner }) }
    ensures capacity { R.capacity into.new ≡ R.capacity into.old }
{
    put_head(into, tag::GONE, at);
    put_u16(into, owner.0);
}

/// Time that passed.
pub(crate) fn write_tick<R: Room>(into: &mut R, at: u64)
    requires { length (R.bytes into.old) + 4096 ≤ R.capacity into.old }
    ensures bytes { R.bytes into.new ≡ R.bytes into.old ++ event.text (record { moment = at; act = act.Tick }) }
    ensures capacity { R.capacity into.new ≡ R.capacity into.old }
{
    put_head(into, tag::TICK, at);
}

/// A device that did not take a value.
pub(crate) fn write_fault<R: Room>(into: &mut R, at: u64, point: PointId)
    requires { length (R.bytes into.old) + 4096 ≤ R.capacity into.old }
    ensures bytes { R.bytes into.new ≡ R.bytes into.old ++ event.text (record { moment = at; act = act.Fault point }) }
    ensures capacity { R.capacity into.new ≡ R.capacity into.old }
{
    put_head(into, tag::FAULT, at);
    put_u32(into, point.0);
}

/// What a command did at this moment, and more than time alone does.
fn write_whole<R: Room>(into: &mut R, at: u64, command: &Command, owner: ProcId)
    requires fits { act_fits (act_of command.now owner) ≡ true }
    requires room { length (R.bytes into.old) + 4096 ≤ R.capacity into.old }
    ensures bytes { R.bytes into.new ≡ R.bytes into.old ++ event.text (record { moment = at; act = act_of command.now owner }) }
    ensures capacity { R.capacity into.new ≡ R.capacity into.old }
{
    match command {
        Command::Attach { name } => write_enrol(into, at, name),
        Command::Submit {
            writes,
            policy,
            seq,
        } => write_submit(into, at, owner, *policy, *seq, writes.slice()),
        Command::Renew {
            txn,
            length,
            points,
            seq,
        } => write_renew(into, at, owner, *txn, *length, points.slice(), *seq),
        Command::Cancel { txn, seq } => write_cancel(into, at, owner, *txn, *seq),
        Command::Gone => write_gone(into, at, owner),
        Command::Report { point, .. } => write_fault(into, at, *point),
        Command::Tick
        | Command::Next { .. }
        | Command::Doubt { .. }
        | Command::Read { .. }
        | Command::Array { .. }
        | Command::Status { .. }
        | Command::Notices { .. }
        | Command::Points { .. }
        | Command::Version => write_tick(into, at),
    }
}

/// The event that a step made, at the end of a record. The step has changed what outlasts a stop, the event has a spelling,
/// and there is room for 4,096 bytes more. It takes no memory.
pub fn write_event(into: &mut Buffer, command: &Command, effect: &Effect)
    requires changed { effect.now ≢ Unchanged }
    requires fits { (e : Event) → event_of command.now effect.now ≡ Some e → event.fits e ≡ true }
    requires room { length into.old.bytes + 4096 ≤ into.old.capacity }
    ensures { (e : Event) → event_of command.now effect.now ≡ Some e →
        into.new ≡ record into.old { bytes = into.old.bytes ++ event.text e } }
{
    match *effect {
        Effect::Unchanged => unreachable!(),
        Effect::Tick { moment } => write_tick(into, moment),
        Effect::Whole { moment, owner } => write_whole(into, moment, command, owner),
    }
}
