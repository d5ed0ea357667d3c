ghost use Rattle.std.specs.Prelude.{◌≡◌, ◌+◌, ◌≤◌, ◌<◌, ◌++◌, length, map, codes, decimal};
ghost use Rattle.std.specs.Fmt.{signed_decimal};
ghost use Rattle.boss_model.specs.Catalogue.{actuators, default_of};
ghost use Rattle.boss_model.specs.Tellable.{AreTellable, IsTellable};
ghost use Rattle.def_wire.specs.Texts.{answer_text, basis_text, differed_text, listed, mark_text, notice_text, point_text, quoted, slot_text, stage_text, took_text};
ghost use Rattle.boss_answers.specs.Room.{HasRoom, PutsAtMost};

use crate::entries::{put_points, put_version};
use crate::notice::write_notices;
use crate::parts::{
    mark_name, stage_name, write_basis, write_last, write_number, write_point, write_quoted,
    write_signed, write_txn,
};
use crate::refusal::write_refusal;
use crate::slots::write_slots;
use boss_model::{Answer, Basis, Buffer, Mark, Name, Notice, PointId, Slots, Stage, Took, Txn};
use boss_points::Catalogue;

/// An answer as a JSON object.
pub fn write_answer(into: &mut Buffer, catalogue: &Catalogue, answer: &Answer)
    requires room { length into.old.bytes + 32768 ≤ into.old.capacity }
    requires tellable { IsTellable catalogue.now answer.now }
    ensures text { into.new ≡ record into.old { bytes = into.old.bytes ++ answer_text catalogue.now answer.now } }
    ensures short { length (answer_text catalogue.now answer.now) ≤ 32767 }
{
    match answer {
        Answer::Attached { name, next } => put_attached(into, name, *next),
        Answer::Accepted { txn, until } => {
            put_until(into, b"{\"ok\":\"accepted\",\"txn\":", *txn, *until)
        }
        Answer::Renewed { txn, until } => {
            put_until(into, b"{\"ok\":\"renewed\",\"txn\":", *txn, *until)
        }
        Answer::Cancelled { txn, at } => put_cancelled(into, *txn, *at),
        Answer::Gone { ended } => write_last(into, b"{\"ok\":\"gone\",\"ended\":", *ended),
        Answer::Ticked { now } => write_last(into, b"{\"ok\":\"tick\",\"now\":", *now),
        Answer::Want {
            point,
            version,
            value,
        } => put_want(into, catalogue, *point, *version, *value),
        Answer::Nothing => into.extend(b"{\"ok\":\"nothing\"}"),
        Answer::Noted { .. } => into.extend(b"{\"ok\":\"noted\"}"),
        Answer::Reading {
            point,
            value,
            basis,
            mark,
            differed,
            took,
        } => {
            let device = Device {
                mark: *mark,
                differed: *differed,
                took: *took,
            };
            put_reading(into, catalogue, *point, *value, *basis, device)
        }
        Answer::Array { point, slots } => put_array(into, catalogue, *point, slots),
        Answer::Status {
            txn,
            owner,
            stage,
            live,
            pending,
        } => put_status(into, *txn, owner, *stage, *live, *pending),
        Answer::Notices { first, next, list } => {
            put_notices(into, catalogue, *first, *next, list.slice())
        }
        Answer::Points { from, max } => put_points(into, catalogue, *from, *max),
        Answer::Version => put_version(into, catalogue),
        Answer::Refused(refusal) => write_refusal(into, refusal),
    }
}

/// The session holds the process of this name.
fn put_attached(into: &mut Buffer, name: &Name, next: u64)
    requires { HasRoom 160 into.old }
    ensures { PutsAtMost 160 into.old into.new
        (codes "{\"ok\":\"attached\",\"process\":" ++ quoted name.now ++ codes ",\"next\":" ++ decimal next ++ codes "}") }
{
    write_quoted(into, b"{\"ok\":\"attached\",\"process\":", name);
    write_number(into, b",\"next\":", next);
    into.push(b'}');
}

/// A transaction behind its key, and the least moment at which one of its leases ends.
#[inline(always)]
fn put_until(into: &mut Buffer, key: &[u8], txn: Txn, until: u64)
    requires short { length key.now ≤ 32 }
    requires room { HasRoom 96 into.old }
    ensures { PutsAtMost 96 into.old into.new (key.now ++ decimal txn ++ codes ",\"until\":" ++ decimal until ++ codes "}") }
{
    write_txn(into, key, txn);
    write_number(into, b",\"until\":", until);
    into.push(b'}');
}

/// The live leases of the transaction ended at this moment.
fn put_cancelled(into: &mut Buffer, txn: Txn, at: u64)
    requires { HasRoom 96 into.old }
    ensures { PutsAtMost 96 into.old into.new
        (codes "{\"ok\":\"cancelled\",\"txn\":" ++ decimal txn ++ codes ",\"at\":" ++ decimal at ++ codes "}") }
{
    write_txn(into, b"{\"ok\":\"cancelled\",\"txn\":", txn);
    write_number(into, b",\"at\":", at);
    into.push(b'}');
}

/// What a driver's device is to be set to.
fn put_want(into: &mut Buffer, catalogue: &Catalogue, point: PointId, version: u64, value: i64)
    requires room { HasRoom 192 into.old }
    requires known { point < length catalogue.now.points }
    ensures { PutsAtMost 192 into.old into.new
        (codes "{\"ok\":\"want\",\"point\":" ++ point_text catalogue.now point ++ codes ",\"version\":" ++ decimal version
        ++ codes ",\"value\":" ++ signed_decimal value ++ codes "}") }
{
    write_point(into, b"{\"ok\":\"want\",\"point\":", catalogue, point);
    write_number(into, b",\"version\":", version);
    write_signed(into, b",\"value\":", value);
    into.push(b'}');
}

/// Where a point's device stands: how far it has come, how often it was found with another value, and what it took last.
#[derive(Clone, Copy)]
struct Device {
    mark: Mark,
    differed: u64,
    took: Option<Took>,
}

/// The value that a point is to have, what it rests on, and where its device stands.
fn put_reading(
    into: &mut Buffer,
    catalogue: &Catalogue,
    point: PointId,
    value: i64,
    basis: Basis,
    device: Device,
)
    requires room { HasRoom 384 into.old }
    requires known { point < length catalogue.now.points }
    ensures { PutsAtMost 384 into.old into.new
        (codes "{\"ok\":\"read\",\"point\":" ++ point_text catalogue.now point ++ codes ",\"value\":" ++ signed_decimal value
        ++ codes ",\"from\":" ++ basis_text basis ++ codes ",\"mark\":" ++ mark_text device.mark
        ++ differed_text device.differed ++ took_text value device.took ++ codes "}") }
{
    write_point(into, b"{\"ok\":\"read\",\"point\":", catalogue, point);
    write_signed(into, b",\"value\":", value);
    into.extend(b",\"from\":");
    write_basis(into, basis);
    into.extend(b",\"mark\":");
    into.extend(mark_name(device.mark));
    put_differed(into, device.differed);
    put_took(into, value, device.took);
    into.push(b'}');
}

/// How often a point's device was found with another value, where it was.
fn put_differed(into: &mut Buffer, count: u64)
    requires { HasRoom 32 into.old }
    ensures { PutsAtMost 32 into.old into.new (differed_text count) }
{
    if count != 0 {
        write_number(into, b",\"differed\":", count);
    }
}

/// What a point's device took last, where that is not the value that the point is to have.
fn put_took(into: &mut Buffer, value: i64, took: Option<Took>)
    requires { HasRoom 96 into.old }
    ensures { PutsAtMost 96 into.old into.new (took_text value took) }
{
    if let Some(took) = took
        && took.value != value
    {
        write_signed(into, b",\"took\":", took.value);
        write_number(into, b",\"since\":", took.since);
    }
}

/// The default and the slots of a point.
fn put_array(into: &mut Buffer, catalogue: &Catalogue, point: PointId, slots: &Slots)
    requires room { HasRoom 2048 into.old }
    requires known { point < length catalogue.now.points }
    ensures { PutsAtMost 2048 into.old into.new
        (codes "{\"ok\":\"array\",\"point\":" ++ point_text catalogue.now point ++ codes ",\"default\":"
        ++ signed_decimal (default_of (actuators catalogue.now) point)
        ++ codes ",\"slots\":[" ++ listed (map slot_text slots.now.at) ++ codes "]}") }
{
    write_point(into, b"{\"ok\":\"array\",\"point\":", catalogue, point);
    write_signed(into, b",\"default\":", default_of(catalogue, point));
    into.extend(b",\"slots\":[");
    write_slots(into, &slots.at);
    into.extend(b"]}");
}

/// The Relinquish_Default of a point (ASHRAE 135, clause 19.2).
fn default_of(catalogue: &Catalogue, point: PointId) -> i64
    requires { point < length catalogue.now.points }
    ensures { result ≡ default_of (actuators catalogue.now) point }
{
    catalogue.point(point).default
}

/// How far a transaction has come.
fn put_status(into: &mut Buffer, txn: Txn, owner: &Name, stage: Stage, live: u64, pending: u64)
    requires { HasRoom 256 into.old }
    ensures { PutsAtMost 256 into.old into.new
        (codes "{\"ok\":\"status\",\"txn\":" ++ decimal txn ++ codes ",\"owner\":" ++ quoted owner.now ++ codes ",\"stage\":" ++ stage_text stage
        ++ codes ",\"live\":" ++ decimal live ++ codes ",\"pending\":" ++ decimal pending ++ codes "}") }
{
    write_txn(into, b"{\"ok\":\"status\",\"txn\":", txn);
    write_quoted(into, b",\"owner\":", owner);
    into.extend(b",\"stage\":");
    into.extend(stage_name(stage));
    write_number(into, b",\"live\":", live);
    write_number(into, b",\"pending\":", pending);
    into.push(b'}');
}

/// Notices of a process, the least number that is kept, and the number to ask from next.
fn put_notices(into: &mut Buffer, catalogue: &Catalogue, first: u64, next: u64, list: &[Notice])
    requires room { HasRoom 16640 into.old }
    requires tellable { AreTellable catalogue.now list.now }
    ensures { PutsAtMost 16640 into.old into.new
        (codes "{\"ok\":\"notices\",\"first\":" ++ decimal first ++ codes ",\"next\":" ++ decimal next
        ++ codes ",\"list\":[" ++ listed (map (notice_text catalogue.now) list.now) ++ codes "]}") }
{
    write_number(into, b"{\"ok\":\"notices\",\"first\":", first);
    write_number(into, b",\"next\":", next);
    into.extend(b",\"list\":[");
    write_notices(into, catalogue, list);
    into.extend(b"]}");
}
