ghost use Rattle.std.specs.Prelude.{◌≡◌, ◌+◌, ◌*◌, ◌≤◌, ◌<◌, ◌∷◌, ◌++◌, length, map, codes, decimal};
ghost use Rattle.std.specs.List.{flat_map, AllByRecursion};
ghost use Rattle.boss_model.specs.Sound.{IsKnown};
ghost use Rattle.boss_model.specs.Tellable.{AreTellable, IsTellableNotice};
ghost use Rattle.def_wire.specs.Texts.{cause_text, listed, notice_text, point_text, what_text};
ghost use Rattle.boss_answers.specs.Room.{HasRoom, PutsAtMost};

use crate::parts::{write_cause, write_number, write_point, write_txn};
use boss_model::{Buffer, Cause, Notice, PointId, Txn, What};
use boss_points::Catalogue;

/// A notice as a JSON object.
pub fn write_notice(into: &mut Buffer, catalogue: &Catalogue, notice: &Notice)
    requires room { length into.old.bytes + 32768 ≤ into.old.capacity }
    requires tellable { IsTellableNotice catalogue.now notice.now }
    ensures text { into.new ≡ record into.old { bytes = into.old.bytes ++ notice_text catalogue.now notice.now } }
    ensures short { length (notice_text catalogue.now notice.now) ≤ 32767 }
{
    put_notice(into, catalogue, notice);
}

/// Notices, with commas between them.
pub(crate) fn write_notices(into: &mut Buffer, catalogue: &Catalogue, notices: &[Notice])
    requires room { HasRoom (64 * 257) into.old }
    requires tellable { AreTellable catalogue.now notices.now }
    ensures { PutsAtMost (64 * 257) into.old into.new (listed (map (notice_text catalogue.now) notices.now)) }
{
    if let Some((first, others)) = notices.split_first() {
        put_notice(into, catalogue, first);
        put_others(into, catalogue, others);
    }
}

/// Notices, with a comma before each.
fn put_others(into: &mut Buffer, catalogue: &Catalogue, notices: &[Notice])
    requires room { HasRoom (257 * length notices.now) into.old }
    requires tellable { AllByRecursion (IsTellableNotice catalogue.now) notices.now }
    ensures { PutsAtMost (257 * length notices.now) into.old into.new
        (flat_map (λ notice. 44 ∷ notice_text catalogue.now notice) notices.now) }
{
    for notice in notices {
        put_other(into, catalogue, notice);
    }
}

/// A notice behind a comma.
fn put_other(into: &mut Buffer, catalogue: &Catalogue, notice: &Notice)
    requires room { HasRoom 257 into.old }
    requires tellable { IsTellableNotice catalogue.now notice.now }
    ensures { PutsAtMost 257 into.old into.new (44 ∷ notice_text catalogue.now notice.now) }
{
    into.push(b',');
    put_notice(into, catalogue, notice);
}

fn put_notice(into: &mut Buffer, catalogue: &Catalogue, notice: &Notice)
    requires room { HasRoom 256 into.old }
    requires tellable { IsTellableNotice catalogue.now notice.now }
    ensures { PutsAtMost 256 into.old into.new (notice_text catalogue.now notice.now) }
{
    write_number(into, b"{\"n\":", notice.number);
    write_number(into, b",\"at\":", notice.at);
    write_txn(into, b",\"txn\":", notice.txn);
    into.extend(b",\"kind\":");
    put_what(into, catalogue, notice.what);
    into.push(b'}');
}

/// The kind of a notice, and what it tells beside.
fn put_what(into: &mut Buffer, catalogue: &Catalogue, what: What)
    requires room { HasRoom 144 into.old }
    requires known { IsKnown (length catalogue.now.points) what }
    ensures { PutsAtMost 144 into.old into.new (what_text catalogue.now what) }
{
    match what {
        What::Fault { point } => write_point(into, b"\"fault\",\"point\":", catalogue, point),
        What::Ended { point, cause } => put_ended(into, catalogue, point, cause),
        What::Reverted { point } => write_point(into, b"\"reverted\",\"point\":", catalogue, point),
        What::Cut { point, by } => put_cut(into, catalogue, point, by),
        What::Done => into.extend(b"\"done\""),
    }
}

fn put_ended(into: &mut Buffer, catalogue: &Catalogue, point: PointId, cause: Cause)
    requires room { HasRoom 144 into.old }
    requires known { point < length catalogue.now.points }
    ensures { PutsAtMost 144 into.old into.new
        (codes "\"ended\",\"point\":" ++ point_text catalogue.now point ++ codes ",\"cause\":" ++ cause_text cause) }
{
    write_point(into, b"\"ended\",\"point\":", catalogue, point);
    into.extend(b",\"cause\":");
    write_cause(into, cause);
}

fn put_cut(into: &mut Buffer, catalogue: &Catalogue, point: PointId, by: Txn)
    requires room { HasRoom 144 into.old }
    requires known { point < length catalogue.now.points }
    ensures { PutsAtMost 144 into.old into.new
        (codes "\"cut\",\"point\":" ++ point_text catalogue.now point ++ codes ",\"by\":" ++ decimal by) }
{
    write_point(into, b"\"cut\",\"point\":", catalogue, point);
    write_txn(into, b",\"by\":", by);
}
