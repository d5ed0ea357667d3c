ghost use Rattle.std.specs.Prelude.{◌≡◌, ◌+◌, ◌≤◌, ◌<◌, ◌++◌, length, codes};
ghost use Rattle.std.specs.Fmt.{signed_decimal};
ghost use Rattle.def_wire.specs.Texts.{device_text, driver_name_of, result_text};
ghost use Rattle.boss_answers.specs.Room.{HasRoom, PutsAtMost};

use crate::parts::write_signed;
use boss_model::{Buffer, Name, PointId};
use boss_points::Catalogue;

/// What is told of a write to a device: the names of the driver and the point, the value, and whether the device took it.
pub fn write_device(into: &mut Buffer, catalogue: &Catalogue, point: PointId, value: i64, ok: bool)
    requires room { length into.old.bytes + 32768 ≤ into.old.capacity }
    requires known { point < length catalogue.now.points }
    ensures text { into.new ≡ record into.old { bytes = into.old.bytes ++ device_text catalogue.now point value ok } }
    ensures short { length (device_text catalogue.now point value ok) ≤ 32767 }
{
    let told = catalogue.point(point);
    put_write(into, driver_name(catalogue, point), &told.name, value, ok);
}

/// The name of the driver of a point's device.
fn driver_name(catalogue: &Catalogue, point: PointId) -> &Name
    requires { point < length catalogue.now.points }
    ensures { result.now ≡ driver_name_of catalogue.now point }
{
    catalogue.driver_name(catalogue.point(point).driver)
}

fn put_write(into: &mut Buffer, driver: &Name, point: &Name, value: i64, ok: bool)
    requires { HasRoom 192 into.old }
    ensures { PutsAtMost 192 into.old into.new
        (codes "write " ++ driver.now ++ codes " " ++ point.now ++ codes " " ++ signed_decimal value ++ codes " " ++ result_text ok) }
{
    put_name(into, b"write ", driver);
    put_name(into, b" ", point);
    write_signed(into, b" ", value);
    into.extend(result_name(ok));
}

/// A name behind what stands before it.
fn put_name(into: &mut Buffer, before: &[u8], name: &Name)
    requires { HasRoom (length before.now + 64) into.old }
    ensures { PutsAtMost (length before.now + 64) into.old into.new (before.now ++ name.now) }
{
    into.extend(before);
    into.extend(name.bytes());
}

/// Whether the device took the value, behind a space.
fn result_name(ok: bool) -> &'static [u8]
    ensures text { result.now ≡ codes " " ++ result_text ok }
    ensures short { length result.now ≤ 7 }
{
    if ok { b" ok" } else { b" failed" }
}
