ghost use Rattle.std.specs.Prelude.{◌≡◌, ◌<◌, ◌≤◌, length};
ghost use Rattle.boss_model.specs.Catalogue.{actuators};
ghost use Rattle.boss_model.specs.Limits.{last_moment};
ghost use Rattle.boss_model.specs.Sound.{IsAllowed};

use boss_memory_keeper::Unkept;
use boss_model::{Answer, Command, DriverId, Name, PointId, SessionId};
use boss_outside::{ListRinger, name_bell};
use boss_points::Catalogue;
use boss_ringing::Ringing;
use boss_shared::Keeper;
use def_history::Outcome;
use std::alloc::Global;
use std::fmt::Write;
use std::process::Abort;
use trial_keeper::submit;
use trial_parts::THREE_POINTS;

/// What rings, over the engine of three points of one driver.
type Rung = Ringing<Unkept, ListRinger>;

/// The catalogue of three points.
fn three_points(rt: &impl Abort, alloc: Global) -> Catalogue
    ensures { 2 < length (actuators result) }
{
    let catalogue = Catalogue::read(alloc, THREE_POINTS.as_bytes()).expect(rt, "a catalogue");
    if catalogue.count() != 3 {
        rt.panic("three points");
    }
    catalogue
}

fn ringing_of(rt: &impl Abort, alloc: Global) -> Rung
    ensures { 2 < length result.keeper.engine.plant }
{
    let catalogue = three_points(rt, alloc);
    let keeper = Unkept::new(alloc, &catalogue).expect(rt, "memory");
    Ringing::new(keeper, ListRinger::new(alloc), catalogue.drivers())
}

/// Does a command of the first session at this moment, and tells the bells that it rang, and the alarm behind it: which moment, or none.
fn tell(
    rt: &impl Abort,
    ringing: &mut Rung,
    command: &Command,
    moment: u64,
    told: &mut String,
) -> Outcome
    requires allowed { IsAllowed ringing.old.keeper.engine.plant command.now }
    requires soon { moment ≤ last_moment }
    ensures plant { ringing.new.keeper.engine.plant ≡ ringing.old.keeper.engine.plant }
{
    let before = ringing.ringer.rung().len();
    let outcome = ringing.apply(SessionId(1), command, moment);
    tell_behind(rt, &ringing.ringer, before, told);
    outcome
}

/// Tells the bells behind the first so many, and the alarm.
fn tell_behind(rt: &impl Abort, ringer: &ListRinger, before: usize, told: &mut String) {
    write!(told, "rung:").expect(rt, "memory");
    for bell in ringer.rung().iter().skip(before) {
        write!(told, " {bell}").expect(rt, "memory");
    }
    if ringer.alarm() == u64::MAX {
        writeln!(told, "; no alarm").expect(rt, "memory");
    } else {
        writeln!(told, "; alarm: {}", ringer.alarm()).expect(rt, "memory");
    }
}

/// The place of the point and the version of a want, where one was given out.
fn want_of(outcome: &Outcome) -> Option<(u32, u64)> {
    match outcome {
        Outcome::Done { answer } => match answer {
            Answer::Want { point, version, .. } => Some((point.0, *version)),
            _ => None,
        },
        _ => None,
    }
}

/// Gives out a want of the driver, and tells that its device took it, or did not; nothing where there is no want.
fn write_one(rt: &impl Abort, ringing: &mut Rung, moment: u64, ok: bool, told: &mut String)
    requires points { 2 < length ringing.old.keeper.engine.plant }
    requires soon { moment ≤ last_moment }
    ensures plant { ringing.new.keeper.engine.plant ≡ ringing.old.keeper.engine.plant }
{
    let next = Command::Next {
        driver: DriverId(0),
    };
    let given = tell(rt, ringing, &next, moment, told);
    if let Some((place, version)) = want_of(&given) {
        if place < 3 {
            let report = Command::Report {
                point: PointId(place),
                version,
                ok,
            };
            tell(rt, ringing, &report, moment, told);
        }
    }
}

/// Writes the three points, and then submits twice, fails to write, and lets the leases end.
fn tell_all(rt: &impl Abort, alloc: Global, ringing: &mut Rung, told: &mut String)
    requires points { 2 < length ringing.old.keeper.engine.plant }
{
    for _ in 0..3 {
        write_one(rt, ringing, 1_000, true, told);
    }
    writeln!(told, "attach").expect(rt, "memory");
    let attach = Command::Attach {
        name: Name::new(b"a").expect(rt, "a name"),
    };
    tell(rt, ringing, &attach, 2_000, told);
    writeln!(told, "submit").expect(rt, "memory");
    let first = submit(alloc, 8).expect(rt, "memory");
    tell(rt, ringing, &first, 2_000, told);
    writeln!(told, "submit over it").expect(rt, "memory");
    let second = submit(alloc, 7).expect(rt, "memory");
    tell(rt, ringing, &second, 3_000, told);
    writeln!(told, "a write that fails").expect(rt, "memory");
    write_one(rt, ringing, 4_000, false, told);
    writeln!(told, "a reading").expect(rt, "memory");
    let read = Command::Read { point: PointId(0) };
    tell(rt, ringing, &read, 4_000, told);
    writeln!(told, "the leases end").expect(rt, "memory");
    tell(rt, ringing, &Command::Tick, 100_000, told);
}

/// At first the driver has wants, so nothing rises until they are written. Then it is rung by the first submit alone, and again where
/// the leases have ended. The process `a` has bell 354, and is told of the write that fails and of the ends of its leases. The alarm is at
/// the end of the first lease, or before that where the failed write is tried again.
const WANTED: &str = "rung:; no alarm
rung:; no alarm
rung:; no alarm
rung:; no alarm
rung:; no alarm
rung:; no alarm
attach
rung:; no alarm
submit
rung: 1; alarm: 62000
submit over it
rung:; alarm: 62000
a write that fails
rung:; alarm: 62000
rung: 354; alarm: 9000
a reading
rung:; alarm: 9000
the leases end
rung: 1 354; no alarm
";

#[test]
fn a_call_rings_who_has_something_to_do_by_it(rt: HostRuntime) {
    let alloc = rt.alloc();
    let mut ringing = ringing_of(&rt, alloc);
    let mut told = String::new(alloc);
    tell_all(&rt, alloc, &mut ringing, &mut told);
    assert_eq!(&rt; told.as_str(), WANTED);
    assert!(&rt; ringing.ringer.is_whole());
}

#[test]
fn a_process_has_the_bell_of_its_name(rt: HostRuntime) {
    let first = Name::new(b"a").expect(&rt, "a name");
    let other = Name::new(b"ba").expect(&rt, "a name");
    assert_eq!(&rt; name_bell(&first), 257 + 97);
    assert_eq!(&rt; name_bell(&other), 257 + 98 * 31 + 97);
}
