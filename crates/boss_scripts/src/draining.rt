ghost use Rattle.std.specs.Prelude.{◌≡◌, ◌<◌, ◌≤◌, false, if◌then◌else◌, Some, None, OnOk, OnErr, vec_len};
ghost use Rattle.law_machine.specs.Draining.{weight};
ghost use Rattle.boss_model.specs.Catalogue.{actuators};
ghost use Rattle.boss_model.specs.Devices.{wanting};
ghost use Rattle.boss_model.specs.Limits.{answer_room, last_moment};
ghost use Rattle.boss_model.specs.Sound.{IsSound};
ghost use Rattle.boss_outside.specs.Counts.{HasCause};
ghost use Rattle.boss_scripts.specs.Devices.{HasDevices};
ghost use Rattle.boss_scripts.specs.Keepers.{BrokeOff, Went};
ghost use Rattle.boss_scripts.specs.Outside.{trace};
ghost use Rattle.boss_scripts.specs.Runs.{served, stop};

use crate::devices::command_device;
use boss_answers::tell_write;
use boss_model::{Answer, Buffer, Command, DriverId, SessionId};
use boss_outside::{Actuators, Failed, Sink};
use boss_points::Catalogue;
use boss_shared::Keeper;
use def_history::Outcome;

/// The session of commands that no line asks for.
const OWN: SessionId = SessionId(0);

/// Serves the wants of one moment, the least driver's first, until none is left or the keeper's disk fails. It takes no
/// memory.
pub fn drain<V: Keeper, K: Sink, A: Actuators>(
    catalogue: &Catalogue,
    keeper: &mut V,
    moment: u64,
    text: &mut Buffer,
    sink: &mut K,
    devices: &mut Vec<A>,
) -> Result<(), Failed>
    requires moment { moment ≤ last_moment }
    requires plant { V.plant keeper.old ≡ actuators catalogue.now }
    requires sound { V.stopped keeper.old ≡ false → IsSound (V.plant keeper.old) (V.state keeper.old) }
    requires room { answer_room ≤ text.old.capacity }
    requires devices { HasDevices (vec_len devices.old) (actuators catalogue.now) }

    ensures under { V.under keeper.new ≡ V.under keeper.old }
    ensures room { text.new.capacity ≡ text.old.capacity }
    ensures len { vec_len devices.new ≡ vec_len devices.old }
    ensures cause { HasCause (K.faults sink.old) (K.faults sink.new) result }
    ensures did { OnOk result (Went ⟦<V as Keeper>⟧ (actuators catalogue.now) (served catalogue.now moment) stop
        keeper.old keeper.new K.tells
        (trace ⟦<K as Sink>⟧ ⟦<A as Actuators>⟧ sink.old devices.old.items)
        (trace ⟦<K as Sink>⟧ ⟦<A as Actuators>⟧ sink.new devices.new.items)) }
    ensures broke { OnErr result (BrokeOff ⟦<V as Keeper>⟧ (actuators catalogue.now) (served catalogue.now moment)
        keeper.old keeper.new K.tells
        (trace ⟦<K as Sink>⟧ ⟦<A as Actuators>⟧ sink.old devices.old.items)
        (trace ⟦<K as Sink>⟧ ⟦<A as Actuators>⟧ sink.new devices.new.items)) }
{
    while let Some(driver) = next_driver(keeper) {
        serve(catalogue, keeper, driver, moment, text, sink, devices)?;
    }
    Ok(())
}

/// The least driver that has a want, as long as the disk has not failed.
fn next_driver<V: Keeper>(keeper: &V) -> Option<DriverId>
    ensures { result ≡ (if V.stopped keeper.now then None else wanting (V.plant keeper.now) (V.state keeper.now)) }
{
    if keeper.has_stopped() {
        return None;
    }
    keeper.wanting()
}

/// Serves one want: the driver is asked, its device is commanded, and the result is told and reported. Where the disk fails
/// nothing follows.
fn serve<V: Keeper, K: Sink, A: Actuators>(
    catalogue: &Catalogue,
    keeper: &mut V,
    driver: DriverId,
    moment: u64,
    text: &mut Buffer,
    sink: &mut K,
    devices: &mut Vec<A>,
) -> Result<(), Failed>
    requires moment { moment ≤ last_moment }
    requires plant { V.plant keeper.old ≡ actuators catalogue.now }
    requires running { V.stopped keeper.old ≡ false }
    requires sound { IsSound (V.plant keeper.old) (V.state keeper.old) }
    requires wants { wanting (V.plant keeper.old) (V.state keeper.old) ≡ Some driver }
    requires room { answer_room ≤ text.old.capacity }
    requires device { driver < vec_len devices.old }

    ensures under { V.under keeper.new ≡ V.under keeper.old }
    ensures room { text.new.capacity ≡ text.old.capacity }
    ensures len { vec_len devices.new ≡ vec_len devices.old }
    ensures cause { HasCause (K.faults sink.old) (K.faults sink.new) result }
    ensures lighter { OnOk result (V.stopped keeper.new ≡ false →
        weight (V.plant keeper.new) moment (V.state keeper.new) < weight (V.plant keeper.old) moment (V.state keeper.old)) }
    ensures did { OnOk result (Went ⟦<V as Keeper>⟧ (actuators catalogue.now) (served catalogue.now moment) (served catalogue.now moment)
        keeper.old keeper.new K.tells
        (trace ⟦<K as Sink>⟧ ⟦<A as Actuators>⟧ sink.old devices.old.items)
        (trace ⟦<K as Sink>⟧ ⟦<A as Actuators>⟧ sink.new devices.new.items)) }
    ensures broke { OnErr result (BrokeOff ⟦<V as Keeper>⟧ (actuators catalogue.now) (served catalogue.now moment)
        keeper.old keeper.new K.tells
        (trace ⟦<K as Sink>⟧ ⟦<A as Actuators>⟧ sink.old devices.old.items)
        (trace ⟦<K as Sink>⟧ ⟦<A as Actuators>⟧ sink.new devices.new.items)) }
{
    let answer = match keeper.apply(OWN, &Command::Next { driver }, moment) {
        Outcome::Done { answer } => answer,
        Outcome::DiskFault => return Ok(()),
        Outcome::Stopped | Outcome::NoMemory | Outcome::Denied { .. } => unreachable!(),
    };
    let Answer::Want {
        point,
        version,
        value,
    } = &answer
    else {
        unreachable!()
    };
    let (point, version, value) = (*point, *version, *value);
    let ok = command_device(devices, driver, point, value);
    tell_write(catalogue, point, value, ok, text, sink)?;
    let report = Command::Report { point, version, ok };
    match keeper.apply(OWN, &report, moment) {
        Outcome::Done { .. } | Outcome::DiskFault => Ok(()),
        Outcome::Stopped | Outcome::NoMemory | Outcome::Denied { .. } => unreachable!(),
    }
}
