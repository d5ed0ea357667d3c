ghost use Rattle.std.specs.Prelude.{◌≡◌, [], None, Some, IfOk, IsOk, vec_len};
ghost use Rattle.boss_outside.specs.Counts.{HasCause};
ghost use Rattle.boss_model.specs.declared.places.Protocol.TheVariants.{Bacnet, Modbus};
ghost use Rattle.boss_bacnet.specs.Devices as bacnet;
ghost use Rattle.boss_modbus.specs.Fates.{Answers};
ghost use Rattle.boss_modbus.specs.Writes.{Wrote};

use crate::fate_line::place_of;
use crate::numbers::{found_in_datagram, found_in_response, wanted_at};
use crate::reason::Reason;
use crate::{FateLine, Outcome, Raw, RealDatagrams, RealLink};
use boss_bacnet::{BacnetDevice, Fate as BacnetFate};
use boss_modbus::{Fate as ModbusFate, ModbusDevice};
use boss_model::{DriverPlan, PointId, Protocol};
use boss_outside::{Actuators, Datagrams, Failed, Link, Look};
use std::alloc::{AllocError, Global};
use std::io::Eprint;
use std::net::{Net, TcpListener, TcpStream};
use std::time::Clock;

/// How long a host is waited for before a plan says how long, in milliseconds. Nothing is sent before that.
const FIRST_WAIT: u64 = 5_000;

/// The devices of one driver. They are simulated, and take every command, until they are assigned a part; from then on
/// they are those of a host, over Modbus TCP or over BACnet/IP as the part says.
///
/// Where what a device is asked comes to something else than what was asked before, a line on the standard error says so: a
/// device that is off is reported once and not at each try, and once more when it takes a value again. One that is found with another
/// value is reported once until it is found with its own. A host that can not be reached is reported once for all its points, and once
/// more when it is reached again; of what was not asked, as its host or unit is left alone, there is no line.
#[derive(Drop)]
pub struct FieldDevices<R> {
    rt: R,
    /// What is spoken; nothing as long as the devices are simulated.
    speaks: Option<Protocol>,
    // Each has some thousand bytes, and a server moves its drivers' workers about on its stack.
    modbus: Box<ModbusDevice<RealLink<R>>>,
    bacnet: Box<BacnetDevice<RealDatagrams<R>>>,
    troubles: Vec<Trouble>,
    /// Whether the host could not be reached.
    is_away: bool,
    faults: u64,
}

/// A point whose device did not take its last value, or was found with another one, and what came of it.
#[derive(Clone, Copy, Debug, PartialEq, Eq)]
struct Trouble {
    point: PointId,
    outcome: Outcome,
}

impl<R: Net<Listener = TcpListener, Stream = TcpStream> + Clock + Eprint + Copy> FieldDevices<R> {
    /// Simulated devices, unless there is no memory. `rt` is what connects them once they are assigned a part, and what lines are written by.
    pub fn new(alloc: Global, rt: R) -> Result<FieldDevices<R>, AllocError>
        ensures speaks { IfOk result (λ devices. devices.speaks ≡ None) }
        ensures faults { IfOk result (λ devices. devices.faults ≡ 0) }
    {
        Ok(FieldDevices {
            rt,
            speaks: None,
            modbus: Box::new(
                alloc,
                ModbusDevice::new(alloc, RealLink::new(rt, FIRST_WAIT)),
            )?,
            bacnet: Box::new(
                alloc,
                BacnetDevice::new(alloc, RealDatagrams::new(rt, FIRST_WAIT)),
            )?,
            troubles: Vec::new(alloc),
            is_away: false,
            faults: 0,
        })
    }

    /// What came before of what a point's device was asked, as far as it was a trouble.
    fn trouble_of(&self, point: PointId) -> Option<Outcome> {
        for trouble in &self.troubles {
            if trouble.point == point {
                return Some(trouble.outcome);
            }
        }
        None
    }

    /// Keeps what came of what a point's device was asked. Without memory it is forgotten, and reported anew.
    fn note(&mut self, point: PointId, outcome: Outcome)
        ensures modbus { self.new.modbus ≡ self.old.modbus }
        ensures bacnet { self.new.bacnet ≡ self.old.bacnet }
        ensures speaks { self.new.speaks ≡ self.old.speaks }
        ensures faults { self.new.faults ≡ self.old.faults }
    {
        self.troubles.retain(|trouble| trouble.point != point);
        if !outcome.is_taken() && !outcome.has() {
            let _ = self.troubles.push(Trouble { point, outcome });
        }
    }

    /// Writes a Modbus device.
    fn write_over_modbus(&mut self, point: PointId, value: i64) -> Result<(), Failed>
        ensures cause { HasCause self.old.faults self.new.faults result }
        ensures wrote { Wrote ⟦<RealLink<R> as Link>⟧ point value self.old.modbus.value self.new.modbus.value }
        ensures answers { Answers self.new.modbus.value.fate result }
    {
        let answer = self.modbus.write(point, value);
        self.report(Protocol::Modbus, point, None);
        if answer.is_ok() {
            return Ok(());
        }
        self.faults = self.faults.saturating_add(1);
        Err(Failed)
    }

    /// Writes a BACnet device.
    fn write_over_bacnet(&mut self, point: PointId, value: i64) -> Result<(), Failed>
        ensures cause { HasCause self.old.faults self.new.faults result }
        ensures wrote { bacnet.Wrote ⟦<RealDatagrams<R> as Datagrams>⟧ point value self.old.bacnet.value self.new.bacnet.value }
        ensures answers { bacnet.Answers self.new.bacnet.value.fate result }
    {
        let answer = self.bacnet.write(point, value);
        self.report(Protocol::Bacnet, point, None);
        if answer.is_ok() {
            return Ok(());
        }
        self.faults = self.faults.saturating_add(1);
        Err(Failed)
    }

    /// Writes a line where what a point's device was asked came to something else than before. `wanted` is the value that a look asked
    /// after.
    fn report(&mut self, protocol: Protocol, point: PointId, wanted: Option<i64>)
        ensures modbus { self.new.modbus ≡ self.old.modbus }
        ensures bacnet { self.new.bacnet ≡ self.old.bacnet }
        ensures speaks { self.new.speaks ≡ self.old.speaks }
        ensures faults { self.new.faults ≡ self.old.faults }
    {
        let outcome = match protocol {
            Protocol::Modbus => Outcome::Modbus {
                fate: self.modbus.fate(),
            },
            Protocol::Bacnet => Outcome::Bacnet {
                fate: self.bacnet.fate(),
            },
        };
        let reason = self.reason_of(outcome);
        if self.note_host(protocol, outcome, reason) || !is_news(self.trouble_of(point), outcome) {
            return;
        }
        self.tell(protocol, point, outcome, reason, wanted);
        self.note(point, outcome);
    }

    /// Why the link failed, where it did.
    fn reason_of(&self, outcome: Outcome) -> Option<Reason> {
        match outcome {
            Outcome::Modbus {
                fate: ModbusFate::LinkFault,
            } => self.modbus.link().reason(),
            Outcome::Bacnet {
                fate: BacnetFate::LinkFault,
            } => self.bacnet.link().reason(),
            _ => None,
        }
    }

    /// Notes whether the host was reached, with a line where that is news. Whether all of what came is told by that, or nothing is to be
    /// told: of a point that was not asked, and of one of many behind a host that is away.
    fn note_host(&mut self, protocol: Protocol, outcome: Outcome, reason: Option<Reason>) -> bool
        ensures modbus { self.new.modbus ≡ self.old.modbus }
        ensures bacnet { self.new.bacnet ≡ self.old.bacnet }
        ensures speaks { self.new.speaks ≡ self.old.speaks }
        ensures faults { self.new.faults ≡ self.old.faults }
    {
        let is_away = match reason {
            Some(Reason::LeftAlone) => return true,
            Some(Reason::Unreached(_)) => true,
            Some(Reason::Broken(_)) => false,
            None if outcome.was_sent() => false,
            None => return false,
        };
        if is_away != self.is_away {
            self.is_away = is_away;
            self.tell_host(protocol, reason.filter(|_| is_away));
        }
        is_away
    }

    /// Writes a line on the host: why it can not be reached, or that it is reached again.
    fn tell_host(&self, protocol: Protocol, reason: Option<Reason>) {
        let Some(part) = self.part_of(protocol) else {
            return;
        };
        let host = str::from_utf8(part.host.slice()).unwrap_or("?");
        let _ = match reason {
            Some(reason) => eprintln!(&self.rt; "bossd: {host}: {reason}"),
            None => eprintln!(&self.rt; "bossd: {host}: reached again"),
        };
    }

    /// The part of a protocol's devices.
    fn part_of(&self, protocol: Protocol) -> &Option<DriverPlan> {
        match protocol {
            Protocol::Modbus => self.modbus.part(),
            Protocol::Bacnet => self.bacnet.part(),
        }
    }

    /// Writes a line.
    fn tell(
        &self,
        protocol: Protocol,
        point: PointId,
        outcome: Outcome,
        reason: Option<Reason>,
        wanted: Option<i64>,
    ) {
        let Some(part) = self.part_of(protocol) else {
            return;
        };
        let line = FateLine {
            part,
            point,
            outcome,
            reason,
            found: self.found_at(protocol, part, point),
            wanted: raw_at(part, point, wanted),
        };
        let _ = eprintln!(&self.rt; "bossd: {line}");
    }

    /// What the last answer says that a point's device has.
    fn found_at(&self, protocol: Protocol, part: &DriverPlan, point: PointId) -> Option<Raw> {
        match protocol {
            Protocol::Modbus => found_in_response(place_of(part, point)?, self.modbus.response()),
            Protocol::Bacnet => found_in_datagram(self.bacnet.link().last()),
        }
    }
}

/// What a point's device has for a value.
fn raw_at(part: &DriverPlan, point: PointId, value: Option<i64>) -> Option<Raw> {
    wanted_at(place_of(part, point)?, value?)
}

/// Whether it is to be told what came of something, by what came before. What was found with another value is no news again until it is
/// found with its own.
fn is_news(before: Option<Outcome>, outcome: Outcome) -> bool {
    match before {
        None => !outcome.is_taken() && !outcome.has(),
        Some(before) => before != outcome && !(before.differs() && outcome.is_taken()),
    }
}

impl<R: Net<Listener = TcpListener, Stream = TcpStream> + Clock + Eprint + Copy> Actuators
    for FieldDevices<R> {
    ghost tells = { ⊥ };

    ghost calls = { λ devices. [] };

    ghost whole = { λ devices. Unit {0} };

    ghost faults = { λ devices. devices.faults };

    ghost assigned = { λ old part new. (new.speaks ≡ Some part.speaks)
        × (part.speaks ≡ Modbus → new.modbus.value.part ≡ Some part) × (part.speaks ≡ Bacnet → new.bacnet.value.part ≡ Some part) };

    fn write(&mut self, point: PointId, value: i64) -> Result<(), Failed>
        ensures cause { HasCause self.old.faults self.new.faults result }
        // Simulated devices take every command.
        ensures simulated { self.old.speaks ≡ None → IsOk result × (self.new ≡ self.old) }
        // Those with a part write what a device of its protocol writes.
        ensures modbus { self.old.speaks ≡ Some Modbus → Wrote ⟦<RealLink<R> as Link>⟧ point value self.old.modbus.value self.new.modbus.value
            × Answers self.new.modbus.value.fate result }
        ensures bacnet { self.old.speaks ≡ Some Bacnet → bacnet.Wrote ⟦<RealDatagrams<R> as Datagrams>⟧ point value self.old.bacnet.value self.new.bacnet.value
            × bacnet.Answers self.new.bacnet.value.fate result }
    {
        match self.speaks {
            None => Ok(()),
            Some(Protocol::Modbus) => self.write_over_modbus(point, value),
            Some(Protocol::Bacnet) => self.write_over_bacnet(point, value),
        }
    }

    fn look(&mut self, now: u64) -> Look {
        let Some(protocol) = self.speaks else {
            return Look::Quiet;
        };
        let (look, looked) = match protocol {
            Protocol::Modbus => (self.modbus.look(now), self.modbus.looked()),
            Protocol::Bacnet => (self.bacnet.look(now), self.bacnet.looked()),
        };
        if let Some(kept) = looked {
            self.report(protocol, kept.point, Some(kept.value));
        }
        look
    }

    fn rests(&self, now: u64) -> u64 {
        match self.speaks {
            Some(Protocol::Modbus) => self.modbus.rests(now),
            Some(Protocol::Bacnet) => self.bacnet.rests(now),
            None => u64::MAX,
        }
    }

    fn assign(&mut self, part: DriverPlan) {
        self.troubles.clear();
        self.is_away = false;
        self.speaks = Some(part.speaks);
        match part.speaks {
            Protocol::Modbus => {
                self.modbus.use_link(RealLink::new(self.rt, part.wait));
                self.modbus.assign(part);
            }
            Protocol::Bacnet => {
                self.bacnet.use_link(RealDatagrams::new(self.rt, part.wait));
                self.bacnet.assign(part);
            }
        }
    }
}

/// Simulated devices for so many drivers.
pub fn field_devices<R: Net<Listener = TcpListener, Stream = TcpStream> + Clock + Eprint + Copy>(
    alloc: Global,
    rt: R,
    drivers: usize,
) -> Result<Vec<FieldDevices<R>>, AllocError>
    ensures { IfOk result (λ devices. vec_len devices ≡ drivers) }
{
    let mut devices = Vec::new(alloc);
    for _ in 0..drivers {
        devices.push(FieldDevices::new(alloc, rt)?)?;
    }
    Ok(devices)
}
