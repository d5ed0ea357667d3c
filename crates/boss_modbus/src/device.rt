ghost use Rattle.std.specs.Prelude.{◌≡◌, ◌≢◌, [], false, Option};
ghost use Rattle.boss_outside.specs.Counts.{HasCause};
ghost use Rattle.boss_modbus.specs.Fates.{Answers, is_taken};
ghost use Rattle.boss_modbus.specs.Places.{AsksFor, find_place};
ghost use Rattle.boss_modbus.specs.declared.request.Asked.{Asked};
ghost use Rattle.boss_modbus.specs.Writes.{Carried, Exchanges, found_by, Looked, NotesAt, Wrote};

use crate::Fate;
use crate::exchange::exchange;
use crate::places::{What, asked_of, find_place};
use crate::response::Response;
use boss_looks::{Found, Kept, Looks, Next};
use boss_model::{DriverPlan, PointId};
use boss_outside::{Actuators, Failed, Link, Look};
use std::alloc::Global;

/// The devices of one driver behind a Modbus TCP host, over any link. Before it is assigned a part no point has a place. What they took is
/// looked after as the part says.
#[derive(Drop)]
pub struct ModbusDevice<L> {
    link: L,
    part: Option<DriverPlan>,
    is_connected: bool,
    /// How many exchanges there were, modulo 2^16: the number of the transaction.
    exchanges: u16,
    fate: Fate,
    response: Response,
    looks: Looks,
    /// What the last look asked after.
    looked: Option<Kept>,
    faults: u64,
}

impl<L: Link> ModbusDevice<L> {
    /// A device over this link, before its first write. Nothing is sent, and no memory taken.
    pub fn new(alloc: Global, link: L) -> ModbusDevice<L>
        ensures link { result.link ≡ link }
        ensures part { result.part ≡ None }
        ensures connected { result.is_connected ≡ false }
        ensures exchanges { result.exchanges ≡ 0 }
        ensures fate { result.fate ≡ Fate.None }
        ensures faults { result.faults ≡ 0 }
    {
        ModbusDevice {
            link,
            part: None,
            is_connected: false,
            exchanges: 0,
            fate: Fate::None,
            response: Response::new(),
            looks: Looks::new(alloc),
            looked: None,
            faults: 0,
        }
    }

    /// What came of the last exchange: of a write, or of a look that asked a device.
    pub fn fate(&self) -> Fate
        ensures { result ≡ self.now.fate }
    {
        self.fate
    }

    /// The bytes that were received in the last exchange.
    pub fn response(&self) -> &[u8]
        ensures { result.now ≡ self.now.response.items }
    {
        self.response.as_slice()
    }

    /// The link.
    pub fn link(&self) -> &L
        ensures { result.now ≡ self.now.link }
    {
        &self.link
    }

    /// The part that was assigned last.
    pub fn part(&self) -> &Option<DriverPlan>
        ensures { result.now ≡ self.now.part }
    {
        &self.part
    }

    /// The value that the last look asked after, and none where it asked nothing.
    pub fn looked(&self) -> Option<Kept>
        ensures { result ≡ self.now.looked }
    {
        self.looked
    }

    /// Asks for a value of a point, in an exchange of its own.
    fn exchange(&mut self, what: What, point: PointId, value: i64)
        ensures exchanges { Exchanges L.Link what point value self.old self.new }
        ensures looks { self.new.looks ≡ self.old.looks }
        ensures looked { self.new.looked ≡ self.old.looked }
        ensures faults { self.new.faults ≡ self.old.faults }
    {
        self.exchanges = self.exchanges.wrapping_add(1);
        self.fate = self.carry_out(what, point, value);
    }

    /// Looks after a value from now on that was taken, and after no other of its point.
    fn note(&mut self, point: PointId, value: i64)
        ensures same { self.new ≡ record self.old { looks = self.new.looks } }
        ensures looks { NotesAt (find_place self.old.part point) point value (is_taken self.old.fate) self.old.looks self.new.looks }
    {
        match find_place(&self.part, point) {
            Some(place) if self.fate == Fate::Taken => self.looks.taken(place, value),
            _ => self.looks.forget(point),
        }
    }

    /// Asks for a value of a point, under the number that this exchange has.
    fn carry_out(&mut self, what: What, point: PointId, value: i64) -> Fate
        ensures carried { (asked : Option Asked) × AsksFor self.old.part what point value asked × Carried L.Link self.new.exchanges asked
            self.old.part self.old.is_connected self.new.is_connected self.old.link self.new.link self.new.response.items result }
        ensures part { self.new.part ≡ self.old.part }
        ensures exchanges { self.new.exchanges ≡ self.old.exchanges }
        ensures looks { self.new.looks ≡ self.old.looks }
        ensures looked { self.new.looked ≡ self.old.looked }
        ensures faults { self.new.faults ≡ self.old.faults }
    {
        self.response.clear();
        let Some(asked) = asked_of(&self.part, what, point, value) else {
            return Fate::NoPlace;
        };
        let Some(part) = &self.part else {
            return Fate::NoPlace;
        };
        exchange(
            &mut self.link,
            &mut self.is_connected,
            part.host.slice(),
            self.exchanges,
            &asked,
            &mut self.response,
        )
    }
}

impl<L: Link + Drop> ModbusDevice<L> {
    /// Goes on over another link, which is not connected. What the old one had of its connection is let go.
    pub fn use_link(&mut self, link: L)
        ensures { self.new ≡ record self.old { link = link; is_connected = false } }
    {
        self.link = link;
        self.is_connected = false;
    }
}

impl<L: Link> Actuators for ModbusDevice<L> {
    ghost use Rattle.std.specs.Prelude.{Some};

    /// A device that runs for years can keep no list of its calls.
    ghost tells = { ⊥ };

    ghost calls = { λ device. [] };

    ghost whole = { λ device. Unit {0} };

    ghost faults = { λ device. device.faults };

    ghost assigned = { λ old part new. (new.part ≡ Some part) × (new.exchanges ≡ old.exchanges) × (new.is_connected ≡ false) };

    /// Each write counts for the number of the transaction, also one that sends nothing.
    fn write(&mut self, point: PointId, value: i64) -> Result<(), Failed>
        ensures cause { HasCause self.old.faults self.new.faults result }
        ensures wrote { Wrote L.Link point value self.old self.new }
        ensures answers { Answers self.new.fate result }
        // What was taken is looked after.
        ensures looks { NotesAt (find_place self.old.part point) point value (is_taken self.new.fate) self.old.looks self.new.looks }
    {
        self.exchange(What::Write, point, value);
        self.note(point, value);
        if self.fate == Fate::Taken {
            return Ok(());
        }
        self.faults = self.faults.saturating_add(1);
        Err(Failed)
    }

    fn look(&mut self, now: u64) -> Look
        ensures looked { Looked L.Link now self.old self.new result }
        ensures faults { self.new.faults ≡ self.old.faults }
    {
        let next = self.looks.next(now);
        self.looked = next.asked();
        match next {
            Next::Nothing => Look::Quiet,
            Next::Begun => Look::Seen,
            Next::Again { point } => Look::Doubt {
                point,
                differs: false,
            },
            Next::Check { kept } => {
                self.exchange(What::Check, kept.point, kept.value);
                self.looks.checked(kept, found_by(self.fate), now)
            }
        }
    }

    fn rests(&self, now: u64) -> u64 {
        self.looks.rests(now)
    }

    fn assign(&mut self, part: DriverPlan) {
        self.link.shut();
        self.is_connected = false;
        self.looks.clear();
        self.looked = None;
        self.part = Some(part);
    }
}

/// What a device was found with.
fn found_by(fate: Fate) -> Found
    ensures { result ≡ found_by fate }
{
    match fate {
        Fate::Has => Found::Same,
        Fate::HasOther => Found::Other,
        Fate::None
        | Fate::Taken
        | Fate::Exception { .. }
        | Fate::Wrong
        | Fate::Ended
        | Fate::LinkFault
        | Fate::NoPlace => Found::Nothing,
    }
}
