ghost use Rattle.std.specs.Prelude.{◌≡◌, ◌≢◌, false, [], None, Some};
ghost use Rattle.boss_outside.specs.Counts.{HasCause};
ghost use Rattle.boss_bacnet.specs.Devices.{Answers, Carried, Exchanges, found_by, is_taken, Looked, NotesAt, Wrote};
ghost use Rattle.boss_bacnet.specs.Places.{find_place};

use crate::Fate;
use crate::places::{Purpose, asked_of, find_place};
use crate::talking::exchange;
use boss_looks::{Found, Kept, Looks, Next};
use boss_model::{DriverPlan, PointId};
use boss_outside::{Actuators, Datagrams, Failed, Look};
use std::alloc::Global;

/// The devices of one driver over BACnet/IP, at one host and maybe behind it, over any socket. Before it is assigned a part no point has a
/// place. What they took is looked after as the part says.
#[derive(Drop)]
pub struct BacnetDevice<L> {
    link: L,
    part: Option<DriverPlan>,
    is_open: bool,
    /// How many exchanges there were, modulo 2^8: the invoke id.
    id: u8,
    fate: Fate,
    looks: Looks,
    /// What the last look asked after.
    looked: Option<Kept>,
    faults: u64,
}

impl<L: Datagrams> BacnetDevice<L> {
    /// Devices over this socket, before their first write. Nothing is sent, and no memory taken.
    pub fn new(alloc: Global, link: L) -> BacnetDevice<L>
        ensures link { result.link ≡ link }
        ensures part { result.part ≡ None }
        ensures closed { result.is_open ≡ false }
        ensures id { result.id ≡ 0 }
        ensures fate { result.fate ≡ Fate.None }
        ensures faults { result.faults ≡ 0 }
    {
        BacnetDevice {
            link,
            part: None,
            is_open: false,
            id: 0,
            fate: Fate::None,
            looks: Looks::new(alloc),
            looked: None,
            faults: 0,
        }
    }

    /// What came of the last exchange: of a write, or of a look that asked a device.
    pub fn fate(&self) -> Fate
        ensures { result ≡ self.now.fate }
    {
        self.fate
    }

    /// The value that the last look asked after, and none where it asked nothing.
    pub fn looked(&self) -> Option<Kept>
        ensures { result ≡ self.now.looked }
    {
        self.looked
    }

    /// The socket.
    pub fn link(&self) -> &L
        ensures { result.now ≡ self.now.link }
    {
        &self.link
    }

    /// The part that was assigned last.
    pub fn part(&self) -> &Option<DriverPlan>
        ensures { result.now ≡ self.now.part }
    {
        &self.part
    }

    /// Asks for a value of a point, in an exchange of its own.
    fn exchange(&mut self, purpose: Purpose, point: PointId, value: i64)
        ensures exchanges { Exchanges L.Datagrams purpose point value self.old self.new }
        ensures looks { self.new.looks ≡ self.old.looks }
        ensures looked { self.new.looked ≡ self.old.looked }
        ensures faults { self.new.faults ≡ self.old.faults }
    {
        self.id = self.id.wrapping_add(1);
        self.fate = self.carry_out(purpose, point, value);
    }

    /// Looks after a value from now on that was taken, and after no other of its point.
    fn note(&mut self, point: PointId, value: i64)
        ensures same { self.new ≡ record self.old { looks = self.new.looks } }
        ensures looks { NotesAt (find_place self.old.part point) point value (is_taken self.old.fate) self.old.looks self.new.looks }
    {
        match find_place(&self.part, point) {
            Some(place) if self.fate == Fate::Taken => self.looks.taken(place, value),
            _ => self.looks.forget(point),
        }
    }

    /// Asks under the invoke id that this exchange has. A socket that failed is opened anew before the next one.
    fn carry_out(&mut self, purpose: Purpose, point: PointId, value: i64) -> Fate
        ensures carried { Carried L.Datagrams purpose self.new.id point value self.old.part self.old.is_open self.new.is_open self.old.link self.new.link result }
        ensures part { self.new.part ≡ self.old.part }
        ensures id { self.new.id ≡ self.old.id }
        ensures looks { self.new.looks ≡ self.old.looks }
        ensures looked { self.new.looked ≡ self.old.looked }
        ensures faults { self.new.faults ≡ self.old.faults }
    {
        let Some(asked) = asked_of(&self.part, purpose, point, value) else {
            return Fate::NoPlace;
        };
        let Some(part) = &self.part else {
            return Fate::NoPlace;
        };
        if !self.is_open && self.link.open(part.host.slice()).is_err() {
            return Fate::LinkFault;
        }
        let fate = exchange(&mut self.link, self.id, &asked, u32::from(part.tries));
        self.is_open = fate != Fate::LinkFault;
        fate
    }
}

impl<L: Datagrams + Drop> BacnetDevice<L> {
    /// Goes on over another socket, which is not open. The old one is let go.
    pub fn use_link(&mut self, link: L)
        ensures { self.new ≡ record self.old { link = link; is_open = false } }
    {
        self.link = link;
        self.is_open = false;
    }
}

impl<L: Datagrams> Actuators for BacnetDevice<L> {
    /// A device that runs for years can keep no list of its calls.
    ghost tells = { ⊥ };

    ghost calls = { λ device. [] };

    ghost whole = { λ device. Unit {0} };

    ghost faults = { λ device. device.faults };

    ghost assigned = { λ old part new. (new.part ≡ Some part) × (new.id ≡ old.id) × (new.is_open ≡ false) };

    /// Each write has the next invoke id, also one that sends nothing.
    fn write(&mut self, point: PointId, value: i64) -> Result<(), Failed>
        ensures cause { HasCause self.old.faults self.new.faults result }
        ensures wrote { Wrote L.Datagrams point value self.old self.new }
        ensures answers { Answers self.new.fate result }
        // What was taken is looked after.
        ensures looks { NotesAt (find_place self.old.part point) point value (is_taken self.new.fate) self.old.looks self.new.looks }
    {
        self.exchange(Purpose::Write, point, value);
        self.note(point, value);
        if self.fate == Fate::Taken {
            return Ok(());
        }
        self.faults = self.faults.saturating_add(1);
        Err(Failed)
    }

    fn look(&mut self, now: u64) -> Look
        ensures looked { Looked L.Datagrams now self.old self.new result }
        ensures faults { self.new.faults ≡ self.old.faults }
    {
        let next = self.looks.next(now);
        self.looked = next.asked();
        match next {
            Next::Nothing => Look::Quiet,
            Next::Begun => Look::Seen,
            Next::Again { point } => Look::Doubt {
                point,
                differs: false,
            },
            Next::Check { kept } => {
                self.exchange(Purpose::Check, kept.point, kept.value);
                self.looks.checked(kept, found_by(self.fate), now)
            }
        }
    }

    fn rests(&self, now: u64) -> u64 {
        self.looks.rests(now)
    }

    fn assign(&mut self, part: DriverPlan) {
        self.is_open = false;
        self.looks.clear();
        self.looked = None;
        self.part = Some(part);
    }
}

/// What a device was found with.
fn found_by(fate: Fate) -> Found
    ensures { result ≡ found_by fate }
{
    match fate {
        Fate::Has => Found::Same,
        Fate::HasOther => Found::Other,
        Fate::None
        | Fate::Taken
        | Fate::Error { .. }
        | Fate::Reject { .. }
        | Fate::Abort { .. }
        | Fate::Silent
        | Fate::LinkFault
        | Fate::NoPlace => Found::Nothing,
    }
}
