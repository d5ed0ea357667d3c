ghost use Rattle.std.specs.Prelude.{◌≡◌, ◌+◌, ◌≤◌, ◌&&◌, ℕ, nat_le, min, false, length, IfErr, IfOk, List};
ghost use Rattle.boss_durable.specs.Followed.{was_stopped};
ghost use Rattle.boss_feed_lines.specs.Told.{item_with};
ghost use Rattle.boss_following.specs.Items.{NoState};
ghost use Rattle.boss_following.specs.Moves.{done_by, is_disk_fault, Steps};
ghost use Rattle.boss_following.specs.Places.{at, spot};
ghost use Rattle.boss_following.specs.Steps.{IsStepOf, Moves};
ghost use Rattle.boss_model.specs.Catalogue.{actuators};
ghost use Rattle.boss_model.specs.declared.state.Actuator.{Actuator};
ghost use Rattle.boss_model.specs.Limits.{last_number, longest_line};
ghost use Rattle.boss_model.specs.Seen.{seen};
ghost use Rattle.boss_model.specs.State.{Persistent};
ghost use Rattle.boss_snapshot.specs.Spells.{SpellsState};
ghost use Rattle.def_feed.specs.Followers.{largest_state, of_event, of_state, Step, step_at, step_of, taking};
ghost use Rattle.def_feed.specs.Feeds.{longest_part};
ghost use Rattle.def_feed.specs.Followers as feed;
ghost use Rattle.def_feed.specs.Items.{PartLine};

use crate::following::Following;
use crate::place::Place;
use crate::spelled::{event_of, state_of};
use crate::stop::Stop;
use boss_disk::Disk;
use boss_durable::{Durable, Followed};
use boss_feed_lines::Item;
use boss_model::{Kept, LAST_NUMBER};
use boss_points::Catalogue;
use boss_requests::is_blank;
use std::mem;

/// How many bytes of a state a line has; the last one has the rest.
const LONGEST_PART: u64 = 16_384;

/// How many bytes a state has at most: 128 MiB.
const LARGEST_STATE: u64 = 1 << 27;

impl Following {
    /// Takes a line. A blank one is passed over.
    pub fn take_line<D: Disk>(
        &mut self,
        catalogue: &Catalogue,
        durable: &mut Durable<D>,
        line: &[u8],
    ) -> Result<(), Stop>
        requires plant { durable.old.engine.plant ≡ actuators catalogue.now }
        requires going { durable.old.disks.stopped ≡ false }
        requires line { length line.now ≤ longest_line }
        ensures { (step : Step) × IsStepOf (spot durable.old self.old) line.now step
            × Steps durable.old.engine.plant step durable.old self.old durable.new self.new result }
    {
        if is_blank(line) {
            return Ok(());
        }
        match self.reader.read(line) {
            Some(item) => self.take_item(catalogue, durable, item),
            None => Err(Stop::BadLine),
        }
    }

    /// Takes what a line tells.
    fn take_item<D: Disk>(
        &mut self,
        catalogue: &Catalogue,
        durable: &mut Durable<D>,
        item: Item,
    ) -> Result<(), Stop>
        requires plant { durable.old.engine.plant ≡ actuators catalogue.now }
        requires going { durable.old.disks.stopped ≡ false }
        ensures { Steps durable.old.engine.plant (step_of (spot durable.old self.old) (item_with self.old.reader.told item))
            durable.old self.old durable.new self.new result }
    {
        match self.place {
            Place::Between => match item {
                Item::State { number, size } => self.begin_state(catalogue, durable, number, size),
                Item::Event { number } => self.take_event(durable, number),
                Item::Part => Err(Stop::BadLine),
            },
            Place::Passing { left } => match item {
                Item::Part => self.pass_part(left),
                Item::State { .. } | Item::Event { .. } => Err(Stop::BadLine),
            },
            Place::Taking { number, size } => match item {
                Item::Part => self.take_part(catalogue, durable, number, size),
                Item::State { .. } | Item::Event { .. } => Err(Stop::BadLine),
            },
        }
    }

    /// Takes the event of this number, whose bytes the line told. One that is known is passed over, whatever its bytes are.
    fn take_event<D: Disk>(&mut self, durable: &mut Durable<D>, number: u64) -> Result<(), Stop>
        requires going { durable.old.disks.stopped ≡ false }
        requires place { self.old.place ≡ Place.Between }
        ensures { Steps durable.old.engine.plant (of_event (spot durable.old self.old) number self.old.reader.told)
            durable.old self.old durable.new self.new result }
    {
        let have = durable.events();
        if number <= have {
            return Ok(());
        }
        if 1 < number - have {
            return Err(Stop::Gap {
                have,
                found: number,
            });
        }
        if LAST_NUMBER < number {
            return Err(Stop::BadLine);
        }
        self.append(durable)
    }

    /// Appends the event whose bytes the line told.
    fn append<D: Disk>(&mut self, durable: &mut Durable<D>) -> Result<(), Stop>
        requires going { durable.old.disks.stopped ≡ false }
        requires place { self.old.place ≡ Place.Between }
        requires few { durable.old.disks.events + 1 ≤ last_number }
        ensures { Steps durable.old.engine.plant (feed.Next self.old.reader.told) durable.old self.old durable.new self.new result }
    {
        let event = event_of(self.alloc, self.reader.bytes())?;
        done(durable.follow_event(&event))
    }

    /// Begins with a state of so many events and bytes. One that is known is passed over.
    fn begin_state<D: Disk>(
        &mut self,
        catalogue: &Catalogue,
        durable: &mut Durable<D>,
        number: u64,
        size: u64,
    ) -> Result<(), Stop>
        requires plant { durable.old.engine.plant ≡ actuators catalogue.now }
        requires going { durable.old.disks.stopped ≡ false }
        requires place { self.old.place ≡ Place.Between }
        ensures { Steps durable.old.engine.plant (of_state (spot durable.old self.old) number size) durable.old self.old durable.new self.new result }
    {
        if !may_be(number, size) {
            return Err(Stop::BadLine);
        }
        if number <= durable.events() {
            self.place = Place::passing(size);
            return Ok(());
        }
        self.state.clear();
        self.take_if_whole(catalogue, durable, number, size)
    }

    /// Passes over bytes of a state, of which so many were to come.
    fn pass_part(&mut self, left: u64) -> Result<(), Stop>
        requires { self.old.place ≡ Place.Passing left }
        ensures moves { (plant : List Actuator) (d : Persistent) (count : ℕ) →
            Moves plant (at d count self.old) (step_at (at d count self.old) (feed.Passing left) (PartLine self.old.reader.told)) (at d count self.new) result }
        ensures fine { is_disk_fault result ≡ false }
    {
        let count = self.reader.bytes().len() as u64;
        if count != due(left) {
            return Err(Stop::BadLine);
        }
        self.place = Place::passing(left - count);
        Ok(())
    }

    /// Puts bytes behind those that have come of a state.
    fn take_part<D: Disk>(
        &mut self,
        catalogue: &Catalogue,
        durable: &mut Durable<D>,
        number: u64,
        size: u64,
    ) -> Result<(), Stop>
        requires plant { durable.old.engine.plant ≡ actuators catalogue.now }
        requires going { durable.old.disks.stopped ≡ false }
        requires place { self.old.place ≡ Place.Taking number size }
        ensures { Steps durable.old.engine.plant
            (step_at (spot durable.old self.old) (feed.Taking number size self.old.state.items) (PartLine self.old.reader.told))
            durable.old self.old durable.new self.new result }
    {
        let bytes = self.reader.bytes();
        if bytes.len() as u64 != due(size - self.state.len() as u64) {
            return Err(Stop::BadLine);
        }
        if self.state.extend_from_slice(bytes).is_err() {
            return Err(Stop::NoMemory);
        }
        self.take_if_whole(catalogue, durable, number, size)
    }

    /// Goes on within a state that is to be taken; where all of its bytes have come it is taken.
    fn take_if_whole<D: Disk>(
        &mut self,
        catalogue: &Catalogue,
        durable: &mut Durable<D>,
        number: u64,
        size: u64,
    ) -> Result<(), Stop>
        requires plant { durable.old.engine.plant ≡ actuators catalogue.now }
        requires going { durable.old.disks.stopped ≡ false }
        requires few { number ≤ last_number }
        requires within { length self.old.state.items ≤ size }
        ensures { Steps durable.old.engine.plant (taking (spot durable.old self.old) number size self.old.state.items)
            durable.old self.old durable.new self.new result }
    {
        if (self.state.len() as u64) < size {
            self.place = Place::Taking { number, size };
            return Ok(());
        }
        self.take_state(catalogue, durable, number)
    }

    /// Takes the state whose bytes have come, after so many events.
    fn take_state<D: Disk>(
        &mut self,
        catalogue: &Catalogue,
        durable: &mut Durable<D>,
        number: u64,
    ) -> Result<(), Stop>
        requires plant { durable.old.engine.plant ≡ actuators catalogue.now }
        requires going { durable.old.disks.stopped ≡ false }
        requires few { number ≤ last_number }
        ensures { Steps durable.old.engine.plant (feed.Whole number self.old.state.items) durable.old self.old durable.new self.new result }
    {
        let kept = self.read_state()?;
        done(durable.take_state(catalogue, &kept, number))
    }

    /// The state whose bytes have come, and nothing is under way behind it. The bytes are let go: a second engine beside the first
    /// wants the room.
    fn read_state(&mut self) -> Result<Kept, Stop>
        ensures is { IfOk result (λ kept. SpellsState 2 (seen kept) self.old.state.items) }
        ensures wrong { IfErr result (λ why. NoState self.old.state.items why) }
        ensures place { self.new.place ≡ Place.Between }
    {
        self.place = Place::Between;
        let bytes = mem::replace(&mut self.state, Vec::new(self.alloc));
        state_of(self.alloc, &bytes)
    }
}

/// Whether a state may have this number and so many bytes.
fn may_be(number: u64, size: u64) -> bool
    ensures { result ≡ (nat_le number last_number && nat_le size largest_state) }
{
    number <= LAST_NUMBER && size <= LARGEST_STATE
}

/// How many bytes a part has where so many are to come.
fn due(left: u64) -> u64
    ensures { result ≡ min longest_part left }
{
    LONGEST_PART.min(left)
}

/// What a line comes to, by what became of its event or of the state that it ends.
fn done(followed: Followed) -> Result<(), Stop>
    requires { was_stopped followed ≡ false }
    ensures { result ≡ done_by followed }
{
    match followed {
        Followed::Done => Ok(()),
        Followed::NotEffective | Followed::NotSound => Err(Stop::BadLine),
        Followed::DiskFault => Err(Stop::DiskFault),
        Followed::NoMemory => Err(Stop::NoMemory),
        Followed::Stopped => unreachable!(),
    }
}
