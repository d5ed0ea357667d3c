ghost use Rattle.std.specs.Prelude.{true, false, Ok, ◌≡◌, ℕ, ◌+◌, ◌*◌, ◌<◌, ◌≤◌, ◌==◌, ◌&&◌, not, [], length, map, find, min, is_some, IfErr, IfOk, OnOk, OnErr};
ghost use Rattle.std.specs.Option.{option_map_or};
ghost use Rattle.std.specs.List.{list_any, AllByRecursion};
ghost use Rattle.boss_model.specs.Acts.{replay};
ghost use Rattle.boss_model.specs.declared.answer.Answer.TheVariants as answer;
ghost use Rattle.boss_model.specs.declared.command.Command.TheVariants as command;
ghost use Rattle.boss_model.specs.Catalogue.{actuators, driver_of};
ghost use Rattle.boss_model.specs.Devices.{wanting};
ghost use Rattle.boss_model.specs.Effects.{step_effect};
ghost use Rattle.boss_model.specs.Limits.{done_kept, last_moment, most_points, most_processes};
ghost use Rattle.boss_model.specs.Machine.{step};
ghost use Rattle.boss_model.specs.Order.{least};
ghost use Rattle.boss_model.specs.Processes.{process_named};
ghost use Rattle.boss_model.specs.Seen.{seen};
ghost use Rattle.boss_model.specs.Settle.{first_state, is_failed, opened};
ghost use Rattle.boss_model.specs.Sound.{IsAllowed, IsSound, IsSoundPersistent};
ghost use Rattle.boss_model.specs.Time.{due};
ghost use Rattle.boss_points.specs.Seen.{seen as seen_point};
ghost use Rattle.def_history.specs.declared.outcome.Outcome.TheVariants as outcome;
ghost use Rattle.law_spelling.specs.Ranges.{IsSpelled};
ghost use Rattle.boss_engine.specs.Again.{TakesOn};
ghost use Rattle.boss_engine.specs.Deeds.{is_a_drivers, is_answered_apart, CameTo, IsStep, takes_memory};
ghost use Rattle.boss_engine.specs.Ready.{MayNeedMemory};
ghost use Rattle.boss_engine.specs.Replies.{IsTellable, told};
ghost use Rattle.boss_engine.specs.declared.restoring.RestoreRefusal.TheVariants as refusal;

use crate::machine::Machine;
use crate::reply::{Reading, Reply, answer_of_reading, answer_of_want};
use crate::restoring::RestoreRefusal;
use crate::room::Room;
use boss_marks::Want;
use boss_model::{
    Acceptance, Actuator, Answer, Command, DriverId, Effect, Event, Kept, Name, NoMemory, PointId,
    Refusal, SessionId, Txn,
};
use boss_persistent::Decision;
use boss_points::{Catalogue, Point};
use boss_state_check::is_sound;
use def_history::Outcome;
use std::alloc::Global;
use std::marker::Model;

/// The transaction manager of a plant: who holds which slot of which point, what processes are told, and what the devices
/// have to be told.
///
/// A contract sees it as the plant and the state of the machine, which is sound.
#[derive(Drop)]
pub struct Engine {
    plant: Vec<Actuator>,
    machine: Machine,
    /// Whether the points are open. An event that is done again closes them; then the marks and the attached sessions count for
    /// nothing until the points are opened.
    is_open: bool,
}

impl Model for Engine {
    ghost use Rattle.boss_engine.specs.Running.{Running};

    ghost Value = { Running };

    ghost use Rattle.boss_engine.specs.Inside.{running, IsReady};

    ghost view = { running };

    ghost invariant = { IsReady };
}

impl Engine {
    /// The engine of a catalogue's points before anything was done: no process, no lease, and every point wants its
    /// default. The room that `room` tells is taken.
    pub fn new(alloc: Global, catalogue: &Catalogue) -> Result<Engine, NoMemory>
        ensures new { IfOk result (λ engine. engine
            ≡ record { plant = actuators catalogue.now; state = first_state (actuators catalogue.now) }) }
        ensures sound { IfOk result (λ engine. IsSound engine.plant engine.state) }
    {
        Engine::for_plant(alloc, plant_of(alloc, catalogue)?)
    }

    /// The engine of a plant before anything was done: no process, no lease, and every point wants its
    /// default. Room is taken for sixteen slots of each point, 256 sessions, and what is told in a step.
    fn for_plant(alloc: Global, plant: Vec<Actuator>) -> Result<Engine, NoMemory>
        requires { length plant.items ≤ most_points }
        ensures { IfOk result (λ engine. engine ≡ record { plant = plant.items; state = first_state plant.items }) }
    {
        let machine = Machine::first(alloc, &plant)?;
        Ok(Engine {
            plant,
            machine,
            is_open: true,
        })
    }

    /// The engine of a catalogue's points with what outlasted a stop: nobody is attached, and every point wants its target.
    /// The room that `room` tells is taken.
    ///
    /// `NotSound` comes exactly where what was kept is not sound over the catalogue's points, unless there was no memory to
    /// find that out.
    pub fn restore(
        alloc: Global,
        catalogue: &Catalogue,
        kept: &Kept,
    ) -> Result<Engine, RestoreRefusal>
        ensures plant { IfOk result (λ engine. engine.plant ≡ actuators catalogue.now) }
        ensures state { IfOk result (λ engine. engine.state ≡ opened (actuators catalogue.now) (seen kept.entry.now)) }
        ensures sound { IfOk result (λ engine. IsSound engine.plant engine.state) }
        ensures right { OnOk result (IsSoundPersistent (actuators catalogue.now) (seen kept.entry.now)) }
        ensures wrong { IfErr result (λ why. why ≡ refusal.NotSound → ¬ IsSoundPersistent (actuators catalogue.now) (seen kept.entry.now)) }
    {
        let plant = plant_of(alloc, catalogue)?;
        if !is_sound(&plant, kept) {
            return Err(RestoreRefusal::NotSound);
        }
        Ok(Engine::for_kept(alloc, plant, kept)?)
    }

    /// The engine of a plant with what outlasted a stop, whose points are not open yet.
    fn for_kept(alloc: Global, plant: Vec<Actuator>, kept: &Kept) -> Result<Engine, NoMemory>
        requires few { length plant.items ≤ most_points }
        requires sound { IsSoundPersistent plant.items (seen kept.now) }
        ensures { IfOk result (λ engine. engine ≡ record { plant = plant.items; state = opened plant.items (seen kept.entry.now) }) }
    {
        let machine = Machine::put_back(alloc, &plant, kept)?;
        Ok(Engine {
            plant,
            machine,
            is_open: false,
        })
    }

    /// All that outlasts a stop, as plain lists.
    pub fn keep(&self, alloc: Global) -> Result<Kept, NoMemory>
        ensures { IfOk result (λ kept. seen kept ≡ self.now.state.persistent) }
    {
        self.machine.lasting.keep(alloc)
    }

    /// The least driver that has a want.
    pub fn wanting(&self) -> Option<DriverId>
        ensures { result ≡ wanting self.now.plant self.now.state }
    {
        if self.is_open {
            self.machine.marks.wanting()
        } else {
            first_driver(&self.plant)
        }
    }

    /// Whether the driver has a want.
    pub fn has_want(&self, driver: DriverId) -> bool
        ensures { result ≡ is_some (find (λ point. driver_of self.now.plant point == driver) self.now.state.wants) }
    {
        if self.is_open {
            self.machine.marks.has_want(driver)
        } else {
            serves(&self.plant, driver)
        }
    }

    /// A moment before which nothing changes by time alone, in milliseconds: nothing is due, and no failed write is tried again.
    pub fn first_due(&self) -> u64
        ensures due { (n : ℕ) → n < result → due n self.now.state.persistent ≡ [] }
        ensures retries { AllByRecursion (λ proxy. is_failed proxy.mark ≡ true → result ≤ proxy.retry_at) self.now.state.proxies }
    {
        let due = self.machine.lasting.first_due();
        due.min(self.machine.marks.next_retry())
    }

    /// The name of a process that was told something since it was given out so. Each is given out once, until it is told more. None
    /// where there is none. It is no part of what a contract sees.
    pub fn next_noticed(&mut self) -> Option<Name>
        ensures { self.new ≡ self.old }
    {
        self.machine.lasting.processes.next_noticed()
    }

    /// The moment of the last change, in milliseconds.
    pub fn now(&self) -> u64
        ensures { result ≡ self.now.state.persistent.now }
    {
        self.machine.lasting.holdings.now()
    }

    /// How many leases are live.
    pub fn leases(&self) -> u64
        ensures { result ≡ length self.now.state.persistent.leases }
    {
        self.machine.lasting.holdings.leases() as u64
    }

    /// How many reversions are under way.
    pub fn pending(&self) -> u64
        ensures { result ≡ length self.now.state.persistent.pending }
    {
        self.machine.lasting.holdings.pending() as u64
    }

    /// What the engine has room for, whatever was done. A step that is not answered by want of memory finds its room here, so it
    /// takes none.
    pub fn room(&self) -> Room
        ensures leases { result.leases ≡ 16 * length self.now.plant }
        ensures reversions { result.reversions ≡ 16 * length self.now.plant }
        ensures timers { result.timers ≡ 32 * length self.now.plant }
        ensures records { length self.now.plant + done_kept ≤ result.records }
        ensures sessions { most_processes ≤ result.sessions }
        ensures told { 32 * length self.now.plant < result.told }
        ensures rings { result.rings ≡ length self.now.state.persistent.processes }
    {
        self.machine.room()
    }

    /// Whether a process of this name is known. It takes no memory.
    pub fn knows(&self, name: &Name) -> bool
        ensures { result ≡ is_some (process_named self.now.state.persistent.processes name.now) }
    {
        self.machine.lasting.processes.named(name).is_some()
    }

    /// Carries a session's command out: time passes up to `moment`, in milliseconds, or to the engine's last moment
    /// where that is later; devices that failed are written again, the points settle, the command acts, and the points settle
    /// again.
    ///
    /// No memory is to be had only for a submit, an attach of a new name or notices, when they are neither refused nor answered
    /// from the reply that is kept of the process. Then nothing has changed.
    #[inline(always)]
    pub fn step(
        &mut self,
        session: SessionId,
        command: &Command,
        moment: u64,
    ) -> Result<(Answer, Effect), NoMemory>
        requires moment { moment ≤ last_moment }
        requires allowed { IsAllowed self.old.plant command.now }

        ensures answer { IfOk result (λ told. told.0 ≡ (step self.old.plant session command.now moment self.old.state).answer) }
        ensures effect { IfOk result (λ told. told.1 ≡ step_effect self.old.plant session command.now moment self.old.state) }
        ensures state { IfOk result (λ _. self.new.state ≡ (step self.old.plant session command.now moment self.old.state).state) }
        ensures sound { IsSound self.new.plant self.new.state }
        ensures plant { self.new.plant ≡ self.old.plant }
        ensures err { OnErr result (self.new ≡ self.old) }
        ensures memory { OnErr result (MayNeedMemory self.old.plant session command.now self.old.state) }
    {
        let mut effect = Effect::Unchanged;
        match self.step_done(session, command, moment, &mut effect) {
            Outcome::Done { answer } => Ok((answer, effect)),
            Outcome::NoMemory => Err(NoMemory),
            Outcome::Stopped | Outcome::DiskFault | Outcome::Denied { .. } => unreachable!(),
        }
    }

    /// The same, as an outcome: done, or no memory, and then nothing has changed. What the step did is put into `effect`. An answer
    /// has room for sixteen slots: the outcome is made where it is handed out, so that it is moved once.
    #[inline(always)]
    pub fn step_done(
        &mut self,
        session: SessionId,
        command: &Command,
        moment: u64,
        effect: &mut Effect,
    ) -> Outcome
        requires moment { moment ≤ last_moment }
        requires allowed { IsAllowed self.old.plant command.now }
        ensures came { CameTo session command.now moment self.old self.new effect.old effect.new result }
        ensures sound { IsSound self.new.plant self.new.state }
        ensures plant { self.new.plant ≡ self.old.plant }
    {
        match command {
            Command::Next { .. } | Command::Report { .. } | Command::Doubt { .. } => {
                self.serve(session, command, moment, effect)
            }
            Command::Array { .. }
            | Command::Status { .. }
            | Command::Notices { .. }
            | Command::Points { .. }
            | Command::Version => self.tell(session, command, moment, effect),
            Command::Attach { .. }
            | Command::Submit { .. }
            | Command::Renew { .. }
            | Command::Cancel { .. }
            | Command::Gone
            | Command::Tick
            | Command::Read { .. } => self.answer(session, command, moment, effect),
        }
    }

    /// The same of a driver's command. Most steps of a plant that is at work are such: what they come to is compiled with the
    /// caller, who mostly needs little of it.
    #[inline(always)]
    fn serve(
        &mut self,
        session: SessionId,
        command: &Command,
        moment: u64,
        effect: &mut Effect,
    ) -> Outcome
        requires moment { moment ≤ last_moment }
        requires allowed { IsAllowed self.old.plant command.now }
        requires driver { is_a_drivers command.now ≡ true }
        ensures came { CameTo session command.now moment self.old self.new effect.old effect.new result }
        ensures sound { IsSound self.new.plant self.new.state }
        ensures plant { self.new.plant ≡ self.old.plant }
    {
        let (reply, did) = self.hear(session, command, moment);
        *effect = did;
        match reply {
            Reply::Want(want) => return wanted(want),
            Reply::Nothing => return nothing(),
            Reply::Noted { current } => return noted(current),
            other => return self.look_up(other),
        }
    }

    /// The same, with what the command came to in place of its answer. Each of a driver's commands has code of its own.
    #[inline(always)]
    fn hear(&mut self, session: SessionId, command: &Command, moment: u64) -> (Reply, Effect)
        requires moment { moment ≤ last_moment }
        requires allowed { IsAllowed self.old.plant command.now }
        requires driver { is_a_drivers command.now ≡ true }
        ensures did { IsStep self.old.plant session command.now moment self.old.state self.new.state result.0 result.1 }
        ensures sound { IsSound self.new.plant self.new.state }
        ensures plant { self.new.plant ≡ self.old.plant }
    {
        match command {
            Command::Next { driver } => self.next(session, *driver, moment),
            Command::Report { point, version, ok } => {
                self.report(session, *point, *version, *ok, moment)
            }
            Command::Doubt { point, differs } => self.doubt(session, *point, *differs, moment),
            Command::Attach { .. }
            | Command::Submit { .. }
            | Command::Renew { .. }
            | Command::Cancel { .. }
            | Command::Gone
            | Command::Tick
            | Command::Read { .. }
            | Command::Array { .. }
            | Command::Status { .. }
            | Command::Notices { .. }
            | Command::Points { .. }
            | Command::Version => unreachable!(),
        }
    }

    /// The same of any command, whose answer is looked up out of the way of those that need no looking up.
    #[inline(never)]
    fn tell(
        &mut self,
        session: SessionId,
        command: &Command,
        moment: u64,
        effect: &mut Effect,
    ) -> Outcome
        requires moment { moment ≤ last_moment }
        requires allowed { IsAllowed self.old.plant command.now }
        ensures came { CameTo session command.now moment self.old self.new effect.old effect.new result }
        ensures sound { IsSound self.new.plant self.new.state }
        ensures plant { self.new.plant ≡ self.old.plant }
    {
        let Ok((reply, did)) = self.carry_out(session, command, moment) else {
            return no_memory();
        };
        *effect = did;
        self.look_up(reply)
    }

    /// The same of a command whose answer needs no looking up. The outcome of each kind is made in a function of its own, so that
    /// no room is cleared for the others.
    #[inline(never)]
    fn answer(
        &mut self,
        session: SessionId,
        command: &Command,
        moment: u64,
        effect: &mut Effect,
    ) -> Outcome
        requires moment { moment ≤ last_moment }
        requires allowed { IsAllowed self.old.plant command.now }
        requires apart { is_answered_apart command.now ≡ false }
        ensures came { CameTo session command.now moment self.old self.new effect.old effect.new result }
        ensures sound { IsSound self.new.plant self.new.state }
        ensures plant { self.new.plant ≡ self.old.plant }
    {
        let Ok((reply, did)) = self.carry_out(session, command, moment) else {
            return no_memory();
        };
        *effect = did;
        match reply {
            Reply::Decided(decision) => match decision {
                Decision::Again(acceptance) => match acceptance {
                    Acceptance::Accepted { txn, until } => return accepted(txn, until),
                    Acceptance::Renewed { txn, until } => return renewed(txn, until),
                    Acceptance::Cancelled { txn, at } => return cancelled(txn, at),
                },
                Decision::Stale { kept } => return refused(Refusal::Stale { kept }),
            },
            Reply::Read(reading) => return read(reading),
            Reply::Ticked { now } => return ticked(now),
            Reply::Refused(why) => return refused(why),
            Reply::Attached { name, next } => return attached(name, next),
            Reply::Gone { ended } => return gone(ended),
            _ => unreachable!(),
        }
    }

    /// The same, with what the command came to in place of its answer.
    #[inline(always)]
    fn carry_out(
        &mut self,
        session: SessionId,
        command: &Command,
        moment: u64,
    ) -> Result<(Reply, Effect), NoMemory>
        requires moment { moment ≤ last_moment }
        requires allowed { IsAllowed self.old.plant command.now }
        ensures did { IfOk result (λ did. IsStep self.old.plant session command.now moment self.old.state self.new.state did.0 did.1) }
        ensures sound { IsSound self.new.plant self.new.state }
        ensures plant { self.new.plant ≡ self.old.plant }
        ensures err { OnErr result (self.new ≡ self.old) }
        ensures memory { OnErr result (MayNeedMemory self.old.plant session command.now self.old.state) }
    {
        match command {
            Command::Attach { .. } | Command::Submit { .. } | Command::Notices { .. } => {
                self.ready(session, command, moment)
            }
            Command::Renew { .. }
            | Command::Cancel { .. }
            | Command::Gone
            | Command::Tick
            | Command::Next { .. }
            | Command::Report { .. }
            | Command::Doubt { .. }
            | Command::Read { .. }
            | Command::Array { .. }
            | Command::Status { .. }
            | Command::Points { .. }
            | Command::Version => Ok(self.advance(session, command, moment)),
        }
    }

    /// What a reply comes to whose answer is looked up. It is made out of the way of those who need none of its kind.
    #[inline(always)]
    fn look_up(&self, reply: Reply) -> Outcome
        requires { IsTellable self.now.plant self.now.state.persistent reply }
        ensures { result ≡ outcome.Done (told self.now.state.persistent reply) }
    {
        Outcome::Done {
            answer: self.machine.answer(reply),
        }
    }

    /// A driver asks for its first want.
    #[inline(never)]
    fn next(&mut self, session: SessionId, driver: DriverId, moment: u64) -> (Reply, Effect)
        requires moment { moment ≤ last_moment }
        ensures did { IsStep self.old.plant session (command.Next driver) moment self.old.state self.new.state result.0 result.1 }
        ensures sound { IsSound self.new.plant self.new.state }
        ensures plant { self.new.plant ≡ self.old.plant }
    {
        self.advance(session, &Command::Next { driver }, moment)
    }

    /// A driver says whether a device took a value.
    #[inline(never)]
    fn report(
        &mut self,
        session: SessionId,
        point: PointId,
        version: u64,
        ok: bool,
        moment: u64,
    ) -> (Reply, Effect)
        requires moment { moment ≤ last_moment }
        requires point { point < length self.old.plant }
        ensures did { IsStep self.old.plant session (command.Report point version ok) moment self.old.state self.new.state result.0 result.1 }
        ensures sound { IsSound self.new.plant self.new.state }
        ensures plant { self.new.plant ≡ self.old.plant }
    {
        self.advance(session, &Command::Report { point, version, ok }, moment)
    }

    /// A driver says that a settled device is to be written again.
    #[inline(never)]
    fn doubt(
        &mut self,
        session: SessionId,
        point: PointId,
        differs: bool,
        moment: u64,
    ) -> (Reply, Effect)
        requires moment { moment ≤ last_moment }
        requires point { point < length self.old.plant }
        ensures did { IsStep self.old.plant session (command.Doubt point differs) moment self.old.state self.new.state result.0 result.1 }
        ensures sound { IsSound self.new.plant self.new.state }
        ensures plant { self.new.plant ≡ self.old.plant }
    {
        self.advance(session, &Command::Doubt { point, differs }, moment)
    }

    /// The same, which is compiled for each command that it is called with.
    #[inline(always)]
    fn advance(&mut self, session: SessionId, command: &Command, moment: u64) -> (Reply, Effect)
        requires moment { moment ≤ last_moment }
        requires allowed { IsAllowed self.old.plant command.now }
        requires takes { takes_memory command.now ≡ false }
        ensures did { IsStep self.old.plant session command.now moment self.old.state self.new.state result.0 result.1 }
        ensures sound { IsSound self.new.plant self.new.state }
        ensures plant { self.new.plant ≡ self.old.plant }
    {
        let did = self
            .machine
            .step_plain(&self.plant, self.is_open, session, command, moment);
        self.is_open = true;
        did
    }

    /// A command that needs memory.
    #[inline(always)]
    fn ready(
        &mut self,
        session: SessionId,
        command: &Command,
        moment: u64,
    ) -> Result<(Reply, Effect), NoMemory>
        requires moment { moment ≤ last_moment }
        requires allowed { IsAllowed self.old.plant command.now }
        requires takes { takes_memory command.now ≡ true }
        ensures did { IfOk result (λ did. IsStep self.old.plant session command.now moment self.old.state self.new.state did.0 did.1) }
        ensures sound { IsSound self.new.plant self.new.state }
        ensures plant { self.new.plant ≡ self.old.plant }
        ensures err { OnErr result (self.new ≡ self.old) }
        ensures memory { OnErr result (MayNeedMemory self.old.plant session command.now self.old.state) }
    {
        let did = self
            .machine
            .step_ready(&self.plant, self.is_open, session, command, moment);
        self.is_open = true;
        did
    }

    /// Does an event again, wherever it comes from: time passes up to its moment, or to the engine's last moment where that is
    /// later, and its act is done. The answer is whether the event is effective: its process and its points are known, its act is
    /// not refused and was not made before, and something that outlasts a stop changes. If it is not, nothing has changed. If it
    /// is, the state is the one that the points open to: nobody is attached, and every point wants its target anew.
    ///
    /// No memory is to be had only for a submit or the enrolment of a new name. Then nothing has changed.
    pub fn replay(&mut self, event: &Event) -> Result<bool, NoMemory>
        requires { IsSpelled event.now }

        ensures effective { IfOk result (λ done. done ≡ is_some (replay self.old.plant event.now self.old.state.persistent)) }
        ensures state { OnOk result (self.new.state ≡ option_map_or (opened self.old.plant) (replay self.old.plant event.now self.old.state.persistent) self.old.state) }
        ensures sound { IsSound self.new.plant self.new.state }
        ensures plant { self.new.plant ≡ self.old.plant }
        ensures err { OnErr result (self.new ≡ self.old) }
        ensures memory { OnErr result (TakesOn event.now.act) }
    {
        let effective = self.machine.replay(&self.plant, event)?;
        self.is_open = stays_open(self.is_open, effective);
        Ok(effective)
    }

    /// Every point wants its target anew, as version 1, and nobody is attached any more. After events were done again this is
    /// what the next step would begin with. It takes no memory.
    pub fn open_points(&mut self)
        ensures state { self.new.state ≡ opened self.old.plant self.old.state.persistent }
        ensures sound { IsSound self.new.plant self.new.state }
        ensures plant { self.new.plant ≡ self.old.plant }
    {
        self.machine.open_points(&self.plant);
        self.is_open = true;
    }
}

/// Whether points that were open, or not, are so still after an event that was effective, or not.
fn stays_open(is_open: bool, effective: bool) -> bool
    ensures { result ≡ (is_open && not effective) }
{
    is_open && !effective
}

/// Whether one of the points is the driver's.
fn serves(plant: &[Actuator], driver: DriverId) -> bool
    ensures { result ≡ list_any (λ actuator. actuator.driver == driver) plant.now }
{
    plant.iter().any(|actuator| actuator.driver == driver)
}

/// The least driver of the points.
fn first_driver(plant: &[Actuator]) -> Option<DriverId>
    ensures { result ≡ least (λ driver. driver) (map (λ actuator. actuator.driver) plant.now) }
{
    let mut first = None;
    for actuator in plant {
        first = Some(earlier(first, actuator.driver));
    }
    first
}

/// The first driver so far, or a further one where it comes before.
fn earlier(first: Option<DriverId>, driver: DriverId) -> DriverId
    ensures { result ≡ option_map_or (λ before. min before driver) first driver }
{
    match first {
        Some(before) => before.min(driver),
        None => driver,
    }
}

/// What the machine knows of a catalogue's points.
fn plant_of(alloc: Global, catalogue: &Catalogue) -> Result<Vec<Actuator>, NoMemory>
    ensures points { IfOk result (λ plant. plant.items ≡ actuators catalogue.now) }
    ensures few { IfOk result (λ plant. length plant.items ≤ most_points) }
{
    let mut plant = Vec::new(alloc);
    for place in 0..catalogue.count() {
        plant.push(actuator_of(catalogue.point(PointId(place))))?;
    }
    Ok(plant)
}

fn actuator_of(point: &Point) -> Actuator
    ensures { result ≡ (seen_point point.now).actuator }
{
    Actuator {
        kind: point.kind,
        default: point.default,
        driver: point.driver,
    }
}

/// What comes of it where there is no memory.
#[inline(always)]
fn no_memory() -> Outcome
    ensures { result ≡ outcome.NoMemory }
{
    Outcome::NoMemory
}

/// What comes of it where a session came to hold a process.
#[inline(always)]
fn attached(name: Name, next: u64) -> Outcome
    ensures { result ≡ outcome.Done (answer.Attached name next) }
{
    Outcome::Done {
        answer: Answer::Attached { name, next },
    }
}

/// What comes of a submit that was accepted.
#[inline(always)]
fn accepted(txn: Txn, until: u64) -> Outcome
    ensures { result ≡ outcome.Done (answer.Accepted txn until) }
{
    Outcome::Done {
        answer: Answer::Accepted { txn, until },
    }
}

/// What comes of a renewal that was accepted.
#[inline(always)]
fn renewed(txn: Txn, until: u64) -> Outcome
    ensures { result ≡ outcome.Done (answer.Renewed txn until) }
{
    Outcome::Done {
        answer: Answer::Renewed { txn, until },
    }
}

/// What comes of a cancel that was accepted.
#[inline(always)]
fn cancelled(txn: Txn, at: u64) -> Outcome
    ensures { result ≡ outcome.Done (answer.Cancelled txn at) }
{
    Outcome::Done {
        answer: Answer::Cancelled { txn, at },
    }
}

/// What comes of it where a process was lost.
#[inline(always)]
fn gone(ended: u64) -> Outcome
    ensures { result ≡ outcome.Done (answer.Gone ended) }
{
    Outcome::Done {
        answer: Answer::Gone { ended },
    }
}

/// What comes of it where a point was read.
#[inline(always)]
fn read(reading: Reading) -> Outcome
    ensures { result ≡ outcome.Done (answer.Reading reading.point reading.value reading.basis reading.mark reading.differed reading.took) }
{
    Outcome::Done {
        answer: answer_of_reading(reading),
    }
}

/// What comes of it where time passed.
#[inline(always)]
fn ticked(now: u64) -> Outcome
    ensures { result ≡ outcome.Done (answer.Ticked now) }
{
    Outcome::Done {
        answer: Answer::Ticked { now },
    }
}

/// What comes of it where a driver has this want.
#[inline(always)]
fn wanted(want: Want) -> Outcome
    ensures { result ≡ outcome.Done (answer.Want want.point want.version want.value) }
{
    Outcome::Done {
        answer: answer_of_want(want),
    }
}

/// What comes of it where a driver has no want.
#[inline(always)]
fn nothing() -> Outcome
    ensures { result ≡ outcome.Done answer.Nothing }
{
    Outcome::Done {
        answer: Answer::Nothing,
    }
}

/// What comes of a report or a doubt that was heard.
#[inline(always)]
fn noted(current: bool) -> Outcome
    ensures { result ≡ outcome.Done (answer.Noted current) }
{
    Outcome::Done {
        answer: Answer::Noted { current },
    }
}

/// What comes of a refusal.
#[inline(always)]
fn refused(why: Refusal) -> Outcome
    ensures { result ≡ outcome.Done (answer.Refused why) }
{
    Outcome::Done {
        answer: Answer::Refused(why),
    }
}
