ghost use Rattle.std.specs.Prelude.{◌≡◌, ℕ, true, false, List, ◌≤◌, length, map, is_some, IfOk, IfSome, OnOk, OnErr};
ghost use Rattle.boss_model.specs.declared.command.Command.{Command};
ghost use Rattle.boss_model.specs.declared.state.Actuator.{Actuator};
ghost use Rattle.boss_model.specs.Effects.{concerned};
ghost use Rattle.boss_model.specs.Limits.{last_moment, most_points};
ghost use Rattle.boss_model.specs.Machine.{act, pass_time};
ghost use Rattle.boss_model.specs.Sound.{IsAllowed, IsSound};
ghost use Rattle.boss_model.specs.Settle.{first_state};
ghost use Rattle.boss_model.specs.State.{State};
ghost use Rattle.law_effects.specs.Changes.{changes};
ghost use Rattle.boss_engine.specs.declared.ready.Ready.{Ready};
ghost use Rattle.boss_engine.specs.Deeds.{is_answered_apart, IsBegun, IsDone, IsStep, takes_memory};
ghost use Rattle.boss_engine.specs.Replies.{IsTellable, is_told_apart, told};
ghost use Rattle.boss_engine.specs.Inside.{CanRun, HasPlaces, IsRunnable, seen_state, state_of};
ghost use Rattle.boss_persistent.specs.Lasting.{persistent_of};
ghost use Rattle.boss_booking.specs.Passed.{IsPassed};
ghost use Rattle.boss_engine.specs.Ready.{HasRoomFor, IsReadyFor, MayNeedMemory};
ghost use Rattle.boss_persistent.specs.Showing.{ShowsAsBefore};

use crate::done::{Deed, Done};
use crate::effects::effect_of;
use crate::ready::Ready;
use crate::reply::Reply;
use crate::settling::settle;
use boss_booking::Telling;
use boss_marks::Marks;
use boss_model::{Actuator, Command, DriverId, Effect, Items, MOST_PROCESSES, NoMemory, SessionId};
use boss_persistent::{Attachment, Lasting};
use std::alloc::Global;

/// The most that one step tells of a point's slots: of each that a lease ended, and that its reversion did.
pub const TOLD_OF_A_POINT: usize = 32;

/// What the machine keeps.
#[derive(Drop)]
pub struct Machine {
    pub alloc: Global,
    pub lasting: Lasting,
    pub attached: Vec<Attachment>,
    pub marks: Marks,
    /// Room for what is told in one step.
    pub told: Vec<Telling>,
}

impl Machine {
    /// The first state of a plant, with room for what its commands do.
    pub fn first(alloc: Global, plant: &[Actuator]) -> Result<Machine, NoMemory>
        requires { length plant.now ≤ most_points }
        ensures state { IfOk result (λ machine. state_of machine ≡ first_state plant.now) }
        ensures ready { IfOk result (HasPlaces plant.now) }
    {
        Ok(Machine {
            alloc,
            lasting: Lasting::first(alloc, plant.len() as u32)?,
            attached: Vec::with_capacity(alloc, MOST_PROCESSES)?,
            marks: Marks::new(alloc, &devices_of(alloc, plant)?)?,
            told: Vec::with_capacity(alloc, plant.len() * TOLD_OF_A_POINT + 1)?,
        })
    }

    /// Opens the points unless they are open, lets time pass up to a moment, failed devices be tried again, the points settle, a command act that may need memory, and the
    /// points settle again.
    #[inline(always)]
    pub fn step_ready(
        &mut self,
        plant: &[Actuator],
        is_open: bool,
        session: SessionId,
        command: &Command,
        moment: u64,
    ) -> Result<(Reply, Effect), NoMemory>
        requires moment { moment ≤ last_moment }
        requires allowed { IsAllowed plant.now command.now }
        requires ready { IsRunnable plant.now self.old is_open }
        requires takes { takes_memory command.now ≡ true }
        ensures did { IfOk result (λ did. IsStep plant.now session command.now moment (seen_state plant.now self.old is_open) (state_of self.new) did.0 did.1) }
        ensures ready { CanRun plant.now self.new }
        ensures err { OnErr result (state_of self.new ≡ seen_state plant.now self.old is_open) }
        ensures memory { OnErr result (MayNeedMemory plant.now session command.now (seen_state plant.now self.old is_open)) }
    {
        self.open_unless(is_open, plant);
        let before = self.lasting.holdings.now();
        let n = before.max(moment);
        let deed = self.carry_out_ready(plant, session, command, n)?;
        Ok(self.finish(plant, deed, before, n))
    }

    /// The same of a command that needs none.
    #[inline(always)]
    pub fn step_plain(
        &mut self,
        plant: &[Actuator],
        is_open: bool,
        session: SessionId,
        command: &Command,
        moment: u64,
    ) -> (Reply, Effect)
        requires moment { moment ≤ last_moment }
        requires allowed { IsAllowed plant.now command.now }
        requires ready { IsRunnable plant.now self.old is_open }
        requires takes { takes_memory command.now ≡ false }
        ensures did { IsStep plant.now session command.now moment (seen_state plant.now self.old is_open) (state_of self.new) result.0 result.1 }
        ensures ready { CanRun plant.now self.new }
    {
        self.open_unless(is_open, plant);
        let before = self.lasting.holdings.now();
        let n = before.max(moment);
        let deed = self.carry_out_plain(plant, session, command, n);
        self.finish(plant, deed, before, n)
    }

    /// The points settle once a command was carried out.
    #[inline(always)]
    fn finish(&mut self, plant: &[Actuator], deed: Deed, before: u64, n: u64) -> (Reply, Effect)
        requires { (session : ℕ) × (command : Command) × (moment : ℕ) × (s : State) × IsBegun plant.now command moment before n s × IsDone plant.now session command n s self.old deed }
        ensures did { (session : ℕ) (command : Command) (moment : ℕ) (s : State) → IsBegun plant.now command moment before n s → IsDone plant.now session command n s self.old deed →
            IsStep plant.now session command moment s (state_of self.new) result.0 result.1 }
        ensures ready { CanRun plant.now self.new }
    {
        settle(plant, &mut self.lasting, &mut self.marks);
        let Done { reply, concerned } = deed.done;
        let effect = effect_of(concerned, n, before, deed.passed);
        (reply, effect)
    }

    /// Takes the memory that a command needs, lets time pass up to `n`, and lets the command act.
    #[inline(always)]
    fn carry_out_ready(
        &mut self,
        plant: &[Actuator],
        session: SessionId,
        command: &Command,
        n: u64,
    ) -> Result<Deed, NoMemory>
        requires moment { (self.old.lasting.holdings.now ≤ n) × (n ≤ last_moment) }
        requires allowed { IsAllowed plant.now command.now }
        requires ready { CanRun plant.now self.old }
        requires takes { takes_memory command.now ≡ true }
        ensures deed { IfOk result (λ deed. IsDone plant.now session command.now n (state_of self.old) self.new deed) }
        ensures places { HasPlaces plant.now self.new }
        ensures err { OnErr result (state_of self.new ≡ state_of self.old) }
        ensures memory { OnErr result (MayNeedMemory plant.now session command.now (state_of self.old)) }
    {
        let ready = self.make_ready(plant, session, command, n)?;
        self.pass_time(plant, n);
        let passed = self.lasting.holdings.now();
        Ok(Deed {
            done: self.act_ready(plant, session, command, n, ready),
            passed,
        })
    }

    /// The same of a command that needs none.
    #[inline(always)]
    fn carry_out_plain(
        &mut self,
        plant: &[Actuator],
        session: SessionId,
        command: &Command,
        n: u64,
    ) -> Deed
        requires moment { (self.old.lasting.holdings.now ≤ n) × (n ≤ last_moment) }
        requires allowed { IsAllowed plant.now command.now }
        requires ready { CanRun plant.now self.old }
        requires takes { takes_memory command.now ≡ false }
        ensures { IsDone plant.now session command.now n (state_of self.old) self.new result }
    {
        self.pass_time(plant, n);
        let passed = self.lasting.holdings.now();
        Deed {
            done: self.act(plant, session, command, n),
            passed,
        }
    }

    /// Lets time pass up to `n`, failed devices be tried again, and the points settle.
    #[inline(always)]
    fn pass_time(&mut self, plant: &[Actuator], n: u64)
        requires moment { (self.old.lasting.holdings.now ≤ n) × (n ≤ last_moment) }
        requires ready { CanRun plant.now self.old }
        ensures state { state_of self.new ≡ pass_time plant.now n (state_of self.old) }
        ensures places { HasPlaces plant.now self.new }
        ensures room { (ready : Ready) → HasRoomFor ready self.old → HasRoomFor ready self.new }
    {
        self.lasting.tick(n, &mut self.told);
        self.marks.retry_due(n);
        settle(plant, &mut self.lasting, &mut self.marks);
    }

    /// Lets a command act at moment `n` for which this was made ready.
    #[inline(always)]
    fn act_ready(
        &mut self,
        plant: &[Actuator],
        session: SessionId,
        command: &Command,
        n: u64,
        ready: Ready,
    ) -> Done
        requires moment { (self.old.lasting.holdings.now ≤ n) × (n ≤ last_moment) }
        requires takes { takes_memory command.now ≡ true }
        requires allowed { IsAllowed plant.now command.now }
        requires can_run { CanRun plant.now self.old }
        requires ready { IsReadyFor plant.now session command.now n ready (state_of self.old) }
        requires room { HasRoomFor ready self.old }
        ensures answer { told (persistent_of self.new.lasting) result.reply ≡ (act plant.now session n command.now (state_of self.old)).answer }
        ensures tellable { IsTellable plant.now (persistent_of self.new.lasting) result.reply }
        ensures apart { is_answered_apart command.now ≡ false → is_told_apart result.reply ≡ false }
        ensures changed { is_some result.concerned ≡ changes plant.now session n command.now (state_of self.old) }
        ensures owner { IfSome result.concerned (λ owner. owner ≡ concerned command.now session (state_of self.old)) }
        ensures state { state_of self.new ≡ (act plant.now session n command.now (state_of self.old)).state }
        ensures places { HasPlaces plant.now self.new }
        ensures untouched { ShowsAsBefore self.old.lasting.holdings self.new.lasting.holdings }
    {
        match command {
            Command::Attach { name } => self.attach(session, name, n, ready),
            Command::Submit { seq, .. } => self.submit(*seq, n, ready),
            Command::Notices { name, from, max } => Done {
                reply: self.notices(session, name, *from, *max, ready),
                concerned: None,
            },
            Command::Renew { .. }
            | Command::Cancel { .. }
            | Command::Gone
            | Command::Tick
            | Command::Next { .. }
            | Command::Report { .. }
            | Command::Doubt { .. }
            | Command::Read { .. }
            | Command::Array { .. }
            | Command::Status { .. }
            | Command::Points { .. }
            | Command::Version => unreachable!(),
        }
    }

    /// Lets a command act at moment `n` that needs no memory.
    #[inline(always)]
    fn act(&mut self, plant: &[Actuator], session: SessionId, command: &Command, n: u64) -> Done
        requires passed { IsPassed n (persistent_of self.old.lasting) }
        requires moment { (self.old.lasting.holdings.now ≤ n) × (n ≤ last_moment) }
        requires allowed { IsAllowed plant.now command.now }
        requires can_run { CanRun plant.now self.old }
        requires takes { takes_memory command.now ≡ false }
        ensures answer { told (persistent_of self.new.lasting) result.reply ≡ (act plant.now session n command.now (state_of self.old)).answer }
        ensures tellable { IsTellable plant.now (persistent_of self.new.lasting) result.reply }
        ensures apart { is_answered_apart command.now ≡ false → is_told_apart result.reply ≡ false }
        ensures changed { is_some result.concerned ≡ changes plant.now session n command.now (state_of self.old) }
        ensures owner { IfSome result.concerned (λ owner. owner ≡ concerned command.now session (state_of self.old)) }
        ensures state { state_of self.new ≡ (act plant.now session n command.now (state_of self.old)).state }
        ensures places { HasPlaces plant.now self.new }
        ensures untouched { ShowsAsBefore self.old.lasting.holdings self.new.lasting.holdings }
    {
        match command {
            Command::Renew {
                txn,
                length,
                points,
                seq,
            } => self.renew(session, *txn, *length, points.slice(), *seq, n),
            Command::Cancel { txn, seq } => self.cancel(session, *txn, *seq, n),
            Command::Gone => self.gone(session, n),
            Command::Tick => Done {
                reply: Reply::Ticked {
                    now: self.lasting.holdings.now(),
                },
                concerned: None,
            },
            Command::Next { driver } => Done {
                reply: self.next(*driver),
                concerned: None,
            },
            Command::Report { point, version, ok } => self.report(*point, *version, *ok, n),
            Command::Doubt { point, differs } => Done {
                reply: self.doubt(*point, *differs),
                concerned: None,
            },
            Command::Read { point } => Done {
                reply: self.read(plant, *point),
                concerned: None,
            },
            Command::Array { point } => Done {
                reply: Reply::Array { point: *point },
                concerned: None,
            },
            Command::Status { txn } => Done {
                reply: Reply::Status { txn: *txn },
                concerned: None,
            },
            Command::Points { from, max } => Done {
                reply: Reply::Points {
                    from: *from,
                    max: *max,
                },
                concerned: None,
            },
            Command::Version => Done {
                reply: Reply::Version,
                concerned: None,
            },
            Command::Attach { .. } | Command::Submit { .. } | Command::Notices { .. } =>
                unreachable!(),
        }
    }
}

/// The driver and the default of each point.
pub fn devices_of(alloc: Global, plant: &[Actuator]) -> Result<Items<(DriverId, i64)>, NoMemory>
    ensures { IfOk result (λ devices. devices ≡ map (λ actuator. (actuator.driver, actuator.default)) plant.now) }
{
    let devices = plant
        .iter()
        .map(|actuator| (actuator.driver, actuator.default))
        .collect(alloc)?;
    Ok(Items::from_vec(devices))
}
