ghost use Rattle.std.specs.Prelude.{◌≡◌, ◌≤◌, ◌<◌, ◌+◌, ◌^◌, List, [], length, unsigned_abs, None, vec_capacity, IfOk, OnOk, OnErr};
ghost use Rattle.std.specs.List.{AllByRecursion};
ghost use Rattle.boss_model.specs.declared.state.Actuator.{Actuator};
ghost use Rattle.boss_model.specs.Limits.{last_moment, most_told, most_writes};
ghost use Rattle.boss_model.specs.Processes.{attach_refused, process_named, process_of};
ghost use Rattle.boss_model.specs.Sound.{IsAllowed};
ghost use Rattle.boss_model.specs.Submit.{begun, granted, lease_of};
ghost use Rattle.boss_engine.specs.Inside.{CanRun, HasPlaces, state_of};
ghost use Rattle.boss_persistent.specs.Lasting.{persistent_of};
ghost use Rattle.boss_engine.specs.Again.{IsReadyToBegin};
ghost use Rattle.boss_engine.specs.Ready.{CanTakeOn, HasRoomFor, IsReadyFor, IsReadyToAttach, IsReadyToList, IsReadyToSubmit, MayList, MaySubmit, MayTakeOn, MayNeedMemory};
ghost use Rattle.boss_engine.specs.Writing.{IsWritable};

use crate::machine::Machine;
use crate::ready::Ready;
use boss_model::{
    Actuator, Command, Items, Lease, Name, NoMemory, PointId, Policy, Priority, ProcId, Refusal,
    SessionId, Setting, Step, Txn,
};
use boss_notices::Ring;
use boss_persistent::{attach_refused, process_of, submit_refused};
use boss_stages::Transaction;
use std::alloc::Global;

/// The memory that a command needs is taken before time passes.
impl Machine {
    /// Takes the memory that a command will need, if it is neither refused nor decided by a reply that is kept. It changes
    /// nothing else.
    #[inline(always)]
    pub fn make_ready(
        &mut self,
        plant: &[Actuator],
        session: SessionId,
        command: &Command,
        n: u64,
    ) -> Result<Ready, NoMemory>
        requires allowed { IsAllowed plant.now command.now }
        requires ready { CanRun plant.now self.old }
        requires moment { n ≤ last_moment }
        ensures state { state_of self.new ≡ state_of self.old }
        ensures places { HasPlaces plant.now self.new }
        ensures ready { IfOk result (λ ready. IsReadyFor plant.now session command.now n ready (state_of self.old)) }
        ensures room { IfOk result (λ ready. HasRoomFor ready self.new) }
        ensures memory { OnErr result (MayNeedMemory plant.now session command.now (state_of self.old)) }
    {
        match command {
            Command::Attach { name } => self.ready_process(session, name),
            Command::Submit {
                writes,
                policy,
                seq,
            } => self.ready_submit(plant, session, writes.slice(), *policy, *seq, n),
            Command::Notices { name, max, .. } => self.ready_list(session, name, *max),
            Command::Renew { .. }
            | Command::Cancel { .. }
            | Command::Gone
            | Command::Tick
            | Command::Next { .. }
            | Command::Report { .. }
            | Command::Doubt { .. }
            | Command::Read { .. }
            | Command::Array { .. }
            | Command::Status { .. }
            | Command::Points { .. }
            | Command::Version => Ok(Ready::Nothing),
        }
    }

    /// Makes the ring of a new process.
    #[inline(always)]
    fn ready_process(&self, session: SessionId, name: &Name) -> Result<Ready, NoMemory>
        requires { AllByRecursion (λ attachment. attachment.process < length self.now.lasting.processes) self.now.attached.items }
        ensures ready { IfOk result (λ ready. IsReadyToAttach session name.now ready (state_of self.now)) }
        ensures room { IfOk result (λ ready. HasRoomFor ready self.now) }
        ensures memory { OnErr result ((attach_refused session name.now self.now.attached.items (persistent_of self.now.lasting) ≡ None) × MayTakeOn (process_named self.now.lasting.processes name.now)) }
    {
        if let Some(why) = attach_refused(&self.lasting, &self.attached, session, name) {
            return Ok(Ready::Refused(why));
        }
        self.ready_entrant(name)
    }

    /// Makes the ring of a process of this name, unless there is one.
    pub fn ready_entrant(&self, name: &Name) -> Result<Ready, NoMemory>
        ensures ready { IfOk result (λ ready. CanTakeOn name.now ready (persistent_of self.now.lasting)) }
        ensures room { IfOk result (λ ready. HasRoomFor ready self.now) }
        ensures memory { OnErr result (MayTakeOn (process_named self.now.lasting.processes name.now)) }
    {
        if self.lasting.processes.named(name).is_some() {
            return Ok(Ready::Nothing);
        }
        Ok(Ready::Process(Ring::new(self.alloc)?))
    }

    /// Makes the record and the leases of a new transaction, and room for them.
    #[inline(always)]
    fn ready_submit(
        &mut self,
        plant: &[Actuator],
        session: SessionId,
        writes: &[Setting],
        policy: Policy,
        seq: u64,
        n: u64,
    ) -> Result<Ready, NoMemory>
        requires writes { length writes.now ≤ most_writes }
        requires ready { CanRun plant.now self.old }
        requires moment { n ≤ last_moment }
        ensures state { state_of self.new ≡ state_of self.old }
        ensures places { HasPlaces plant.now self.new }
        ensures ready { IfOk result (λ ready. IsReadyToSubmit plant.now (process_of self.old.attached.items session) writes.now policy seq n ready (state_of self.old)) }
        ensures room { IfOk result (λ ready. HasRoomFor ready self.new) }
        ensures memory { OnErr result (MaySubmit plant.now writes.now seq (process_of self.old.attached.items session) (state_of self.old)) }
    {
        let Some(owner) = process_of(&self.attached, session) else {
            return Ok(Ready::Refused(Refusal::NotAttached));
        };
        if let Some(decision) = self.lasting.processes.decision(owner, seq) {
            return Ok(Ready::Decided(decision));
        }
        if let Some(why) = submit_refused(plant, writes, &self.lasting) {
            return Ok(Ready::Refused(why));
        }
        self.ready_transaction(owner, policy, writes, n)
    }

    /// Makes the record and the leases of a transaction that is not refused, and room for them.
    pub fn ready_transaction(
        &mut self,
        owner: ProcId,
        policy: Policy,
        writes: &[Setting],
        n: u64,
    ) -> Result<Ready, NoMemory>
        requires writes { AllByRecursion IsWritable writes.now }
        requires moment { n ≤ last_moment }
        ensures state { state_of self.new ≡ state_of self.old }
        ensures places { (plant : List Actuator) → HasPlaces plant self.old → HasPlaces plant self.new }
        ensures others { (self.new.marks ≡ self.old.marks) × (self.new.attached ≡ self.old.attached) }
        ensures ready { IfOk result (λ ready. IsReadyToBegin owner policy writes.now n ready (persistent_of self.old.lasting)) }
        ensures room { IfOk result (λ ready. HasRoomFor ready self.new) }
    {
        self.lasting.stages.reserve()?;
        let txn = Txn(self.lasting.next_txn);
        let room = self.lasting.holdings.room_for(self.alloc, writes.len())?;
        Ok(Ready::Submit {
            transaction: begun(self.alloc, owner, policy, txn, writes)?,
            leases: granted(room, self.alloc, owner, policy, txn, n, writes)?,
        })
    }

    /// Makes room for a list of notices.
    #[inline(always)]
    fn ready_list(
        &self,
        session: SessionId,
        name: &Option<Name>,
        max: u64,
    ) -> Result<Ready, NoMemory>
        requires { max ≤ most_told }
        ensures ready { IfOk result (IsReadyToList name.now (process_of self.now.attached.items session) max) }
        ensures room { IfOk result (λ ready. HasRoomFor ready self.now) }
        ensures memory { OnErr result (MayList name.now (process_of self.now.attached.items session)) }
    {
        if name.is_none() && process_of(&self.attached, session).is_none() {
            return Ok(Ready::Refused(Refusal::NotAttached));
        }
        Ok(Ready::List(Vec::with_capacity(self.alloc, max as usize)?))
    }
}

/// The leases of these writes, at moment `n`, in a list that has room for them.
fn granted(
    mut leases: Vec<Lease>,
    alloc: Global,
    owner: ProcId,
    policy: Policy,
    txn: Txn,
    n: u64,
    writes: &[Setting],
) -> Result<Vec<Lease>, NoMemory>
    requires writes { AllByRecursion IsWritable writes.now }
    requires moment { n ≤ last_moment }
    requires empty { leases.items ≡ [] }
    requires room { length writes.now ≤ vec_capacity leases }
    ensures { IfOk result (λ leases. leases.items ≡ granted owner policy txn n writes.now) }
{
    for write in writes {
        leases.push_reserved(lease_of(alloc, owner, policy, txn, n, write)?);
    }
    Ok(leases)
}

/// The lease of a write, at moment `n`.
fn lease_of(
    alloc: Global,
    owner: ProcId,
    policy: Policy,
    txn: Txn,
    n: u64,
    write: &Setting,
) -> Result<Lease, NoMemory>
    requires write { IsWritable write.now }
    requires moment { n ≤ last_moment }
    ensures { IfOk result (λ lease. lease ≡ lease_of owner policy txn n write.now) }
{
    let revert = Vec::from_slice(alloc, write.revert.slice())?;
    Ok(Lease {
        txn,
        owner,
        point: write.point,
        priority: Priority(write.priority as u8),
        value: write.value,
        until: n + write.lease.unsigned_abs(),
        revert: Items::from_vec(revert),
        policy,
    })
}

/// The record of a transaction of these writes, whose leases are all live.
fn begun(
    alloc: Global,
    owner: ProcId,
    policy: Policy,
    txn: Txn,
    writes: &[Setting],
) -> Result<Transaction, NoMemory>
    requires { AllByRecursion IsWritable writes.now }
    ensures record { IfOk result (λ kept. kept.transaction ≡ begun owner policy txn writes.now) }
    ensures settled { IfOk result (λ kept. kept.reverting ≡ []) }
{
    Transaction::of_writes(alloc, txn, owner, policy, writes)
}
