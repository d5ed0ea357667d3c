ghost use Rattle.std.specs.Prelude.{◌≡◌, ◌<◌, ◌≤◌, ◌+◌, [], ◌∷◌, ◌++◌, length, slice_get, unwrap_or, vec_capacity, IfOk, OnOk, OnErr, Some, None};
ghost use Rattle.std.specs.Option.{option_map};
ghost use Rattle.boss_model.specs.Happenings.{post, tell};
ghost use Rattle.boss_model.specs.Limits.{most_processes};
ghost use Rattle.boss_model.specs.Processes.{name_of, next_notice, process_named};
ghost use Rattle.boss_model.specs.Queries.{first_kept, numbered_from, start};
ghost use Rattle.boss_notices.specs.Rings.{no_notices};
ghost use Rattle.boss_model.specs.Replies.{answer_of, keep_reply, reply_of};
ghost use Rattle.boss_model.specs.Seen.{seen_process};
ghost use Rattle.law_effects.specs.Changes.{may_be_told};
ghost use Rattle.boss_persistent.specs.Processes.{IsSomeProcess, process_at};
ghost use Rattle.boss_persistent.specs.Replying.{accepted, decided, decision_answer};

use crate::replies::{Decision, answer_of, decided_by};
use boss_booking::Happening;
use boss_model::{
    Acceptance, Answer, KeptProcess, KeptReply, LAST_NUMBER, MOST_PROCESSES, Name, NoMemory,
    Notice, ProcId, Txn, What,
};
use boss_notices::{Ring, Rings};
use std::alloc::Global;
use std::marker::Model;

/// The name of a control process, and what its last numbered request that was accepted was answered.
#[derive(Drop)]
pub struct Entry {
    pub name: Name,
    pub reply: Option<KeptReply>,
}

/// The control processes, by their places: their names, what they were answered last, and what they were told.
#[derive(Drop)]
pub struct Processes {
    entries: Vec<Entry>,
    rings: Rings,
}

impl Model for Processes {
    ghost use Rattle.std.specs.Prelude.{◌≡◌, List, ◌≤◌, length, vec_capacity};
    ghost use Rattle.boss_model.specs.Limits.{most_processes};
    ghost use Rattle.boss_model.specs.State.{Process};
    ghost use Rattle.boss_persistent.specs.Processes.{processes_of};

    ghost Value = { List Process };

    ghost view = { λ p. processes_of p.entries.items p.rings };

    ghost invariant = { λ p. (length p.entries.items ≡ length p.rings) × (length p.rings ≤ most_processes) × (most_processes ≤ vec_capacity p.entries) };
}

impl Processes {
    /// No process so far, with room for the names and the replies of all.
    pub fn new(alloc: Global) -> Result<Processes, NoMemory>
        ensures { IfOk result (λ processes. processes ≡ []) }
    {
        Ok(Processes {
            entries: Vec::with_capacity(alloc, MOST_PROCESSES)?,
            rings: Rings::new(alloc)?,
        })
    }

    /// How many there are.
    pub fn count(&self) -> usize
        ensures number { result ≡ length self.now }
        ensures few { result ≤ most_processes }
    {
        self.entries.len()
    }

    /// The process of this name.
    pub fn named(&self, name: &Name) -> Option<ProcId>
        ensures { result ≡ process_named self.now name.now }
    {
        for place in 0..self.entries.len() {
            if self.entries[place].name.bytes() == name.bytes() {
                return Some(ProcId(place as u16));
            }
        }
        None
    }

    /// The name of a process.
    pub fn name(&self, process: ProcId) -> Name
        requires { process < length self.now }
        ensures { result ≡ name_of self.now process }
    {
        self.entries[process.0 as usize].name.copied()
    }

    /// The number of a process's next notice.
    pub fn next_notice(&self, process: ProcId) -> u64
        requires { process < length self.now }
        ensures { result ≡ next_notice self.now process }
    {
        self.rings.count(process) + 1
    }

    /// Whether a process may be told more: its notices are numbered up to 2^62.
    pub fn may_be_told(&self, process: ProcId) -> bool
        requires { process < length self.now }
        ensures { result ≡ may_be_told self.now process }
    {
        self.rings.count(process) != LAST_NUMBER
    }

    /// Takes a process of this name on, which has been told nothing and answered nothing.
    pub fn enrol(&mut self, name: Name, ring: Ring)
        requires few { length self.old < most_processes }
        requires empty { ring ≡ no_notices }
        ensures { self.new ≡ self.old ++ (record { name = name; count = 0; kept = []; reply = None }) ∷ [] }
    {
        self.entries.push_reserved(Entry { name, reply: None });
        self.rings.add(ring);
    }

    /// What outlasts a stop of a process.
    pub fn keep(&self, alloc: Global, process: ProcId) -> Result<KeptProcess, NoMemory>
        requires { process < length self.now }
        ensures { IfOk result (λ kept. seen_process kept ≡ process_at self.now process) }
    {
        let (count, notices) = self.rings.keep(alloc, process)?;
        Ok(KeptProcess {
            name: self.name(process),
            count,
            notices,
            reply: self.reply(process),
        })
    }

    /// Takes a process on of which this outlasted a stop.
    pub fn put_back(&mut self, alloc: Global, kept: &KeptProcess) -> Result<(), NoMemory>
        requires few { length self.old < most_processes }
        requires sound { IsSomeProcess (seen_process kept.now) }
        ensures { OnOk result (self.new ≡ self.old ++ seen_process kept.now ∷ []) }
    {
        self.rings.put_back(alloc, kept.count, &kept.notices)?;
        self.entries.push_reserved(Entry {
            name: kept.name.copied(),
            reply: kept.reply,
        });
        Ok(())
    }

    /// The answer to a process's request of this number, 0 for none, if the reply that is kept decides it: what the same
    /// request was answered before, or that a greater number was accepted.
    pub fn decided(&self, process: ProcId, seq: u64) -> Option<Answer>
        ensures { result ≡ decided self.now process seq }
    {
        match self.decision(process, seq) {
            Some(decision) => Some(decision.answer()),
            None => None,
        }
    }

    /// The same, before it is an answer.
    pub fn decision(&self, process: ProcId, seq: u64) -> Option<Decision>
        ensures { option_map decision_answer result ≡ decided self.now process seq }
    {
        if seq == 0 {
            return None;
        }
        decided_by(seq, self.reply(process))
    }

    /// What is kept of a process.
    fn reply(&self, process: ProcId) -> Option<KeptReply>
        ensures { result ≡ reply_of self.now process }
    {
        let place = process.0 as usize;
        if place < self.entries.len() {
            self.entries[place].reply
        } else {
            None
        }
    }

    /// Keeps what a process's request of this number, 0 for none, was answered when it was accepted. That is the answer. It
    /// takes no memory.
    pub fn accept(&mut self, process: ProcId, seq: u64, acceptance: Acceptance) -> Answer
        ensures answer { result ≡ answer_of acceptance }
        ensures kept { self.new ≡ accepted process seq acceptance self.old }
    {
        let answer = answer_of(&acceptance);
        if seq == 0 {
            return answer;
        }
        self.keep_reply(process, KeptReply { seq, acceptance });
        answer
    }

    /// This is kept of a process from now on.
    fn keep_reply(&mut self, process: ProcId, reply: KeptReply)
        ensures { self.new ≡ keep_reply process reply.seq (Some reply.acceptance) self.old }
    {
        let place = process.0 as usize;
        if place < self.entries.len() {
            self.entries[place].reply = Some(reply);
        }
    }

    /// Tells the owner of a transaction what happened to it.
    pub fn tell(&mut self, happening: &Happening)
        requires { happening.now.owner < length self.old }
        ensures { self.new ≡ tell self.old happening.now }
    {
        self.rings.post(happening.owner, happening.at, happening.txn, happening.what);
    }

    /// The name of a process that was told something since it was given out so. Each is given out once, until it is told more. None
    /// where there is none. A contract sees nothing of it.
    pub fn next_noticed(&mut self) -> Option<Name>
        ensures { self.new ≡ self.old }
    {
        let process = self.rings.next_noticed()?;
        Some(self.name(process))
    }

    /// The notices of a process from a number on, at most `max` of them, are left in `into`. The answer is the least number
    /// that is kept, or the next one where none is, and the number to ask for next.
    pub fn notices(
        &self,
        process: ProcId,
        from: u64,
        max: u64,
        into: &mut Vec<Notice>,
    ) -> (u64, u64)
        requires process { process < length self.now }
        requires room { max ≤ vec_capacity into.old }
        ensures first { result.0 ≡ first_kept (process_at self.now process) }
        ensures next { result.1 ≡ start (process_at self.now process) from + length into.new.items }
        ensures list { into.new.items ≡ numbered_from (start (process_at self.now process) from) max (process_at self.now process).kept }
    {
        self.rings.from(process, from, max, into)
    }
}
