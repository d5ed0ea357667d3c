ghost use Rattle.std.specs.Prelude.{◌≡◌, ◌+◌, ◌^◌, ◌≤◌, ◌<◌, true, false, length, [], IfOk, OnOk, OnErr, string_bytes};
ghost use Rattle.base64.specs.Engines.{standard};
ghost use Rattle.base64.specs.GeneralPurpose.{encode_of};
ghost use Rattle.boss_etcd.specs.Asking.{Asked, AskedUpTo, AnswersOnce, Told};
ghost use Rattle.boss_etcd.specs.Commits.{Carried, Checked, Committed, Put, judged, times_of, transaction};
ghost use Rattle.boss_etcd.specs.Heads.{commit_of, next_length, value_of};
ghost use Rattle.boss_etcd.specs.Requests.{check_text, commit_text};

use crate::head::{Head, Place, changes_nothing, head_text, place_of};
use crate::members::Members;
use crate::request::{Commit, put_check, put_commit};
use crate::{Said, read_answer};
use base64::engine::general_purpose::STANDARD;
use boss_cluster::{Cluster, Lost};
use boss_model::{Items, NoMemory};
use boss_outside::{Failed, Link};
use json::Scratch;
use std::alloc::Global;
use std::str;

/// Where a transaction is posted to.
const TRANSACTION: &[u8] = b"/v3/kv/txn";

/// How often a commit is asked for, at most, until it is told what came of it.
const TIMES: usize = 8;

/// Bytes that etcd keeps, over any link: pages of a name, and a head that each commit compares and puts anew.
#[derive(Drop)]
pub struct EtcdCluster<L> {
    alloc: Global,
    members: Members<L>,
    name: Items<u8>,
    head: Head,
    /// A commit was not answered as done. Nothing is asked any more.
    is_over: bool,
}

impl<L: Link> EtcdCluster<L> {
    /// The cluster whose head was found so.
    pub fn new(alloc: Global, members: Members<L>, name: Items<u8>, head: Head) -> EtcdCluster<L>
        ensures members { result.members ≡ members }
        ensures name { result.name ≡ name }
        ensures head { result.head ≡ head }
        ensures over { result.is_over ≡ false }
    {
        EtcdCluster {
            alloc,
            members,
            name,
            head,
            is_over: false,
        }
    }

    /// The members.
    pub fn members(&self) -> &Members<L>
        ensures { result.now ≡ self.now.members }
    {
        &self.members
    }

    /// The head, as it was found or left.
    pub fn head(&self) -> &Head
        ensures { result.now ≡ self.now.head }
    {
        &self.head
    }

    /// Carries out what a commit wants.
    fn carry_out(&mut self, at: u64, bytes: &[u8], last: bool) -> Result<(), Lost>
        requires { length bytes.now ≤ 65536 }
        ensures carried { L.tells → Carried L.Link at bytes.now last self.old self.new result }
        ensures kept { self.new ≡ record self.old { members = self.new.members; head = self.new.head } }
        ensures hosts { self.new.members.hosts ≡ self.old.members.hosts }
    {
        if changes_nothing(&self.head, at, bytes, last) {
            self.check()
        } else {
            self.put(at, bytes, last)
        }
    }

    /// Asks whether the head is as it was left.
    #[tactic(auto, using(crate::proofs::Commits::checked, crate::proofs::Commits::asked_none))]
    fn check(&mut self) -> Result<(), Lost>
        ensures checked { L.tells → Checked L.Link self.old self.new result }
        ensures kept { self.new ≡ record self.old { members = self.new.members; head = self.new.head } }
        ensures hosts { self.new.members.hosts ≡ self.old.members.hosts }
    {
        let Ok(body) = self.check_body() else {
            return Err(Lost::Unanswered);
        };
        let said = self.transact(body.as_bytes(), TIMES);
        judge(said, 0, &[])?;
        Ok(())
    }

    /// Puts pages and the head.
    #[tactic(auto, using(crate::proofs::Commits::put, crate::proofs::Commits::asked_none))]
    fn put(&mut self, at: u64, bytes: &[u8], last: bool) -> Result<(), Lost>
        requires { length bytes.now ≤ 65536 }
        ensures put { L.tells → Put L.Link at bytes.now last self.old self.new result }
        ensures kept { self.new ≡ record self.old { members = self.new.members; head = self.new.head } }
        ensures hosts { self.new.members.hosts ≡ self.old.members.hosts }
    {
        let Ok(change) = self.change(at, bytes, last) else {
            return Err(Lost::Unanswered);
        };
        let said = self.transact(change.body.as_bytes(), times_of(self.head.number));
        let revision = judge(said, self.head.number, change.value.as_bytes())?;
        self.head.revision = revision;
        self.head.number = change.number;
        self.head.length = change.length;
        Ok(())
    }

    /// What a commit changes, and its body.
    fn change(&self, at: u64, bytes: &[u8], last: bool) -> Result<Change, NoMemory>
        requires { length bytes.now ≤ 65536 }
        ensures body { IfOk result (λ change. string_bytes change.body ≡ commit_of self.now.name self.now.head at bytes.now last) }
        ensures value { IfOk result (λ change. string_bytes change.value ≡ encode_of standard (value_of self.now.head at bytes.now last)) }
        ensures number { IfOk result (λ change. change.number ≡ self.now.head.number + 1) }
        ensures length { IfOk result (λ change. change.length ≡ next_length self.now.head.length (at + length bytes.now) last) }
    {
        let Some(place) = place_of(self.head.length, at, bytes.len(), last) else {
            return Err(NoMemory);
        };
        let Some(number) = self.head.number.checked_add(1) else {
            return Err(NoMemory);
        };
        let value = head_text(self.alloc, self.head.owner.slice(), number, place.length)?;
        let body = self.body(&place, value.as_slice(), bytes)?;
        Ok(Change {
            body,
            value: STANDARD.encode(self.alloc, value.as_slice())?,
            number,
            length: place.length,
        })
    }

    /// The body of a commit.
    fn body(&self, place: &Place, value: &[u8], bytes: &[u8]) -> Result<String, NoMemory>
        requires { place.now.first + length bytes.now < 2 ^ 32 }
        ensures { IfOk result (λ text. string_bytes text
            ≡ commit_text self.now.name self.now.head.revision value.now place.now.first bytes.now place.now.dropped) }
    {
        let Ok(revision) = str::from_utf8(self.head.revision.slice()) else {
            return Err(NoMemory);
        };
        let mut text = String::new(self.alloc);
        let commit = Commit {
            name: self.name.slice(),
            revision,
            value,
            first: place.first,
            bytes,
            dropped: place.dropped,
        };
        put_commit(self.alloc, &mut text, &commit)?;
        Ok(text)
    }

    /// The body of a check.
    fn check_body(&self) -> Result<String, NoMemory>
        ensures { IfOk result (λ text. string_bytes text ≡ check_text self.now.name self.now.head.revision) }
    {
        let Ok(revision) = str::from_utf8(self.head.revision.slice()) else {
            return Err(NoMemory);
        };
        let mut text = String::new(self.alloc);
        put_check(self.alloc, &mut text, self.name.slice(), revision)?;
        Ok(text)
    }

    /// Asks for a transaction, at most so many times, until an answer tells what came of it.
    #[tactic(auto, using(crate::proofs::Commits::asked_again, crate::proofs::Commits::asked_all, crate::proofs::Commits::asked_more, crate::proofs::Commits::told_then))]
    fn transact(&mut self, body: &[u8], times: usize) -> Said
        ensures asked { L.tells → AskedUpTo L.Link self.old.members.hosts transaction body.now times self.old.members.link self.new.members.link }
        ensures told { L.tells → Told L.Link self.old.members.hosts transaction body.now self.old.members.link self.new.members.link result }
        ensures kept { self.new ≡ record self.old { members = self.new.members } }
        ensures hosts { self.new.members.hosts ≡ self.old.members.hosts }
    {
        let mut asked = 0;
        while asked < times {
            match self.ask(body) {
                Said::Unclear => asked += 1,
                said => return said,
            }
        }
        Said::Unclear
    }

    /// Asks for a transaction once.
    #[tactic(auto, using(crate::proofs::Asks::asked_still, crate::proofs::Asks::answers))]
    fn ask(&mut self, body: &[u8]) -> Said
        ensures asked { L.tells → Asked L.Link self.old.members.hosts transaction body.now self.old.members.link self.new.members.link }
        ensures told { L.tells → AnswersOnce L.Link self.old.members.hosts transaction body.now self.old.members.link self.new.members.link result }
        ensures kept { self.new ≡ record self.old { members = self.new.members } }
        ensures hosts { self.new.members.hosts ≡ self.old.members.hosts }
    {
        if !self.members.ask(TRANSACTION, body) {
            return Said::Unclear;
        }
        let mut scratch = Scratch::new(self.alloc);
        let said = read_answer(self.alloc, &mut scratch, self.members.content());
        match said {
            Ok(Said::Unclear) | Err(NoMemory) => {
                self.members.leave();
                Said::Unclear
            }
            Ok(said) => said,
        }
    }
}

/// The body of a commit, the value of its head in base64, and how many bytes there are then.
#[derive(Debug, Drop)]
struct Change {
    body: String,
    value: String,
    number: u64,
    length: u64,
}

/// How often a commit is asked for, by how many its owner made.
fn times_of(number: u64) -> usize
    ensures { result ≡ times_of number }
{
    if number == 0 { 1 } else { TIMES }
}

/// What is made of an answer to a commit whose head has this value in base64, by how many its owner made before.
fn judge(said: Said, number: u64, value: &[u8]) -> Result<Items<u8>, Lost>
    ensures { result ≡ judged said number value.now }
{
    match said {
        Said::Done { revision } => Ok(revision),
        Said::Refused {
            value: found,
            revision,
        } => {
            if number > 0 && found.slice() == value {
                Ok(revision)
            } else {
                Err(Lost::Fenced)
            }
        }
        Said::Unclear => Err(Lost::Unanswered),
    }
}

impl<L: Link> Cluster for EtcdCluster<L> {
    /// What a cluster of machines holds no form in memory can tell.
    ghost tells = { ⊥ };

    ghost contents = { λ cluster. [] };

    ghost found = { λ cluster. [] };

    ghost calls = { λ cluster. [] };

    fn commit(&mut self, at: u64, bytes: &[u8], last: bool) -> Result<(), Lost>
        requires within { length bytes.now ≤ 65536 }
        ensures committed { L.tells → Committed L.Link at bytes.now last self.old self.new result }
        ensures on { OnOk result (self.new.is_over ≡ false) }
        ensures over { OnErr result (self.new.is_over ≡ true) }
        ensures name { self.new.name ≡ self.old.name }
        ensures hosts { self.new.members.hosts ≡ self.old.members.hosts }
    {
        if self.is_over {
            return Err(Lost::Unanswered);
        }
        let outcome = self.carry_out(at, bytes, last);
        self.is_over = outcome.is_err();
        outcome
    }

    fn commit_whole(
        &mut self,
        at: u64,
        bytes: &[u8],
        last: bool,
        _place: u64,
        _added: &[u8],
    ) -> Result<(), Lost>
        requires within { length bytes.now ≤ 65536 }
        ensures committed { L.tells → Committed L.Link at bytes.now last self.old self.new result }
        ensures on { OnOk result (self.new.is_over ≡ false) }
        ensures over { OnErr result (self.new.is_over ≡ true) }
        ensures name { self.new.name ≡ self.old.name }
        ensures hosts { self.new.members.hosts ≡ self.old.members.hosts }
    {
        self.commit(at, bytes, last)
    }

    fn note_write(&mut self, _at: u64, _bytes: &[u8]) -> Result<(), Failed> {
        Ok(())
    }

    fn note_cut(&mut self, _size: u64) -> Result<(), Failed> {
        Ok(())
    }

    fn note_sync(&mut self) -> Result<(), Failed> {
        Ok(())
    }
}
