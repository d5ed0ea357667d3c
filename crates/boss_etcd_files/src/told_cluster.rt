//! Bytes that etcd keeps, where it is said why they are not kept any more.

ghost use Rattle.std.specs.Prelude.{[]};

use crate::link::EtcdLink;
use crate::reason::advice_for;
use boss_adapters::say_aside;
use boss_cluster::{Cluster, Lost};
use boss_etcd::{EtcdCluster, Members};
use boss_outside::Failed;
use std::fmt::Display;
use std::io::Eprint;
use std::net::{Net, TcpListener, TcpStream};
use std::time::Clock;

/// Bytes that etcd keeps. The first commit that is not answered as done is said on the standard error, with the reason.
#[derive(Drop)]
pub struct ToldCluster {
    rt: HostRuntime,
    /// The word of the journal's file.
    word: String,
    cluster: EtcdCluster<EtcdLink>,
    is_said: bool,
}

impl ToldCluster {
    /// The cluster of a journal's file that has this word. `rt` is what lines are written by.
    pub fn new(rt: HostRuntime, word: String, cluster: EtcdCluster<EtcdLink>) -> ToldCluster {
        ToldCluster {
            rt,
            word,
            cluster,
            is_said: false,
        }
    }

    /// Says why nothing is kept any more, where that was not said yet.
    fn say(&mut self, lost: Lost) {
        if self.is_said {
            return;
        }
        self.is_said = true;
        let call = "written, so nothing is kept from here on";
        match lost {
            Lost::Fenced => say_of(
                &self.rt,
                self.word.as_str(),
                call,
                "another server has taken this journal over",
            ),
            Lost::Unanswered => say_unanswered(
                &self.rt,
                self.word.as_str(),
                call,
                self.cluster.members(),
            ),
        }
    }
}

/// Says what could not be done with a journal's file, since no member of etcd did it.
pub(crate) fn say_unanswered(
    rt: &HostRuntime,
    word: &str,
    call: &str,
    members: &Members<EtcdLink>,
) {
    match (advice_for(members.content()), members.link().reason()) {
        (Some(advice), _) => say_of(rt, word, call, advice),
        (None, Some(reason)) => say_of(
            rt,
            word,
            call,
            format_args!("no member of etcd did it ({reason})"),
        ),
        (None, None) => say_of(rt, word, call, "no member of etcd did it"),
    }
}

/// Says what could not be done with a journal's file, and why.
pub(crate) fn say_of<D: Display + Drop>(rt: &HostRuntime, word: &str, call: &str, reason: D) {
    say_aside(
        rt,
        format_args!("the journal {word} could not be {call}: {reason}"),
    );
}

impl Cluster for ToldCluster {
    ghost tells = { ⊥ };

    ghost contents = { λ cluster. [] };

    ghost found = { λ cluster. [] };

    ghost calls = { λ cluster. [] };

    fn commit(&mut self, at: u64, bytes: &[u8], last: bool) -> Result<(), Lost> {
        let outcome = self.cluster.commit(at, bytes, last);
        if let Err(lost) = outcome {
            self.say(lost);
        }
        outcome
    }

    fn commit_whole(
        &mut self,
        at: u64,
        bytes: &[u8],
        last: bool,
        place: u64,
        added: &[u8],
    ) -> Result<(), Lost> {
        let outcome = self.cluster.commit_whole(at, bytes, last, place, added);
        if let Err(lost) = outcome {
            self.say(lost);
        }
        outcome
    }

    fn note_write(&mut self, _at: u64, _bytes: &[u8]) -> Result<(), Failed> {
        Ok(())
    }

    fn note_cut(&mut self, _size: u64) -> Result<(), Failed> {
        Ok(())
    }

    fn note_sync(&mut self) -> Result<(), Failed> {
        Ok(())
    }
}
