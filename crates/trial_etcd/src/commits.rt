use crate::parts::{TAKEN, bytes_of, members_over, only, response};
use boss_cluster::{Cluster, Lost};
use boss_etcd::{EtcdCluster, Head};
use boss_model::Items;
use boss_outside::ListLink;
use std::alloc::Global;
use std::process::Abort;
use std::test::Fail;

/// The request of the commit that is asked for here, by one that made none before.
const ASKED: &str =
    "POST /v3/kv/txn HTTP/1.1\r\nHost: 127.0.0.1:2379\r\nContent-Length: 283\r\n\r\n{\"compare\":[{\"target\":\"MOD\",\"key\":\"cGxhbnQvYS9oZWFk\",\"mod_revision\":\"0\"}],\"success\":[{\"request_put\":{\"key\":\"cGxhbnQvYS9oZWFk\",\"value\":\"Ym9zc2QxIDAgMSA1\"}},{\"request_put\":{\"key\":\"cGxhbnQvYS9wLzAwMDAwMDAw\",\"value\":\"aGVsbG8=\"}}],\"failure\":[{\"request_range\":{\"key\":\"cGxhbnQvYS9oZWFk\"}}]}";

/// What a member answers to a commit that it refuses, before the head's value, and behind it.
const REFUSED: (&str, &str) = (
    "{\"header\":{\"revision\":\"7\"},\"responses\":[{\"response_range\":{\"header\":{\"revision\":\"7\"},\"kvs\":[{\"key\":\"cGxhbnQvYS9oZWFk\",\"create_revision\":\"2\",\"mod_revision\":\"6\",\"version\":\"2\",\"value\":\"",
    "\"}],\"count\":\"1\"}}]}",
);

/// A cluster whose owner found a head of revision 0 and made so many commits, and whose members give this answer, once.
fn cluster_of(
    rt: &impl Abort,
    alloc: Global,
    number: u64,
    answer: Items<u8>,
) -> EtcdCluster<ListLink> {
    let head = Head {
        revision: bytes_of(rt, alloc, "0"),
        owner: bytes_of(rt, alloc, "0"),
        number,
        length: 0,
    };
    let members = members_over(rt, alloc, only(rt, alloc, answer), 100);
    EtcdCluster::new(alloc, members, bytes_of(rt, alloc, "plant/a"), head)
}

/// What comes of a commit by one that made so many before, and how often it was asked for.
fn outcome(
    rt: &impl Abort,
    alloc: Global,
    number: u64,
    answer: Items<u8>,
) -> (Result<(), Lost>, usize) {
    let mut cluster = cluster_of(rt, alloc, number, answer);
    let outcome = cluster.commit(0, b"hello", true);
    let asked = cluster.members().link().hosts().len();
    (outcome, asked)
}

#[test]
fn a_commit_is_asked_for_and_done(rt: HostRuntime) -> Result<(), Fail> {
    let alloc = rt.alloc();
    let mut cluster = cluster_of(&rt, alloc, 0, bytes_of(&rt, alloc, TAKEN));
    assert_eq!(&rt; cluster.commit(0, b"hello", true), Ok(()));
    assert_eq!(&rt; cluster.members().link().sent(), ASKED.as_bytes());
    assert_eq!(&rt; cluster.head().revision.slice(), b"2".as_slice());
    Ok(())
}

#[test]
fn an_answer_that_was_cut_is_none(rt: HostRuntime) -> Result<(), Fail> {
    let alloc = rt.alloc();
    let whole = TAKEN.as_bytes();
    for size in 0..whole.len() {
        let cut = Items::from_vec(whole[..size].to_vec(alloc).expect(&rt, "memory"));
        assert_eq!(&rt; outcome(&rt, alloc, 0, cut), (Err(Lost::Unanswered), 1));
    }
    Ok(())
}

#[test]
fn an_answer_is_judged(rt: HostRuntime) -> Result<(), Fail> {
    let alloc = rt.alloc();
    // The commits made before, the head's value in base64, and what comes of it, with how often it was asked for. The value of the
    // second commit is `bossd1 0 2 5`.
    let refusals = [
        (1, "Ym9zc2QxIDAgMiA1", Ok(()), 1),
        (1, "Ym9zc2QxIDIgMSA1", Err(Lost::Fenced), 1),
        (0, "Ym9zc2QxIDAgMSA1", Err(Lost::Fenced), 1),
    ];
    for (number, value, wanted, asked) in refusals {
        let body = format!(in alloc; "{}{value}{}", REFUSED.0, REFUSED.1).expect(&rt, "memory");
        let answer = response(&rt, alloc, body.as_str());
        assert_eq!(&rt; outcome(&rt, alloc, number, answer), (wanted, asked));
    }
    // Bodies that say neither.
    let unclear = [
        "{}",
        "[]",
        "no JSON",
        "{\"header\":{\"revision\":\"7\"}}",
        "{\"header\":{\"revision\":7},\"succeeded\":true}",
        "{\"header\":{\"revision\":\"7\"},\"succeeded\":\"true\"}",
        "{\"header\":{\"revision\":\"-7\"},\"succeeded\":true}",
        "{\"header\":{\"revision\":\"10000000000000000000\"},\"succeeded\":true}",
    ];
    for body in unclear {
        let answer = response(&rt, alloc, body);
        assert_eq!(&rt; outcome(&rt, alloc, 1, answer), (Err(Lost::Unanswered), 8));
    }
    Ok(())
}
