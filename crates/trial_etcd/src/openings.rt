use crate::parts::{members_over, response};
use boss_etcd_opening::{OpenFault, open};
use boss_model::Items;
use std::alloc::Global;
use std::process::Abort;
use std::test::Fail;

/// What is answered where there is no such key.
const NONE: &str = "{\"header\":{\"revision\":\"1\"}}";

/// The head of six bytes; of another program.
const HEAD: &str =
    "{\"header\":{\"revision\":\"5\"},\"kvs\":[{\"key\":\"cGxhbnQvYS9oZWFk\",\"create_revision\":\"2\",\"mod_revision\":\"3\",\"version\":\"2\",\"value\":\"Ym9zc2QxIDAgMiA2\"}],\"count\":\"1\"}";

const FOREIGN: &str =
    "{\"header\":{\"revision\":\"5\"},\"kvs\":[{\"key\":\"cGxhbnQvYS9oZWFk\",\"create_revision\":\"2\",\"mod_revision\":\"3\",\"version\":\"2\",\"value\":\"dHdv\"}],\"count\":\"1\"}";

/// The page of six bytes; the second one without the first; one that is empty; five bytes where there are six.
const PAGE: &str =
    "{\"header\":{\"revision\":\"5\"},\"kvs\":[{\"key\":\"cGxhbnQvYS9wLzAwMDAwMDAw\",\"create_revision\":\"2\",\"mod_revision\":\"3\",\"version\":\"2\",\"value\":\"aGVsbG8h\"}],\"count\":\"1\"}";

const SECOND: &str =
    "{\"header\":{\"revision\":\"5\"},\"kvs\":[{\"key\":\"cGxhbnQvYS9wLzAwMDAwMDAx\",\"mod_revision\":\"3\",\"value\":\"aGVsbG8h\"}],\"count\":\"1\"}";

const EMPTY: &str =
    "{\"header\":{\"revision\":\"5\"},\"kvs\":[{\"key\":\"cGxhbnQvYS9wLzAwMDAwMDAw\",\"mod_revision\":\"3\"}],\"count\":\"1\"}";

const SHORT: &str =
    "{\"header\":{\"revision\":\"5\"},\"kvs\":[{\"key\":\"cGxhbnQvYS9wLzAwMDAwMDAw\",\"mod_revision\":\"3\",\"value\":\"aGVsbG8=\"}],\"count\":\"1\"}";

/// What is opened where the head and the pages are answered so: the bytes, with the head's revision.
fn opened(
    rt: &impl Abort,
    alloc: Global,
    head: &str,
    pages: &str,
) -> Result<(Vec<u8>, Items<u8>), OpenFault> {
    let mut answers = response(rt, alloc, head).into_vec();
    answers
        .extend_from_slice(response(rt, alloc, pages).slice())
        .expect(rt, "memory");
    let mut connections = Items::new(alloc);
    connections
        .try_push(Items::from_vec(answers))
        .expect(rt, "memory");
    let mut members = members_over(rt, alloc, connections, 1);
    match open(alloc, &mut members, b"plant/a") {
        Ok(opened) => Ok((opened.bytes, opened.head.revision)),
        Err(fault) => Err(fault),
    }
}

#[test]
fn what_stands_in_etcd_is_opened(rt: HostRuntime) -> Result<(), Fail> {
    let alloc = rt.alloc();
    let rows = [
        (NONE, NONE, b"".as_slice(), b"0".as_slice()),
        (HEAD, PAGE, b"hello!".as_slice(), b"3".as_slice()),
    ];
    for (head, pages, bytes, revision) in rows {
        let (found, left) = opened(&rt, alloc, head, pages).expect(&rt, "a journal");
        assert_eq!(&rt; found.as_slice(), bytes);
        assert_eq!(&rt; left.slice(), revision);
    }
    Ok(())
}

#[test]
fn what_is_no_journal_is_refused(rt: HostRuntime) -> Result<(), Fail> {
    let alloc = rt.alloc();
    let rows = [
        (FOREIGN, PAGE, OpenFault::Foreign),
        (NONE, PAGE, OpenFault::Foreign),
        (HEAD, NONE, OpenFault::Damaged),
        (HEAD, SECOND, OpenFault::Damaged),
        (HEAD, EMPTY, OpenFault::Damaged),
        (HEAD, SHORT, OpenFault::Damaged),
        ("{}", PAGE, OpenFault::Unanswered),
    ];
    for (head, pages, wanted) in rows {
        assert_eq!(&rt; opened(&rt, alloc, head, pages).err(), Some(wanted));
    }
    Ok(())
}
