//! A link that gives answers, and members over it.

use boss_etcd::Members;
use boss_model::Items;
use boss_outside::ListLink;
use std::alloc::Global;
use std::process::Abort;

/// What a member answered to a commit that took the journal over.
pub const TAKEN: &str =
    "HTTP/1.1 200 OK\r\nAccess-Control-Allow-Headers: accept, content-type, authorization\r\nAccess-Control-Allow-Methods: POST, GET, OPTIONS, PUT, DELETE\r\nAccess-Control-Allow-Origin: *\r\nContent-Type: application/json\r\nGrpc-Metadata-Content-Type: application/grpc\r\nDate: Tue, 01 Dec 2026 22:36:51 GMT\r\nContent-Length: 234\r\n\r\n{\"header\":{\"cluster_id\":\"8280492943435028862\",\"member_id\":\"10903438849754818364\",\"revision\":\"2\",\"raft_term\":\"2\"},\"succeeded\":true,\"responses\":[{\"response_put\":{\"header\":{\"revision\":\"2\"}}},{\"response_put\":{\"header\":{\"revision\":\"2\"}}}]}";

/// A response with status 200 and this body.
pub fn response(rt: &impl Abort, alloc: Global, body: &str) -> Items<u8> {
    let text = format!(in alloc;
        "HTTP/1.1 200 OK\r\nContent-Type: application/json\r\nContent-Length: {}\r\n\r\n{body}",
        body.len()
    );
    Items::from_vec(text.expect(rt, "memory").into_bytes())
}

/// Bytes of a text.
pub fn bytes_of(rt: &impl Abort, alloc: Global, text: &str) -> Items<u8> {
    Items::from_vec(text.as_bytes().to_vec(alloc).expect(rt, "memory"))
}

/// Two members over a link whose connections give these answers, at most so many bytes at a time.
pub fn members_over(
    rt: &impl Abort,
    alloc: Global,
    answers: Items<Items<u8>>,
    most: usize,
) -> Members<ListLink> {
    let link = ListLink::new(alloc, answers, most, Items::new(alloc)).expect(rt, "memory");
    let mut hosts = Items::new(alloc);
    hosts
        .try_push(bytes_of(rt, alloc, "127.0.0.1:2379"))
        .expect(rt, "memory");
    hosts
        .try_push(bytes_of(rt, alloc, "[::1]:2379"))
        .expect(rt, "memory");
    Members::new(alloc, link, hosts)
}

/// A list of one.
pub fn only(rt: &impl Abort, alloc: Global, item: Items<u8>) -> Items<Items<u8>> {
    let mut items = Items::new(alloc);
    items.try_push(item).expect(rt, "memory");
    items
}
