ghost use Rattle.std.specs.Prelude.{◌≡◌, ◌+◌, ◌<◌, ◌≤◌, [], ◌++◌, true, length, take, drop, IfSome, vec_len, vec_capacity};
ghost use Rattle.httparse.specs.Spans.{IsResponseOf, IsResponseWithin};
ghost use Rattle.boss_http.specs.Hearing.{Holds, IsBody};
ghost use Rattle.boss_http.specs.Responses.{IsWhole, limits};

use crate::response::framing_of;
use crate::turn::{Turn, read_piece};
use boss_outside::{Got, Link};
use http1::Limits;
use http1::decode::Decoder;
use http1::framing::Framing;
use httparse::Status;
use httparse::spans::{EMPTY_HEADER_SPAN, HeaderSpan, ResponseSpans, parse_response};

/// The most bytes of the head of a response.
const MOST_HEAD: usize = 16_384;

/// The most bytes of a response.
const MOST: usize = 1_048_576;

/// The most bytes of one receive.
const ROOM: usize = 16_384;

/// How many fields a head may have.
const MOST_FIELDS: usize = 32;

/// Receives a response, and gives its status where it came whole with nothing behind it.
#[tactic(auto, using(crate::proofs::Fronts::nothing_yet, crate::proofs::Bodies::whole))]
pub fn hear<L: Link>(link: &mut L, bytes: &mut Vec<u8>, content: &mut Vec<u8>) -> Option<u16>
    requires none { bytes.old.items ≡ [] }
    requires empty { content.old.items ≡ [] }
    ensures received { L.tells → L.received link.new ≡ L.received link.old ++ bytes.new.items }
    ensures whole { IfSome result (λ status. IsWhole bytes.new.items status content.new.items) }
    ensures sent { L.tells → L.sent link.new ≡ L.sent link.old }
    ensures hosts { L.tells → L.hosts link.new ≡ L.hosts link.old }
{
    let mut spans = [EMPTY_HEADER_SPAN; MOST_FIELDS];
    let head = hear_head(link, bytes, &mut spans)?;
    let framing = framing_of(bytes.as_slice(), &spans, &head)?;
    if !hear_body(link, bytes, head.len, framing, content) {
        return None;
    }
    Some(head.code)
}

/// Receives until the head of a response is there.
fn hear_head<L: Link>(
    link: &mut L,
    bytes: &mut Vec<u8>,
    spans: &mut [HeaderSpan],
) -> Option<ResponseSpans>
    requires none { bytes.old.items ≡ [] }
    ensures received { Holds L.Link link.old link.new bytes.old.items bytes.new.items }
    ensures head { IfSome result (IsResponseOf bytes.new.items spans.new) }
    ensures within { IfSome result (IsResponseWithin bytes.new.items spans.new) }
    ensures sent { L.tells → L.sent link.new ≡ L.sent link.old }
    ensures hosts { L.tells → L.hosts link.new ≡ L.hosts link.old }
{
    while bytes.len() < MOST_HEAD && receive_more(link, bytes) {
        match parse_response(bytes.as_slice(), spans) {
            Ok(Status::Complete(head)) => return Some(head),
            Ok(Status::Partial) => {}
            Err(_) => return None,
        }
    }
    None
}

/// Receives until a body is there, which begins at this place. Whether it came whole, with nothing behind it.
#[tactic(auto, using(crate::proofs::Fronts::front_front))]
fn hear_body<L: Link>(
    link: &mut L,
    bytes: &mut Vec<u8>,
    start: usize,
    framing: Framing,
    content: &mut Vec<u8>,
) -> bool
    requires within { start ≤ length bytes.old.items }
    requires empty { content.old.items ≡ [] }
    ensures received { Holds L.Link link.old link.new bytes.old.items bytes.new.items }
    ensures kept { take (length bytes.old.items) bytes.new.items ≡ bytes.old.items }
    ensures whole { result ≡ true → IsBody framing (drop start bytes.new.items) content.new.items }
    ensures sent { L.tells → L.sent link.new ≡ L.sent link.old }
    ensures hosts { L.tells → L.hosts link.new ≡ L.hosts link.old }
{
    let mut decoder = Decoder::new(framing, &limits());
    let mut at = start;
    loop {
        match read_piece(&mut decoder, bytes.as_slice(), &mut at, content) {
            Turn::Again => {}
            Turn::More => {
                if bytes.len() >= MOST || !receive_more(link, bytes) {
                    return false;
                }
            }
            Turn::Whole => return true,
            Turn::Wrong => return false,
        }
    }
}

/// How many bytes the parts of a response may have that are no content.
fn limits() -> Limits
    ensures { result ≡ limits }
{
    Limits {
        max_head_len: 16_384,
        max_extensions_len: 16_384,
        max_trailers_len: 16_384,
    }
}

/// Receives some more bytes, and keeps them. Where there is no memory to keep them it receives none.
fn receive_more<L: Link>(link: &mut L, bytes: &mut Vec<u8>) -> bool
    ensures received { Holds L.Link link.old link.new bytes.old.items bytes.new.items }
    ensures kept { take (length bytes.old.items) bytes.new.items ≡ bytes.old.items }
    ensures grows { result ≡ true → length bytes.old.items < length bytes.new.items }
    ensures most { length bytes.new.items ≤ length bytes.old.items + 16384 }
    ensures sent { L.tells → L.sent link.new ≡ L.sent link.old }
    ensures hosts { L.tells → L.hosts link.new ≡ L.hosts link.old }
{
    if bytes.reserve(ROOM).is_err() {
        return false;
    }
    receive_in_room(link, bytes)
}

/// Receives bytes for which there is room.
#[tactic(auto, using(crate::proofs::Fronts::front_kept, crate::proofs::Fronts::received_on, crate::proofs::Fronts::nothing_more))]
fn receive_in_room<L: Link>(link: &mut L, bytes: &mut Vec<u8>) -> bool
    requires { vec_len bytes.old + 16384 ≤ vec_capacity bytes.old }
    ensures received { Holds L.Link link.old link.new bytes.old.items bytes.new.items }
    ensures kept { take (length bytes.old.items) bytes.new.items ≡ bytes.old.items }
    ensures grows { result ≡ true → length bytes.old.items < length bytes.new.items }
    ensures most { length bytes.new.items ≤ length bytes.old.items + 16384 }
    ensures sent { L.tells → L.sent link.new ≡ L.sent link.old }
    ensures hosts { L.tells → L.hosts link.new ≡ L.hosts link.old }
{
    let mut room = [0; ROOM];
    match link.receive(&mut room) {
        Got::Bytes(count) => {
            keep_in_room(bytes, &room[..count]);
            true
        }
        Got::Finish | Got::Failed => false,
    }
}

/// Keeps bytes for which there is room.
fn keep_in_room(kept: &mut Vec<u8>, bytes: &[u8])
    requires { vec_len kept.old + length bytes.now ≤ vec_capacity kept.old }
    ensures { kept.new.items ≡ kept.old.items ++ bytes.now }
{
    let taken = kept.extend_from_slice(bytes);
    let Ok(()) = taken else { unreachable!() };
}
