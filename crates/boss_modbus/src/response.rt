ghost use Rattle.std.specs.Prelude.{◌≡◌, ◌≢◌, ℕ, ◌+◌, ◌<◌, ◌≤◌, nat_eq, ◌&&◌, List, [], ◌++◌, length, take, bytes_eq};
ghost use Rattle.boss_outside.specs.Streams.{ReadCause};
ghost use Rattle.boss_modbus.specs.Fates.{Came, Fills, FillCause, Grows, Fared, judged, length_of};
ghost use Rattle.boss_modbus.specs.Frames.{response_length};

use crate::Fate;
use crate::frames::{answer, exception, header};
use crate::request::{Asked, is_check};
use arrayvec::ArrayVec;
use boss_outside::{Got, Link};

/// The bytes of a response, of which there are at most thirteen.
pub type Response = ArrayVec<u8, 13>;

/// How far a response came.
#[derive(Clone, Copy, Debug, PartialEq, Eq)]
pub enum Filled {
    /// All the bytes that are wanted.
    Whole,
    /// Fewer: the connection ended.
    Finished,
    /// Fewer: the link failed.
    Failed,
}

/// Receives a response, whose answer has so many bytes behind its header: six bytes, and then as many as its header says. So no byte of the
/// next one is received.
#[tactic(auto, using(crate::proofs::Fronts::nothing_yet, crate::proofs::Judging::too_soon, crate::proofs::Judging::came_on, crate::proofs::Judging::caused_on))]
pub fn hear<L: Link>(link: &mut L, response: &mut Response, number: u16, size: u8) -> Filled
    requires none { response.old.items ≡ [] }
    requires size { size ≤ 7 }
    ensures received { L.tells → L.received link.new ≡ L.received link.old ++ response.new.items }
    ensures came { Came number size response.new.items result }
    ensures ended { L.tells → result ≡ Filled.Finished → L.left link.new ≡ [] }
    ensures sent { L.tells → L.sent link.new ≡ L.sent link.old }
    ensures hosts { L.tells → L.hosts link.new ≡ L.hosts link.old }
    ensures cause { FillCause (L.faults link.old) (L.faults link.new) result }
{
    match fill(link, response, 6) {
        Filled::Whole => {}
        Filled::Finished => return Filled::Finished,
        Filled::Failed => return Filled::Failed,
    }
    let wanted = response_length(number, size, response.as_slice());
    fill(link, response, wanted)
}

/// How many bytes a response has, by its first six.
fn response_length(number: u16, size: u8, first: &[u8]) -> usize
    requires { size ≤ 7 }
    ensures length { result ≡ response_length number size first.now }
    ensures least { 6 ≤ result }
    ensures most { result ≤ 13 }
{
    if are_same(first, &header(number, size)) {
        return 6 + usize::from(size);
    }
    if are_same(first, &header(number, 3)) {
        return 9;
    }
    6
}

/// Receives until a response has this many bytes.
#[tactic(auto, using(crate::proofs::Fronts::front_front))]
fn fill<L: Link>(link: &mut L, response: &mut Response, wanted: usize) -> Filled
    requires most { wanted ≤ 13 }
    requires within { length response.old.items ≤ wanted }
    ensures received { L.tells → (before : List ℕ) → L.received link.old ≡ before ++ response.old.items
        → L.received link.new ≡ before ++ response.new.items }
    ensures front { take (length response.old.items) response.new.items ≡ response.old.items }
    ensures filled { Fills wanted (length response.new.items) result }
    ensures ended { L.tells → result ≡ Filled.Finished → L.left link.new ≡ [] }
    ensures sent { L.tells → L.sent link.new ≡ L.sent link.old }
    ensures hosts { L.tells → L.hosts link.new ≡ L.hosts link.old }
    ensures cause { FillCause (L.faults link.old) (L.faults link.new) result }
{
    let mut count = response.len();
    while count < wanted {
        match receive_more(link, response, wanted) {
            Got::Bytes(more) => count += more,
            Got::Finish => return Filled::Finished,
            Got::Failed => return Filled::Failed,
        }
    }
    Filled::Whole
}

/// Receives some of the bytes that a response still lacks.
fn receive_more<L: Link>(link: &mut L, response: &mut Response, wanted: usize) -> Got
    requires most { wanted ≤ 13 }
    requires lacks { length response.old.items < wanted }
    ensures received { L.tells → (before : List ℕ) → L.received link.old ≡ before ++ response.old.items
        → L.received link.new ≡ before ++ response.new.items }
    ensures front { take (length response.old.items) response.new.items ≡ response.old.items }
    ensures grows { Grows (length response.old.items) (length response.new.items) result }
    ensures within { length response.new.items ≤ wanted }
    ensures ended { L.tells → result ≡ Got.Finish → L.left link.new ≡ [] }
    ensures sent { L.tells → L.sent link.new ≡ L.sent link.old }
    ensures hosts { L.tells → L.hosts link.new ≡ L.hosts link.old }
    ensures cause { ReadCause (L.faults link.old) (L.faults link.new) result }
{
    let mut room = [0; 13];
    let lacking = wanted - response.len();
    receive_into(link, response, &mut room[..lacking])
}

/// Receives bytes of a response into this room, and keeps them.
#[tactic(auto, using(crate::proofs::Fronts::front_kept, crate::proofs::Fronts::received_on, crate::proofs::Fronts::nothing_more))]
fn receive_into<L: Link>(link: &mut L, response: &mut Response, room: &mut [u8]) -> Got
    requires some { 0 < length room.old }
    requires within { length response.old.items + length room.old ≤ 13 }
    ensures received { L.tells → (before : List ℕ) → L.received link.old ≡ before ++ response.old.items
        → L.received link.new ≡ before ++ response.new.items }
    ensures front { take (length response.old.items) response.new.items ≡ response.old.items }
    ensures grows { Grows (length response.old.items) (length response.new.items) result }
    ensures within { length response.new.items ≤ length response.old.items + length room.old }
    ensures ended { L.tells → result ≡ Got.Finish → L.left link.new ≡ [] }
    ensures sent { L.tells → L.sent link.new ≡ L.sent link.old }
    ensures hosts { L.tells → L.hosts link.new ≡ L.hosts link.old }
    ensures cause { ReadCause (L.faults link.old) (L.faults link.new) result }
{
    match link.receive(room) {
        Got::Bytes(count) => {
            keep(response, &room[..count]);
            Got::Bytes(count)
        }
        Got::Finish => Got::Finish,
        Got::Failed => Got::Failed,
    }
}

/// Keeps bytes, for which there is room.
fn keep(response: &mut Response, bytes: &[u8])
    requires { length response.old.items + length bytes.now ≤ 13 }
    ensures { response.new.items ≡ response.old.items ++ bytes.now }
{
    let kept = response.try_extend_from_slice(bytes);
    let Ok(()) = kept else { unreachable!() };
}

/// What a whole response says.
pub fn judge(number: u16, asked: &Asked, response: &[u8]) -> Fate
    requires { length response.now ≡ length_of number asked.now response.now }
    ensures fared { (left : List ℕ) → Fared number asked.now response.now left result }
    ensures no_fault { result ≢ Fate.LinkFault }
{
    judged(number, asked, response)
}

/// What a whole response says, by those that a device may give.
fn judged(number: u16, asked: &Asked, response: &[u8]) -> Fate
    ensures { result ≡ judged number asked.now response.now }
{
    let answer = answer(number, asked);
    if are_same(response, answer.as_slice()) {
        return if is_check(asked.request) {
            Fate::Has
        } else {
            Fate::Taken
        };
    }
    let code = response.get(8).copied().unwrap_or(0);
    if are_same(response, &exception(number, asked, code)) {
        return Fate::Exception { code };
    }
    if is_check(asked.request) && agree(response, answer.as_slice()) {
        return Fate::HasOther;
    }
    Fate::Wrong
}

/// Whether a response has as many bytes as the answer, and the same up to the value.
fn agree(response: &[u8], answer: &[u8]) -> bool
    ensures { result ≡ (nat_eq (length response.now) (length answer.now) && bytes_eq (take 9 response.now) (take 9 answer.now)) }
{
    response.len() == answer.len() && are_same(front(response), front(answer))
}

/// The first nine bytes.
fn front(bytes: &[u8]) -> &[u8]
    ensures { result.now ≡ take 9 bytes.now }
{
    &bytes[..bytes.len().min(9)]
}

/// Whether these are the same bytes.
fn are_same(some: &[u8], other: &[u8]) -> bool
    ensures { result ≡ bytes_eq some.now other.now }
{
    some == other
}
