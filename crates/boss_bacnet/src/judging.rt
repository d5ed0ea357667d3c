ghost use Rattle.std.specs.Prelude.{◌≡◌, ◌≤◌, Some, true, IfSome};
ghost use Rattle.boss_bacnet.specs.Fates.{byte, is_answer, is_from, judged, judged_message, message_in, refusal_of, told_at};
ghost use Rattle.boss_bacnet.specs.Frames.{from_whom, service, simple_ack};
ghost use Rattle.std.specs.Prelude.{bytes_eq, take, drop, length, option_copied};

use crate::asked::{Asked, What};
use crate::fate::Fate;
use crate::frames::{read_ack, read_head};
use boss_model::{Object, Station};

/// What a datagram says of what was asked under this invoke id; none where it is no answer to that.
pub fn judge(id: u8, asked: &Asked, bytes: &[u8]) -> Option<Fate>
    requires instance { asked.now.object.instance ≤ 4194302 }
    requires short { length bytes.now ≤ 65535 }
    ensures says { result ≡ judged id asked.now bytes.now }
    ensures answer { IfSome result (λ end. is_answer end ≡ true) }
{
    let message = message_in(asked.remote, bytes)?;
    judge_message(id, &asked.object, asked.what, message)
}

/// The message of a datagram, where it is from this sender.
fn message_in<'a>(remote: Option<Station>, bytes: &'a [u8]) -> Option<&'a [u8]>
    requires { length bytes.now ≤ 65535 }
    ensures { option_copied result ≡ message_in remote bytes.now }
{
    if !is_from(remote, bytes) {
        return None;
    }
    match remote {
        None => Some(behind(bytes, 6)),
        Some(_) => Some(behind(behind(bytes, 6), 4)),
    }
}

/// Whether a datagram is whole, and from this sender.
fn is_from(remote: Option<Station>, bytes: &[u8]) -> bool
    requires { length bytes.now ≤ 65535 }
    ensures { result ≡ is_from remote bytes.now }
{
    let [high, low] = (bytes.len() as u16).to_be_bytes();
    if !begins(bytes, &[0x81, 0x0a, high, low]) || byte(bytes, 4) != 1 {
        return false;
    }
    match remote {
        None => byte(bytes, 5) / 8 == 0,
        Some(Station { network, address }) => {
            let [n1, n0] = network.to_be_bytes();
            byte(bytes, 5) / 8 == 1 && begins(behind(bytes, 6), &[n1, n0, 1, address])
        }
    }
}

/// What a message says.
fn judge_message(id: u8, object: &Object, what: What, message: &[u8]) -> Option<Fate>
    requires { object.now.instance ≤ 4194302 }
    ensures says { result ≡ judged_message id object.now what message.now }
    ensures answer { IfSome result (λ end. is_answer end ≡ true) }
{
    match what {
        What::Write { .. } => {
            if are_same(message, &[0x20, id, 15]) {
                return Some(Fate::Taken);
            }
        }
        What::Check { value } => {
            if are_same(message, read_ack(id, object, value).as_slice()) {
                return Some(Fate::Has);
            }
            if begins(message, read_head(id, object).as_slice()) {
                return Some(Fate::HasOther);
            }
        }
    }
    refusal_of(id, what, message)
}

/// Why it was not done, where the message says so.
fn refusal_of(id: u8, what: What, message: &[u8]) -> Option<Fate>
    ensures says { result ≡ refusal_of id what message.now }
    ensures answer { IfSome result (λ end. is_answer end ≡ true) }
{
    if begins(message, &[0x50, id, service(what)]) {
        let class = told_at(message, 3);
        let code = told_at(message, 5);
        return Some(Fate::Error { class, code });
    }
    let reason = byte(message, 2);
    if begins(message, &[0x60, id]) {
        return Some(Fate::Reject { reason });
    }
    if begins(message, &[0x70, id]) || begins(message, &[0x71, id]) {
        return Some(Fate::Abort { reason });
    }
    None
}

/// The number of a service.
fn service(what: What) -> u8
    ensures { result ≡ service what }
{
    match what {
        What::Write { .. } => 15,
        What::Check { .. } => 12,
    }
}

/// An enumerated number of one byte, 256 where there is none.
fn told_at(message: &[u8], at: usize) -> u16
    requires { at ≤ 5 }
    ensures { result ≡ told_at at message.now }
{
    if byte(message, at) == 0x91 {
        byte(message, at + 1)
    } else {
        256
    }
}

/// A byte, 256 where there is none.
fn byte(bytes: &[u8], at: usize) -> u16
    ensures value { result ≡ byte bytes.now at }
    ensures small { result ≤ 256 }
{
    match bytes.get(at) {
        Some(found) => u16::from(*found),
        None => 256,
    }
}

/// Whether the one begins with the other.
fn begins(bytes: &[u8], front: &[u8]) -> bool
    ensures { result ≡ bytes_eq (take (length front.now) bytes.now) front.now }
{
    match bytes.get(..front.len()) {
        Some(first) => first == front,
        None => false,
    }
}

/// What stands behind so many bytes.
fn behind(bytes: &[u8], count: usize) -> &[u8]
    ensures { result.now ≡ drop count bytes.now }
{
    match bytes.get(count..) {
        Some(rest) => rest,
        None => &[],
    }
}

/// Whether these are the same bytes.
fn are_same(some: &[u8], other: &[u8]) -> bool
    ensures { result ≡ bytes_eq some.now other.now }
{
    some == other
}
