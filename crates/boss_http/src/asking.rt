ghost use Rattle.std.specs.Prelude.{◌≡◌, false, [], ◌++◌, IfSome, IsSome, IsNone};
ghost use Rattle.boss_outside.specs.Streams.{TakesFront};
ghost use Rattle.boss_http.specs.Responses.{IsWhole};

use crate::hearing::hear;
use boss_outside::{Failed, Link};
use std::alloc::Global;

/// The bytes that came in an exchange, and the content of the response.
#[derive(Debug, Drop)]
pub struct Heard {
    pub bytes: Vec<u8>,
    pub content: Vec<u8>,
}

impl Heard {
    /// Nothing. No memory is taken.
    pub fn new(alloc: Global) -> Heard
        ensures bytes { result.bytes.items ≡ [] }
        ensures content { result.content.items ≡ [] }
    {
        Heard {
            bytes: Vec::new(alloc),
            content: Vec::new(alloc),
        }
    }

    /// Lets go what was heard before.
    fn clear(&mut self)
        ensures bytes { self.new.bytes.items ≡ [] }
        ensures content { self.new.content.items ≡ [] }
    {
        self.bytes.clear();
        self.content.clear();
    }
}

/// Sends a request and hears the response, whose status it gives where it came whole with nothing behind it. The connection is kept
/// after such a response alone.
pub fn exchange<L: Link>(
    link: &mut L,
    is_connected: &mut bool,
    host: &[u8],
    request: &[u8],
    heard: &mut Heard,
) -> Option<u16>
    ensures front { L.tells → TakesFront (L.sent link.old) (L.sent link.new) request.now }
    ensures sent { L.tells → IsSome result → L.sent link.new ≡ L.sent link.old ++ request.now }
    ensures received { L.tells → L.received link.new ≡ L.received link.old ++ heard.new.bytes.items }
    ensures whole { IfSome result (λ status. IsWhole heard.new.bytes.items status heard.new.content.items) }
    ensures shut { L.tells → IsNone result → L.connected link.new ≡ false }
{
    heard.clear();
    let status = ask(link, *is_connected, host, request, heard);
    *is_connected = status.is_some();
    if status.is_none() {
        link.shut();
    }
    status
}

/// Connects, where that is wanted, sends the request and hears its response.
#[tactic(auto, using(crate::proofs::Fronts::all_front, crate::proofs::Fronts::no_front, crate::proofs::Fronts::front_after, crate::proofs::Fronts::nothing_yet))]
fn ask<L: Link>(
    link: &mut L,
    is_connected: bool,
    host: &[u8],
    request: &[u8],
    heard: &mut Heard,
) -> Option<u16>
    requires none { heard.old.bytes.items ≡ [] }
    requires empty { heard.old.content.items ≡ [] }
    ensures front { L.tells → TakesFront (L.sent link.old) (L.sent link.new) request.now }
    ensures sent { L.tells → IsSome result → L.sent link.new ≡ L.sent link.old ++ request.now }
    ensures received { L.tells → L.received link.new ≡ L.received link.old ++ heard.new.bytes.items }
    ensures whole { IfSome result (λ status. IsWhole heard.new.bytes.items status heard.new.content.items) }
{
    let Ok(()) = reach(link, is_connected, host) else {
        return None;
    };
    let Ok(()) = link.send(request) else {
        return None;
    };
    hear(link, &mut heard.bytes, &mut heard.content)
}

/// Connects to the host, where there is no connection.
fn reach<L: Link>(link: &mut L, is_connected: bool, host: &[u8]) -> Result<(), Failed>
    ensures sent { L.tells → L.sent link.new ≡ L.sent link.old }
    ensures received { L.tells → L.received link.new ≡ L.received link.old }
{
    if is_connected {
        return Ok(());
    }
    link.connect(host)
}
