ghost use Rattle.std.specs.Prelude.{◌≡◌, false, [], IfOk, OnErr};
ghost use Rattle.boss_worker.specs.Visits.{IsFreshHost};
ghost use Rattle.boss_server.specs.Making.{IsFreshClock, IsFreshWaiter, StaysClock, StaysHost, StaysWaiter};

use boss_model::NoMemory;
use boss_outside_server::{Clock, Host, Waiter};
use std::alloc::Global;

/// A part of a clock and one of a waiter. Without memory there is none of either.
pub(crate) fn clock_and_waiter<C: Clock, W: Waiter>(
    alloc: Global,
    clock: &mut C,
    waiter: &mut W,
) -> Result<(C, W), NoMemory>
    ensures fresh { IfOk result (λ parts. IsFreshClock C.Clock parts.0 × IsFreshWaiter W.Waiter (W.waited waiter.old).expected parts.1) }
    ensures clock { StaysClock C.Clock clock.old clock.new }
    ensures waiter { StaysWaiter W.Waiter waiter.old waiter.new }
{
    let part = clock.split(alloc)?;
    match waiter.split(alloc) {
        Ok(other) => Ok((part, other)),
        Err(none) => {
            clock.join(part);
            Err(none)
        }
    }
}

/// A part of a host that is to hand out so many connections, one of a clock, and one of a waiter. Without memory there is none of
/// any.
pub(crate) fn all_three<H: Host, C: Clock, W: Waiter>(
    alloc: Global,
    host: &mut H,
    clock: &mut C,
    waiter: &mut W,
    connections: u32,
) -> Result<(H, C, W), NoMemory>
    requires { H.sound host.old }
    ensures fresh { IfOk result (λ parts. IsFreshHost H.Host parts.0 × IsFreshClock C.Clock parts.1 × IsFreshWaiter W.Waiter (W.waited waiter.old).expected parts.2) }
    ensures share { IfOk result (λ parts. (H.share parts.0 ≡ connections) × (H.tells → H.served parts.0 ≡ [])) }
    ensures sound { H.sound host.new }
    ensures host { StaysHost H.Host host.old host.new }
    ensures clock { StaysClock C.Clock clock.old clock.new }
    ensures waiter { StaysWaiter W.Waiter waiter.old waiter.new }
{
    let part = host.split(alloc, connections)?;
    match clock_and_waiter(alloc, clock, waiter) {
        Ok((own_clock, own_waiter)) => Ok((part, own_clock, own_waiter)),
        Err(none) => {
            host.join(part);
            Err(none)
        }
    }
}
