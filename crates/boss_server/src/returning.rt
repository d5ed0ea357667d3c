ghost use Rattle.std.specs.Prelude.{◌≡◌, ℕ, ◌+◌, ◌≤◌, ◌++◌, List, [], Bool, length, vec_len, vec_capacity};
ghost use Rattle.boss_worker.specs.Desks.{own_of};
ghost use Rattle.boss_worker.specs.Workers.{was_at, IsReady};
ghost use Rattle.boss_server.specs.Making.{StaysClock, StaysHost, GainsNoPause};
ghost use Rattle.boss_server.specs.References.{KeepsReferences};
ghost use Rattle.boss_server.specs.Turns.{devices_of, AllInTurn};

use crate::Outside;
use crate::joining::join_one;
use boss_outside::Actuators;
use boss_outside_server::{Clock, Host, Waiter};
use boss_shared::Desk;
use boss_worker::{Server, Worker};

/// Takes the parts of workers back of which none has run. The devices are then in their places, as they were.
pub(crate) fn return_all<'a, G: Desk, H: Host, C: Clock, W: Waiter, A: Actuators + Drop, P>(
    server: &Server<'_, G>,
    pass: &mut G::Pass,
    outside: &mut Outside<'_, H, C, W, A, P>,
    workers: Vec<Worker<'a, G, H, C, W, A>>,
)
    requires own { G.owns server.now.desk pass.old }
    requires empty { own_of G.Desk pass.old ≡ [] }
    requires sound { H.sound outside.old.host.now }
    requires ready { AllInTurn workers.items 0 (λ number worker. (worker.server.now ≡ server.now) × (worker.number ≡ number)
        × IsReady G.Desk H.Host C.Clock W.Waiter A.Actuators server.now.catalogue.now server.now.desk server.now.workers
        number worker.pass worker.duty worker.clock worker.waiter worker.flags) }
    requires room { vec_len outside.old.devices.now + length (devices_of workers.items (λ worker. was_at worker.duty)) ≤ vec_capacity outside.old.devices.now }
    ensures references { KeepsReferences outside.old outside.new }
    ensures own { G.owns server.now.desk pass.new }
    ensures parts { G.parts pass.new ≡ G.parts pass.old + length workers.entry.items }
    ensures empty { own_of G.Desk pass.new ≡ [] }
    ensures sound { H.sound outside.new.host.now }
    ensures host { StaysHost H.Host outside.old.host.now outside.new.host.now }
    ensures clock { StaysClock C.Clock outside.old.clock.now outside.new.clock.now }
    ensures waiter { GainsNoPause W.tells (W.waits outside.old.waiter.now) (W.waits outside.new.waiter.now) }
    ensures spawner { outside.new.spawner.now ≡ outside.old.spawner.now }
    ensures devices { outside.new.devices.now.items ≡ devices_of workers.entry.items (λ worker. was_at worker.duty) ++ outside.old.devices.now.items }
{
    for worker in workers {
        join_one(&server.desk, pass, outside, worker);
    }
}
