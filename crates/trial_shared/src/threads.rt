// Two callers in threads of their own, over any desk.
ghost use Rattle.std.specs.Prelude.{◌≡◌, ◌≤◌, ◌<◌, List, length};
ghost use Rattle.boss_model.specs.declared.state.Actuator.{Actuator};
ghost use Rattle.boss_model.specs.Sound.{IsAllowed};

use boss_model::{Answer, Command, Items, PointId, SessionId, Txn};
use boss_shared::Desk;
use def_history::Outcome;
use std::alloc::Global;
use std::thread::{Threads, join};

pub const DAMPER: PointId = PointId(0);

/// A renewal of all leases of the first transaction, by a minute.
pub fn renewal(alloc: Global) -> Command
    ensures { (plant : List Actuator) → 0 < length plant → IsAllowed plant result }
{
    Command::Renew {
        txn: Txn(1),
        length: 60_000,
        points: Items::new(alloc),
        seq: 0,
    }
}

// Reads the damper a thousand times, and says whether each was answered.
fn read_often<G: Desk>(desk: &G, mut pass: G::Pass) -> (G::Pass, bool)
    requires own { G.owns desk.now pass }
    requires point { 0 < length (G.plant desk.now) }
    ensures own { G.owns desk.now result.0 }
    ensures parts { G.parts result.0 ≡ G.parts pass }
{
    for _ in 0..1000 {
        let outcome = desk.call(
            &mut pass,
            SessionId(2),
            &Command::Read { point: DAMPER },
            1000,
        );
        let Outcome::Done { answer } = outcome else {
            return (pass, false);
        };
        let Answer::Reading { .. } = answer else {
            return (pass, false);
        };
    }
    (pass, true)
}

// Renews a thousand times, a millisecond later each, and says whether each was answered.
fn renew_often<G: Desk>(desk: &G, mut pass: G::Pass, alloc: Global) -> (G::Pass, bool)
    requires own { G.owns desk.now pass }
    requires point { 0 < length (G.plant desk.now) }
    ensures own { G.owns desk.now result.0 }
    ensures parts { G.parts result.0 ≡ G.parts pass }
{
    for moment in 1001..2001 {
        let outcome = desk.call(&mut pass, SessionId(1), &renewal(alloc), moment);
        let Outcome::Done { answer } = outcome else {
            return (pass, false);
        };
        let Answer::Renewed { .. } = answer else {
            return (pass, false);
        };
    }
    (pass, true)
}

/// A thousand readings and a thousand renewals from two threads, each with a pass of its own, and whether all were answered.
pub fn read_and_renew<R: Threads, G: Desk + Sync>(
    rt: &R,
    alloc: Global,
    desk: &G,
    mut pass: G::Pass,
) -> (G::Pass, bool)
where
    G::Pass: Send,
    requires own { G.owns desk.now pass }
    requires two_parts { 2 ≤ G.parts pass }
    requires point { 0 < length (G.plant desk.now) }
    ensures own { G.owns desk.now result.0 }
    ensures parts { G.parts result.0 ≡ G.parts pass }
{
    let other = desk.split(&mut pass);
    let ((mut pass, read), (other, renewed)) = join(
        rt,
        move || -> (G::Pass, bool)
            requires { G.owns desk.now pass × (0 < length (G.plant desk.now)) }
            ensures { G.owns desk.entry.now result.0 × (G.parts result.0 ≡ G.parts pass) }
        { read_often(desk, pass) },
        move || -> (G::Pass, bool)
            requires { G.owns desk.now other × (0 < length (G.plant desk.now)) }
            ensures { G.owns desk.entry.now result.0 × (G.parts result.0 ≡ G.parts other) }
        { renew_often(desk, other, alloc) },
    );
    desk.join(&mut pass, other);
    (pass, read && renewed)
}
