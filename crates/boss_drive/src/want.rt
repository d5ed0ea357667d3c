ghost use Rattle.std.specs.Prelude.{◌≡◌, ◌<◌, ◌≤◌, length, [], ◌∷◌, ◌++◌, IfOk, IfErr, IfSome};
ghost use Rattle.boss_model.specs.declared.command.Command.TheVariants.{Next};
ghost use Rattle.boss_model.specs.Limits.{last_moment};
ghost use Rattle.boss_lock.specs.Places.{entries_at};
ghost use Rattle.def_history.specs.declared.entry.Entry.TheVariants.{Did};
ghost use Rattle.boss_expiry.specs.Ends.{IsCut};
ghost use Rattle.boss_drive.specs.Wants.{answer_to};

use boss_expiry::{WorkEnd, work};
use boss_model::{Answer, Command, DriverId, PointId};
use boss_shared::Desk;

/// What a device is to be set to: the value in thousandths of the unit, or a state's number. The report names this version.
#[derive(Debug, Drop)]
pub struct Want {
    pub point: PointId,
    pub version: u64,
    pub value: i64,
}

/// The driver's next want at a moment, in milliseconds, if it has one.
pub fn next<G: Desk>(
    desk: &G,
    pass: &mut G::Pass,
    driver: DriverId,
    moment: u64,
) -> Result<Option<Want>, WorkEnd>
    requires own { G.owns desk.now pass.old }
    requires soon { moment ≤ last_moment }
    ensures own { G.owns desk.now pass.new }
    ensures parts { G.parts pass.new ≡ G.parts pass.old }
    ensures done { IfOk result (λ want. entries_at (G.seen pass.new) (G.mine pass.new)
        ≡ entries_at (G.seen pass.old) (G.mine pass.old) ++ Did 0 (Next driver) moment (answer_to want) ∷ []) }
    ensures known { IfOk result (λ want. IfSome want (λ want. want.point < length (G.plant desk.now))) }
    ensures cut { IfErr result (IsCut (Next driver) moment (entries_at (G.seen pass.old) (G.mine pass.old))
        (entries_at (G.seen pass.new) (G.mine pass.new)) (G.seen pass.new)) }
{
    let answer = match work(desk, pass, &Command::Next { driver }, moment) {
        Err(end) => return Err(end),
        Ok(answer) => answer,
    };
    match &answer {
        Answer::Want {
            point,
            version,
            value,
        } => Ok(Some(Want {
            point: *point,
            version: *version,
            value: *value,
        })),
        Answer::Nothing => Ok(None),
        _ => unreachable!(),
    }
}
