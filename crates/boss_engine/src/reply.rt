//! What a command came to, and the answer that it is.

ghost use Rattle.std.specs.Prelude.{◌≡◌, List};
ghost use Rattle.boss_model.specs.declared.state.Actuator.{Actuator};
ghost use Rattle.boss_engine.specs.Inside.{CanAct};
ghost use Rattle.boss_persistent.specs.Lasting.{persistent_of};
ghost use Rattle.boss_engine.specs.Replies.{IsTellable, told};
ghost use Rattle.boss_model.specs.declared.answer.Answer.TheVariants as answer;

use crate::machine::Machine;
use boss_marks::Want;
use boss_model::{Answer, Basis, Mark, Name, Notice, PointId, ProcId, Refusal, Took, Txn};
use boss_persistent::{Decision, notices, slots_of, status};

/// The value that a point is to have, what it rests on, how far the device has come, how often it was found with another value, and what
/// it took last.
#[derive(Clone, Copy)]
pub struct Reading {
    pub point: PointId,
    pub value: i64,
    pub basis: Basis,
    pub mark: Mark,
    pub differed: u64,
    pub took: Option<Took>,
}

/// What a command came to, before it is an answer. An answer has room for sixteen slots, and is dear to move: it is made once, in
/// the end. A list, a point's slots and the stage of a transaction are looked up then.
#[derive(Drop)]
pub enum Reply {
    /// The session holds the process of this name, whose next notice has this number.
    Attached {
        name: Name,
        next: u64,
    },
    /// What a submit, a renewal or a cancel came to, or what its number decides.
    Decided(Decision),
    /// The process let go this number of live leases.
    Gone {
        ended: u64,
    },
    /// Time has passed, and this is the moment of the last change.
    Ticked {
        now: u64,
    },
    /// The driver's device is to be set so.
    Want(Want),
    /// The driver has no want.
    Nothing,
    /// A report or a doubt was heard, and counts, or does not.
    Noted {
        current: bool,
    },
    /// The value that the point is to have, what it rests on, and where the device stands.
    Read(Reading),
    /// The slots of the point.
    Array {
        point: PointId,
    },
    /// How far the transaction has come.
    Status {
        txn: Txn,
    },
    /// At most so many notices of the process, from this number on, which are put into the list.
    Notices {
        process: Option<ProcId>,
        from: u64,
        max: u64,
        list: Vec<Notice>,
    },
    /// The points of the catalogue from this place on, at most so many, are told.
    Points {
        from: u64,
        max: u64,
    },
    /// The program, its journals and the catalogue are told.
    Version,
    /// The command was refused.
    Refused(Refusal),
}

impl Machine {
    /// The answer that a reply is.
    #[inline(never)]
    pub fn answer(&self, reply: Reply) -> Answer
        requires { (plant : List Actuator) × CanAct plant self.now × IsTellable plant (persistent_of self.now.lasting) reply }
        ensures { result ≡ told (persistent_of self.now.lasting) reply }
    {
        match reply {
            Reply::Attached { name, next } => Answer::Attached { name, next },
            Reply::Decided(decision) => decision.answer(),
            Reply::Gone { ended } => Answer::Gone { ended },
            Reply::Ticked { now } => Answer::Ticked { now },
            Reply::Want(want) => answer_of_want(want),
            Reply::Nothing => Answer::Nothing,
            Reply::Noted { current } => Answer::Noted { current },
            Reply::Read(reading) => answer_of_reading(reading),
            Reply::Array { point } => Answer::Array {
                point,
                slots: slots_of(&self.lasting.holdings, point),
            },
            Reply::Status { txn } => status(&self.lasting, txn),
            Reply::Notices {
                process,
                from,
                max,
                list,
            } => notices(&self.lasting, process, from, max, list),
            Reply::Points { from, max } => Answer::Points { from, max },
            Reply::Version => Answer::Version,
            Reply::Refused(why) => Answer::Refused(why),
        }
    }
}

/// What a driver is answered that has this want.
pub fn answer_of_want(want: Want) -> Answer
    ensures { result ≡ answer.Want want.point want.version want.value }
{
    Answer::Want {
        point: want.point,
        version: want.version,
        value: want.value,
    }
}

/// What is answered where a point is read.
pub fn answer_of_reading(reading: Reading) -> Answer
    ensures { result ≡ answer.Reading reading.point reading.value reading.basis reading.mark reading.differed reading.took }
{
    Answer::Reading {
        point: reading.point,
        value: reading.value,
        basis: reading.basis,
        mark: reading.mark,
        differed: reading.differed,
        took: reading.took,
    }
}
