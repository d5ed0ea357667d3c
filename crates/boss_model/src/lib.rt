//! What `bossd` speaks of: points, priorities, leases, commands, answers and notices, and in `specs/` the whole lease machine
//! in definitions. `proofs/` computes worked timelines from them.
#![tactic(auto)]

mod allowed;
mod answer;
mod buffer;
mod command;
mod event;
mod items;
mod kept;
mod limits;
mod memory;
mod name;
mod notice;
mod numbers;
mod places;
mod point;
mod spot;
mod state;

pub use allowed::{fits_at, is_level, is_reversion};
pub use answer::{Answer, Basis, Mark, Refusal, Slot, Slots};
pub use buffer::Buffer;
pub use command::{Command, Policy, Setting, Step};
pub use event::{Act, Effect, Event};
pub use items::Items;
pub use kept::{Acceptance, Kept, KeptPart, KeptProcess, KeptReply, KeptTxn};
pub use limits::{
    ANSWER_ROOM, BELLS, DONE_KEPT, FIRST_GATE, LAST_MOMENT, LAST_NUMBER, LAST_SESSION, LEVELS,
    LOCK_LOOKS, LOG_LIMIT, LONGEST_FILE, LONGEST_HOLD, LONGEST_LEASE, LONGEST_LINE,
    LONGEST_MINIMUM, LONGEST_NAME, LONGEST_RECORD, MOST_COUNTERS, MOST_DRIVERS, MOST_HELD,
    MOST_LINES, MOST_POINTS, MOST_PROCESSES, MOST_STEPS, MOST_TOLD, MOST_WORKERS, MOST_WRITES,
    NOTICES_KEPT, PROGRAM_VERSION, RECORD_ROOM, RETRY_AFTER,
};
pub use memory::NoMemory;
pub use name::Name;
pub use notice::{Cause, Notice, Stage, What};
pub use numbers::{DriverId, PointId, Priority, ProcId, SessionId, Txn};
pub use places::{
    DriverPlan, Form, Function, Half, Object, ObjectKind, Place, Protocol, Round, Scale, Station,
    Where,
};
pub use point::Kind;
pub use spot::{Key, Spot};
pub use state::{Actuator, Lease, Pending, Proxy, Took};
