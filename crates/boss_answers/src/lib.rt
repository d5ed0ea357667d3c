//! The texts that the program writes: of answers, of notices, of writes to devices and of refusals. They go into a buffer that
//! has the room, and as lines to a sink.
#![tactic(auto)]

mod answer;
mod catalogue;
mod device;
mod entries;
mod lines;
mod notice;
mod parts;
mod refusal;
mod slots;
mod spot;
mod telling;

pub use answer::write_answer;
pub use catalogue::refusal_line;
pub use device::write_device;
pub use lines::{put_answer_line, put_denied_line, put_memory_line, put_stopped_line};
pub use notice::write_notice;
pub use telling::{
    tell_answer, tell_help, tell_memory, tell_refusal, tell_stopped, tell_too_long, tell_usage,
    tell_version, tell_write,
};
