//! A connection that is served: its requests are read, held together as far as they have come, done by a desk in one call and
//! answered, and at its end the process that it attached to, if it did, is told to be lost.
//!
//! What is heard on it are its lines, one after another, and the requests among them, each with the moment of the clock at which
//! it was taken. Requests that have come are held together, up to [`boss_model::MOST_HELD`] of them, as long as nothing has to be read for
//! the next one. With keys, whoever speaks has to show one.
#![tactic(auto)]

mod behind;
mod end;
mod ended;
mod gathering;
mod halt;
mod heard;
mod hearing;
mod keyed;
mod next_line;
mod parting;
mod replies;
mod requests;
mod rounds;
mod serving;
mod session;
mod turns;

pub use end::SessionEnd;
pub use ended::a_served_connection_has_ended;
pub use gathering::gather;
pub use heard::Heard;
pub use hearing::Hearing;
pub use keyed::lines_are_guarded_by_keys;
pub use serving::serve_connection;
