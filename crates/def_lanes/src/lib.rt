//! How the workers of a server each own a part of one history, so that what each of them promises survives the joining of
//! their passes. Laws over definitions alone; each is the contract of a function that takes nothing and does nothing.
//!
//! An entry of the history is in one lane: its session's, its driver's, or that of time. A work is what a worker
//! did in one lane (an ended connection, the turns of the one that watches time, those of one that drives devices), and says
//! something of the entries of that lane and of nothing else. As each lane's work is one worker's, nothing that another one
//! adds can change it.
//!
//! How the crates above use it:
//!
//! - a call that serves a connection, watches one, lets time pass or drives devices promises `Added`: all that it added to the
//!   deeds of its pass is in one lane, is what the call says of it, and was done at moments that its clock gave. It shows that
//!   from its own record of what it did (`specs/Parts`);
//! - a worker begins with `nothing` and adds one work after another by `more` ([`parts_come_together`]), giving each connection
//!   back under the next of its sessions ([`rising_sessions_are_apart`]); it leaves a `Part`, of one worker: from its number up
//!   to the next;
//! - who started the workers joins their passes in the order of their numbers. A join of passes keeps the entries that pass a
//!   test as they were, where only one side has such entries; so it is `Joined` ([`a_join_keeps_what_one_side_has`]), and `next`
//!   makes one `Part` of all. Beside it go the notes of the waiter ([`notes_stand_at_their_places`]) and the devices
//!   ([`devices_come_back`]);
//! - after the last join the pass holds all of the history, and `Agreed` speaks of it: each work of the entries of its lane,
//!   and nothing was done that is no work ([`all_that_was_done_is_work`]).
//!
//! A clause can't range over what a call says, so two lemmas on `Added` stand in `proofs/Adding` alone: `added-then` joins two
//! calls of one lane (a connection that is served, and then watched), and `added-says` turns what a call says into what the
//! server's terms ask.
#![tactic(auto)]

mod devices;
mod joins;
mod lanes;
mod parts;
mod server;
mod waits;

pub use devices::{devices_come_back, one_work_has_all_calls};
pub use joins::{
    a_join_keeps_what_one_side_has, all_that_was_done_is_work, works_agree_after_a_join,
};
pub use lanes::{
    a_report_is_in_the_lane_of_its_want, rising_sessions_are_apart, two_workers_share_no_lane,
};
pub use parts::parts_come_together;
pub use server::Server;
pub use waits::{
    notes_stand_at_their_places, pauses_are_counted, pauses_keep_their_length,
    pauses_keep_their_length_at_any_bell,
};
