//! What is said on one connection: lines, and the reply to each; the entries that the commands among them leave in the one
//! history; and the moments at which they were called. Laws over definitions alone; each is the contract of a function that
//! takes nothing and does nothing.
//!
//! How a line is read and what a reply's text is are a `Speech`, of which nothing is known here. A talk is `Goes` as long as it
//! goes on: begun by `nothing`, and one batch of requests, or one line, after another by `then` ([`a_talk_goes_on`]). The last
//! batch, or what comes in place of one, makes it `Stops`. When its process is told to be lost, if it had one, it is `Talked`
//! ([`a_talk_is_whole`]): the one clause of a call that serves a connection. From it follows what that call owes to whoever joins
//! several of them: all that it added is of its session, and agrees with the connection as it ended
//! ([`a_connection_adds_to_its_lane`]). A submit is denied exactly where one of the speech's gates denies it to the process that the
//! session has, so each that was done is allowed ([`what_is_done_is_allowed`]). Where lines are read by keys, whoever speaks has shown the
//! key of a name, and attaches to that name alone ([`whoever_speaks_has_shown_a_key`]). The same for a connection that watches a process: `Watches`, `Watched`
//! ([`watching_goes_on`]).
#![tactic(auto)]

mod adding;
mod batches;
mod judging;
mod showing;
mod talks;
mod watching;

pub use adding::{a_connection_adds_to_its_lane, a_talk_without_replies_adds_nothing};
pub use batches::{a_batch_is_its_exchanges, answers_of_a_desk_are_replies};
pub use judging::what_is_done_is_allowed;
pub use showing::whoever_speaks_has_shown_a_key;
pub use talks::{a_batch_is_a_part_of_a_talk, a_talk_goes_on, a_talk_is_whole};
pub use watching::watching_goes_on;
