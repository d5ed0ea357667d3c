//! Follows another journal: reads its feed line by line, and does again in a journal of its own what the feed tells. An event that
//! is next is appended, and a state that is ahead is taken on in place of all before it; what is known already is passed over.
//!
//! Whatever a crash leaves meanwhile opens to what lasts after some of the lines.
#![tactic(auto)]

mod feed;
mod following;
mod place;
mod spelled;
mod stop;
mod taking;

pub use feed::follow;
pub use stop::FollowEnd;
