//! What outlasts a stop: leases and reversions, the records of transactions, and the processes; what each command asks of them, and what
//! it makes of them.
#![tactic(auto)]

mod attached;
mod booking;
mod early;
mod kept;
mod lasting;
mod meaning;
mod processes;
mod putting;
mod queries;
mod refusals;
mod renewing;
mod replies;
mod target;

pub use attached::{Attachment, attach, detach, process_of};
pub use early::is_allowed;
pub use lasting::{Lasting, Which};
pub use queries::{first_until, notices, status};
pub use refusals::{attach_refused, cancel_refused, renew_refused, submit_refused};
pub use replies::Decision;
pub use target::{basis_of, slots_of, target_of};
