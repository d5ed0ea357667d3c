//! The jobs that need no server: a script, a check and a generated load, over a journal in two files or over memory alone; and what all
//! jobs share, as the catalogue of a file, the line that tells a refusal, and the status to end with.
#![tactic(auto)]

mod catalogue;
mod checking;
mod journal;
mod kept_jobs;
mod laws;
mod load_job;
mod memory_jobs;
mod saying;
mod script;
mod status;

pub use catalogue::{Unusable, load};
pub use checking::check_on_disks;
pub use journal::{say_journal, script_on_disks};
pub use kept_jobs::{check_kept, do_kept_script};
pub use laws::a_second_script_goes_on;
pub use load_job::do_load;
pub use memory_jobs::{check_memory, do_script};
pub use saying::{say, say_help, say_refusal, say_usage, say_version};
pub use script::script_run;
pub use status::Status;
