//! The program: from the words of the command line to the bytes that it writes.
#![tactic(auto)]

mod doing;
mod jobs;
mod next;
mod top_call;

pub use boss_adopt_jobs::adopt_on_disks;
pub use boss_jobs::{Status, a_second_script_goes_on, check_on_disks, script_on_disks, script_run};
pub use boss_serve_jobs::{Service, Site, Surroundings, serve_in_memory, serve_on_disks};
pub use boss_shift_jobs::shift_on_disks;
pub use boss_standby_jobs::{feed_on_disks, standby_on_disks};
pub use next::{Next, ServeJob};
pub use top_call::{boss, boss_serve};
