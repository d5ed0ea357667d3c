//! A script whose catalogue is not there: it writes nothing, and ends with status 5.
#![tactic(auto)]

use boss_start::start;
use std::process::ExitCode;

fn main(rt: HostRuntime) -> ExitCode {
    start(rt, &rt)
}
