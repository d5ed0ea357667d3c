//! A script on the journal that a first one left, `tower.journal`, over as many drivers as there may be. The lease of the journal outlived
//! the stop, and is over by the first line; a line that is too long ends the script with status 13.
#![tactic(auto)]

use boss_start::start;
use std::process::ExitCode;

fn main(rt: HostRuntime) -> ExitCode {
    start(rt, &rt)
}
