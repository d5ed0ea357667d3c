//! Runs `bossd` on this machine.
#![tactic(auto)]

use boss_start::start;
use std::process::ExitCode;

fn main(rt: HostRuntime) -> ExitCode {
    start(rt, &rt)
}
