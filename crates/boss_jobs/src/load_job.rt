ghost use Rattle.boss_jobs.specs.LoadJobs.{TellsSummary};

use crate::Status;
use boss_load_run::run_load;
use boss_outside::Sink;
use boss_scripts::Broken;
use std::alloc::Global;

/// Runs the generated load of so many transactions, and tells its summary.
pub fn do_load<K: Sink>(alloc: Global, count: u32, seed: u32, sink: &mut K) -> Status
    ensures { TellsSummary ⟦<K as Sink>⟧ count seed sink.old sink.new result.0 }
{
    match run_load(alloc, count, seed, sink) {
        Ok(()) => Status::DONE,
        Err(Broken::WriteFault) => Status::WRITE_FAULT,
        Err(Broken::NoMemory) => Status::NO_MEMORY,
    }
}
