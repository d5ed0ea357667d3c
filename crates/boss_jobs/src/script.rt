ghost use Rattle.std.specs.Prelude.{◌≡◌, OnErr, vec_len};
ghost use Rattle.boss_model.specs.Catalogue.{actuators};
ghost use Rattle.boss_model.specs.Lines.{lines};
ghost use Rattle.boss_scripts.specs.Causes.{ReadCause, WriteCause};
ghost use Rattle.boss_scripts.specs.Devices.{HasDevices};
ghost use Rattle.boss_scripts.specs.Outside.{outside};
ghost use Rattle.boss_jobs.specs.Ends.{Ended, EndsScript, status_of};
ghost use Rattle.boss_jobs.specs.Scripts.{BrokeScript};

use crate::Status;
use boss_lines::Next;
use boss_memory_keeper::Unkept;
use boss_outside::{Actuators, Hears, Sink, Source};
use boss_points::Catalogue;
use boss_scripts::{Broken, run_script};
use std::alloc::Global;

/// Runs a script: the wants of the beginning are served, and then each line of the source is answered, and the wants
/// that it leaves are served, before the next is read.
pub fn script_run<S: Hears<K>, K: Sink, A: Actuators>(
    alloc: Global,
    catalogue: &Catalogue,
    source: &mut S,
    sink: &mut K,
    devices: &mut Vec<A>,
) -> Status
    requires { HasDevices (vec_len devices.old) (actuators catalogue.now) }

    ensures { EndsScript catalogue.now
        (outside ⟦<S as Source>⟧ ⟦<K as Sink>⟧ ⟦<A as Actuators>⟧ source.old sink.old devices.old.items)
        (outside ⟦<S as Source>⟧ ⟦<K as Sink>⟧ ⟦<A as Actuators>⟧ source.new sink.new devices.new.items) result.0 }
{
    status_of(run(alloc, catalogue, source, sink, devices))
}

/// The status that tells how a script ended.
pub fn status_of(end: Result<Next, Broken>) -> Status
    ensures { result.0 ≡ status_of end }
{
    match end {
        Ok(Next::Finish) => Status::DONE,
        Ok(Next::ReadFault) => Status::READ_FAULT,
        Ok(Next::TooLong) => Status::LINE_TOO_LONG,
        Ok(Next::Line) => Status::TOO_MANY_LINES,
        Err(Broken::WriteFault) => Status::WRITE_FAULT,
        Err(Broken::NoMemory) => Status::NO_MEMORY,
    }
}

/// Runs a script over an engine that keeps nothing, and says what stopped it, which is a line where there are more than a script
/// may have.
fn run<S: Hears<K>, K: Sink, A: Actuators>(
    alloc: Global,
    catalogue: &Catalogue,
    source: &mut S,
    sink: &mut K,
    devices: &mut Vec<A>,
) -> Result<Next, Broken>
    requires { HasDevices (vec_len devices.old) (actuators catalogue.now) }
    ensures ended { S.tells → Ended catalogue.now
        (outside ⟦<S as Source>⟧ ⟦<K as Sink>⟧ ⟦<A as Actuators>⟧ source.old sink.old devices.old.items)
        (outside ⟦<S as Source>⟧ ⟦<K as Sink>⟧ ⟦<A as Actuators>⟧ source.new sink.new devices.new.items) result }
    ensures broke { OnErr result (S.tells → K.tells → BrokeScript catalogue.now (lines (S.left source.old))
        (outside ⟦<S as Source>⟧ ⟦<K as Sink>⟧ ⟦<A as Actuators>⟧ source.old sink.old devices.old.items)
        (outside ⟦<S as Source>⟧ ⟦<K as Sink>⟧ ⟦<A as Actuators>⟧ source.new sink.new devices.new.items)) }
    ensures write { WriteCause (K.faults sink.old) (K.faults sink.new) result }
    ensures read { ReadCause (S.faults source.old) (S.faults source.new) result }
{
    let mut keeper = Unkept::new(alloc, catalogue)?;
    run_script(alloc, catalogue, &mut keeper, source, sink, devices)
}
