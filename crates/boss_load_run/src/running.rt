ghost use Rattle.std.specs.Prelude.{◌≡◌, [], IfOk, OnOk, vec_len};
ghost use Rattle.boss_load.specs.Day.{load_script};
ghost use Rattle.boss_model.specs.Catalogue.{actuators};
ghost use Rattle.boss_model.specs.Lines.{lines};
ghost use Rattle.boss_model.specs.Settle.{first_state};
ghost use Rattle.boss_model.specs.Sound.{IsSound};
ghost use Rattle.boss_outside.specs.Stores.{bytes_left};
ghost use Rattle.boss_load_run.specs.Load.{Ran, summary_of, Summarizes, TellsLoad};
ghost use Rattle.boss_load_run.specs.Plant.{plant};

use crate::Summary;
use crate::counting::summary_of;
use crate::summary::summary_line;
use boss_lines::Next;
use boss_load::{load_catalogue, load_script};
use boss_memory_keeper::Unkept;
use boss_model::{Items, NoMemory};
use boss_outside::{BytesSink, BytesSource, IdleActuators, Sink};
use boss_points::{Catalogue, CatalogueRefusal};
use boss_scripts::{Broken, run_script};
use std::alloc::Global;

/// Runs the load of so many transactions in memory, and tells its summary as one line.
///
/// `WriteFault` comes where this line could not be written. `NoMemory` comes where no memory was to be had, and for a script of
/// more than 2^32 lines; then nothing was told.
pub fn run_load<K: Sink>(alloc: Global, count: u32, seed: u32, sink: &mut K) -> Result<(), Broken>
    ensures { TellsLoad ⟦<K as Sink>⟧ count seed sink.old sink.new result }
{
    let summary = load(alloc, count, seed)?;
    let line = summary_line(alloc, &summary)?;
    sink.write(&line)?;
    Ok(())
}

/// Runs the load, and sums it up.
fn load(alloc: Global, count: u32, seed: u32) -> Result<Summary, NoMemory>
    ensures { IfOk result (Summarizes count seed) }
{
    let catalogue = load_plant(alloc)?;
    load_over(alloc, &catalogue, count, seed)
}

/// The catalogue of the load.
fn load_plant(alloc: Global) -> Result<Catalogue, NoMemory>
    ensures { IfOk result (λ catalogue. catalogue ≡ plant) }
{
    let file = load_catalogue(alloc)?;
    match Catalogue::read(alloc, file.slice()) {
        Ok(catalogue) => Ok(catalogue),
        Err(refusal) => match refusal {
            CatalogueRefusal::NoMemory => Err(NoMemory),
            _ => unreachable!(),
        },
    }
}

/// Runs the load over its catalogue, and sums it up.
fn load_over(
    alloc: Global,
    catalogue: &Catalogue,
    count: u32,
    seed: u32,
) -> Result<Summary, NoMemory>
    requires { catalogue.now ≡ plant }
    ensures { IfOk result (Summarizes count seed) }
{
    let mut keeper = Unkept::new(alloc, catalogue)?;
    load_into(alloc, catalogue, &mut keeper, count, seed)
}

/// Runs the load over an engine before anything was done, and sums it up.
fn load_into(
    alloc: Global,
    catalogue: &Catalogue,
    keeper: &mut Unkept,
    count: u32,
    seed: u32,
) -> Result<Summary, NoMemory>
    requires catalogue { catalogue.now ≡ plant }
    requires new { keeper.old.engine ≡ record { plant = actuators plant; state = first_state (actuators plant) } }
    requires sound { IsSound keeper.old.engine.plant keeper.old.engine.state }
    ensures { IfOk result (Summarizes count seed) }
{
    let mut sink = BytesSink::new(alloc, Items::new(alloc))?;
    match run(alloc, catalogue, keeper, count, seed, &mut sink) {
        Ok(()) => sum_up(alloc, keeper, count, seed, sink.taken()),
        Err(NoMemory) => Err(NoMemory),
    }
}

/// The summary of a load that told this text, and left this engine.
fn sum_up(
    alloc: Global,
    keeper: &Unkept,
    count: u32,
    seed: u32,
    text: &[u8],
) -> Result<Summary, NoMemory>
    ensures { IfOk result (λ summary. summary ≡ summary_of count seed text.now keeper.now.engine.state.persistent) }
{
    let kept = keeper.engine().keep(alloc)?;
    Ok(summary_of(count, seed, text, &kept))
}

/// Runs the script of the load over an engine before anything was done.
fn run(
    alloc: Global,
    catalogue: &Catalogue,
    keeper: &mut Unkept,
    count: u32,
    seed: u32,
    sink: &mut BytesSink,
) -> Result<(), NoMemory>
    requires catalogue { catalogue.now ≡ plant }
    requires new { keeper.old.engine ≡ record { plant = actuators plant; state = first_state (actuators plant) } }
    requires sound { IsSound keeper.old.engine.plant keeper.old.engine.state }
    requires empty { sink.old.taken ≡ [] }
    ensures { OnOk result (Ran (lines (load_script count seed)) sink.new.taken keeper.new.engine.state.persistent) }
{
    let script = load_script(alloc, count, seed)?;
    let mut source = BytesSource::new(alloc, script, Items::new(alloc))?;
    run_lines(alloc, catalogue, keeper, &mut source, sink)
}

/// Runs the script that a source holds.
fn run_lines(
    alloc: Global,
    catalogue: &Catalogue,
    keeper: &mut Unkept,
    source: &mut BytesSource,
    sink: &mut BytesSink,
) -> Result<(), NoMemory>
    requires catalogue { catalogue.now ≡ plant }
    requires new { keeper.old.engine ≡ record { plant = actuators plant; state = first_state (actuators plant) } }
    requires sound { IsSound keeper.old.engine.plant keeper.old.engine.state }
    requires empty { sink.old.taken ≡ [] }
    ensures { OnOk result (Ran (lines (bytes_left source.old)) sink.new.taken keeper.new.engine.state.persistent) }
{
    let mut devices = devices(alloc)?;
    match run_script(alloc, catalogue, keeper, source, sink, &mut devices) {
        Ok(Next::Finish) => Ok(()),
        // Such a line is told too, as the last of the script.
        Ok(Next::TooLong) => Ok(()),
        Ok(Next::ReadFault | Next::Line) => Err(NoMemory),
        Err(Broken::WriteFault | Broken::NoMemory) => Err(NoMemory),
    }
}

/// The devices behind the one driver of the plant.
fn devices(alloc: Global) -> Result<Vec<IdleActuators>, NoMemory>
    ensures { IfOk result (λ devices. vec_len devices ≡ 1) }
{
    let mut devices = Vec::new(alloc);
    devices.push(IdleActuators::new())?;
    Ok(devices)
}
