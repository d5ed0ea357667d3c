//! Runs of the program over the same files, one after another, as rows of a text: what each shows, and behind it its runs. A run is the
//! words behind `$`, the lines of the input behind `>`, the lines of the output, and the status.

ghost use Rattle.std.specs.Prelude.{IsTrue};
ghost use Rattle.boss_files.specs.Shelf.{have_distinct_names};

use crate::outside::*;
use boss_files::MemoryFiles;
use boss_model::Items;
use std::alloc::Global;
use std::process::Abort;
use std::sync::Wait;
use std::thread::Threads;
use trial_parts::THREE_POINTS;

/// The three points, with the lamp on by default, without the fan, and with a valve.
const WITH_VALVE: &str = "drivers=['field']
point=[
{name='ahu1.damper',driver='field',kind='analog',min=0,max=100000,default=20000},
{name='lamp',driver='field',kind='binary',default=1},
{name='valve',driver='field',kind='analog',min=0,max=100,default=10}]
";

/// The three points without the damper.
const WITHOUT_DAMPER: &str = "drivers=['field']
point=[
{name='lamp',driver='field',kind='binary',default=0},
{name='fan',driver='field',kind='multi',states=3,default=1}]
";

/// The three points, where the damper opens less far.
const NARROW: &str = "drivers=['field']
point=[
{name='ahu1.damper',driver='field',kind='analog',min=0,max=40000,default=20000},
{name='lamp',driver='field',kind='binary',default=0},
{name='fan',driver='field',kind='multi',states=3,default=1}]
";

/// A catalogue that is none.
const BROKEN: &str = "drivers=['field']\npoint=3\n";

/// Runs the program once on these files, and gives all that it tells as a text of a row.
fn told_of<R: Abort + Threads + Wait + Sync>(
    rt: &R,
    alloc: Global,
    files: &mut MemoryFiles,
    words: &str,
    lines: &str,
) -> String {
    let input = input_of(rt, alloc, lines);
    let ran = run_on(rt, alloc, files, words, input.as_str(), NONE_FAILS);
    let mut text = String::new(alloc);
    tell_output(rt, &mut text, &ran.sink);
    tell_status(rt, &mut text, ran.status);
    text
}

/// The input of a run.
fn input_of(rt: &impl Abort, alloc: Global, lines: &str) -> String {
    let mut input = String::new(alloc);
    for line in lines.split('\n') {
        if let Some(asked) = line.strip_prefix("> ") {
            writeln!(input, "{asked}").expect(rt, "memory");
        }
    }
    input
}

/// What the lines of a run are to tell, without its input.
fn output_of(rt: &impl Abort, alloc: Global, lines: &str) -> String {
    let mut output = String::new(alloc);
    for line in lines.split('\n') {
        if !line.is_empty() && !line.starts_with("> ") {
            writeln!(output, "{line}").expect(rt, "memory");
        }
    }
    output
}

/// Runs the program over files with the catalogues and no journal, as a row has it.
fn expect_row<R: Abort + Threads + Wait + Sync>(rt: &R, alloc: Global, row: &str) {
    let (shows, runs) = row.split_once("\n$ ").expect(rt, "what it shows");
    let mut files = shelf_of_catalogues(rt, alloc);
    for run in runs.split("\n$ ") {
        expect_run(rt, alloc, &mut files, run, shows);
    }
}

/// Runs the program once on these files, which has to tell what the run has.
fn expect_run<R: Abort + Threads + Wait + Sync>(
    rt: &R,
    alloc: Global,
    files: &mut MemoryFiles,
    run: &str,
    shows: &str,
) {
    let (words, lines) = run.split_once('\n').expect(rt, "what it tells");
    let told = told_of(rt, alloc, files, words, lines);
    let wanted = output_of(rt, alloc, lines);
    assert_eq!(rt; told.as_str(), wanted.as_str(), "{shows}: {words}");
}

/// The catalogues, each under its name, and no journal.
fn catalogues(rt: &impl Abort, alloc: Global) -> Items<(Items<u8>, Items<u8>)>
    ensures { IsTrue (have_distinct_names result) }
{
    let mut files = Vec::new(alloc);
    let three = (bytes(rt, alloc, "three"), bytes(rt, alloc, THREE_POINTS));
    files.push(three).expect(rt, "memory");
    let valve = (bytes(rt, alloc, "valve"), bytes(rt, alloc, WITH_VALVE));
    files.push(valve).expect(rt, "memory");
    let without_damper = (
        bytes(rt, alloc, "no-damper"),
        bytes(rt, alloc, WITHOUT_DAMPER),
    );
    files.push(without_damper).expect(rt, "memory");
    let narrow = (bytes(rt, alloc, "narrow"), bytes(rt, alloc, NARROW));
    files.push(narrow).expect(rt, "memory");
    let broken = (bytes(rt, alloc, "broken"), bytes(rt, alloc, BROKEN));
    files.push(broken).expect(rt, "memory");
    Items::from_vec(files)
}

/// Files in memory with the catalogues and no journal.
pub fn shelf_of_catalogues(rt: &impl Abort, alloc: Global) -> MemoryFiles {
    let contents = catalogues(rt, alloc);
    MemoryFiles::new(alloc, contents, Items::new(alloc)).expect(rt, "memory")
}

/// Runs the program as each of these rows has it.
pub fn expect_rows<R: Abort + Threads + Wait + Sync>(rt: &R, alloc: Global, rows: &str) {
    for row in rows.split("\n== ").skip(1) {
        expect_row(rt, alloc, row);
    }
}
