ghost use Rattle.std.specs.Prelude.{◌≡◌, ℕ, List, ◌∷◌, ◌++◌, vec_len};
ghost use Rattle.boss_plans.specs.Lines.{refusal_line};
ghost use Rattle.boss_jobs.specs.Jobs.{TellsLine};
ghost use Rattle.boss_serve_jobs.specs.Preparing.{AsksNames, GivesKeys, GivesPlan, GivesRules, listed, Prepares, reading, setting};

use crate::keying::{Unkeyed, read_keys, say_keys_refusal};
use crate::ruling::{Unruled, read_rules, say_rules_refusal};
use boss_access::Rules;
use boss_assignment::{Unplanned, assign_plan};
use boss_files::Files;
use boss_jobs::{Status, Unusable, load, say, say_refusal};
use boss_keys::KeyFile;
use boss_outside::{Actuators, Sink};
use boss_plans::{PlanRefusal, refusal_line};
use boss_points::Catalogue;
use boss_words::Word;
use std::alloc::Global;

/// Sets a server up: reads the catalogue of a file, then the access rules of another and the keys of a third, if there are such, and where
/// there is a plan's file tells each device that it names where its points are. Where one of them can't be had, or is refused, the answer
/// is the status to end with, and no device is told anything: so the plan, by which they are told, is read last.
pub fn prepare<F: Files, K: Sink, A: Actuators>(
    alloc: Global,
    name: &str,
    rules: &Option<Word>,
    plan: &Option<Word>,
    keys: &Option<Word>,
    files: &mut F,
    sink: &mut K,
    devices: &mut Vec<A>,
) -> Result<(Catalogue, Option<Rules>, Option<KeyFile>), Status>
    ensures prepares { Prepares F.Files K.Sink A.Actuators name.now rules.now plan.now keys.now (vec_len devices.old)
        (setting files.old sink.old devices.old.items) (setting files.new sink.new devices.new.items) result }
    ensures asks { F.tells → AsksNames (name.now ∷ listed rules.now ++ listed keys.now ++ listed plan.now) (F.asked files.old) (F.asked files.new) result }
    ensures stays { F.tells → (file : List ℕ) → F.holds files.new file ≡ F.holds files.old file }
    ensures past { F.tells → (file : List ℕ) → F.past files.new file ≡ F.past files.old file }
{
    let catalogue = match load(alloc, files, name, devices.len()) {
        Ok(catalogue) => catalogue,
        Err(Unusable::Refused(refusal)) => return Err(say_refusal(alloc, sink, refusal)),
        Err(Unusable::FileFault) => return Err(Status::FILE_FAULT),
        Err(Unusable::NoMemory) => return Err(Status::NO_MEMORY),
    };
    let rules = match take_rules(alloc, rules, files, sink) {
        Ok(rules) => rules,
        Err(status) => return Err(status),
    };
    let keys = match take_keys(alloc, keys, files, sink) {
        Ok(keys) => keys,
        Err(status) => return Err(status),
    };
    match take_plan(alloc, plan, &catalogue, files, sink, devices) {
        Ok(()) => Ok((catalogue, rules, keys)),
        Err(status) => Err(status),
    }
}

/// The access rules of a file, if there is one.
fn take_rules<F: Files, K: Sink>(
    alloc: Global,
    rules: &Option<Word>,
    files: &mut F,
    sink: &mut K,
) -> Result<Option<Rules>, Status>
    ensures gives { GivesRules F.Files K.Sink rules.now (reading files.old sink.old) (reading files.new sink.new) result }
    ensures asks { F.tells → AsksNames (listed rules.now) (F.asked files.old) (F.asked files.new) result }
    ensures stays { F.tells → (file : List ℕ) → F.holds files.new file ≡ F.holds files.old file }
    ensures past { F.tells → (file : List ℕ) → F.past files.new file ≡ F.past files.old file }
{
    let Some(name) = rules else {
        return Ok(None);
    };
    match read_rules(alloc, files, name.text()) {
        Ok(rules) => Ok(Some(rules)),
        Err(Unruled::Refused(refusal)) => Err(say_rules_refusal(alloc, sink, refusal)),
        Err(Unruled::FileFault) => Err(Status::FILE_FAULT),
        Err(Unruled::NoMemory) => Err(Status::NO_MEMORY),
    }
}

/// The keys of a file, if there is one.
fn take_keys<F: Files, K: Sink>(
    alloc: Global,
    keys: &Option<Word>,
    files: &mut F,
    sink: &mut K,
) -> Result<Option<KeyFile>, Status>
    ensures gives { GivesKeys F.Files K.Sink keys.now (reading files.old sink.old) (reading files.new sink.new) result }
    ensures asks { F.tells → AsksNames (listed keys.now) (F.asked files.old) (F.asked files.new) result }
    ensures stays { F.tells → (file : List ℕ) → F.holds files.new file ≡ F.holds files.old file }
    ensures past { F.tells → (file : List ℕ) → F.past files.new file ≡ F.past files.old file }
{
    let Some(name) = keys else {
        return Ok(None);
    };
    match read_keys(alloc, files, name.text()) {
        Ok(file) => Ok(Some(file)),
        Err(Unkeyed::Refused(refusal)) => Err(say_keys_refusal(alloc, sink, refusal)),
        Err(Unkeyed::FileFault) => Err(Status::FILE_FAULT),
        Err(Unkeyed::NoMemory) => Err(Status::NO_MEMORY),
    }
}

/// Tells each device that a plan names where its points are, if there is a plan.
fn take_plan<F: Files, K: Sink, A: Actuators>(
    alloc: Global,
    plan: &Option<Word>,
    catalogue: &Catalogue,
    files: &mut F,
    sink: &mut K,
    devices: &mut Vec<A>,
) -> Result<(), Status>
    ensures gives { GivesPlan F.Files K.Sink A.Actuators plan.now catalogue.now
        (setting files.old sink.old devices.old.items) (setting files.new sink.new devices.new.items) result }
    ensures asks { F.tells → AsksNames (listed plan.now) (F.asked files.old) (F.asked files.new) result }
    ensures stays { F.tells → (file : List ℕ) → F.holds files.new file ≡ F.holds files.old file }
    ensures past { F.tells → (file : List ℕ) → F.past files.new file ≡ F.past files.old file }
{
    let Some(name) = plan else {
        return Ok(());
    };
    match assign_plan(alloc, files, name.text(), catalogue, devices) {
        Ok(()) => Ok(()),
        Err(Unplanned::Refused(refusal)) => {
            Err(say_plan_refusal(alloc, sink, catalogue, refusal))
        }
        Err(Unplanned::FileFault) => Err(Status::FILE_FAULT),
        Err(Unplanned::NoMemory) => Err(Status::NO_MEMORY),
    }
}

/// Tells why a plan was refused under a catalogue.
fn say_plan_refusal<K: Sink>(
    alloc: Global,
    sink: &mut K,
    catalogue: &Catalogue,
    refusal: PlanRefusal,
) -> Status
    ensures { TellsLine K.Sink (refusal_line catalogue.now refusal) 17 sink.old sink.new result.0 }
{
    match refusal_line(alloc, catalogue, refusal) {
        Ok(line) => say(sink, &line, Status::PLAN),
        Err(_) => Status::NO_MEMORY,
    }
}
