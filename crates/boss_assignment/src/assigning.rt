ghost use Rattle.std.specs.Prelude.{◌≡◌, ℕ, List};
ghost use Rattle.boss_assignment.specs.Assignments.{Assigns, AssignsOne, AsksFor, FaultOnly, Planned, Reads};

use boss_files::{FileBytes, FileFault, Files};
use boss_outside::Actuators;
use boss_plans::{Part, Plan, PlanRefusal};
use boss_points::Catalogue;
use std::alloc::Global;

/// How many bytes a plan's file may have.
const LONGEST_FILE: u64 = boss_model::LONGEST_FILE as u64;

/// Why a file gave no plan.
#[derive(Clone, Copy, Debug, PartialEq, Eq)]
pub enum Unplanned {
    /// The file is there and was refused.
    Refused(PlanRefusal),
    /// The file is not there, or could not be read.
    FileFault,
    /// No memory was to be had.
    NoMemory,
}

/// Reads the plan of a file, and tells the devices of each driver that it names where their points are. The devices go by the
/// numbers of their drivers; a driver without devices is passed over. Where there is no plan, no device is told anything.
pub fn assign_plan<F: Files, A: Actuators>(
    alloc: Global,
    files: &mut F,
    name: &str,
    catalogue: &Catalogue,
    devices: &mut Vec<A>,
) -> Result<(), Unplanned>
    ensures planned { Planned F.Files A.Actuators name.now catalogue.now files.old devices.old.items devices.new.items result }
    ensures asks { F.tells → AsksFor name.now (F.asked files.old) (F.asked files.new) result }
    ensures stays { F.tells → (file : List ℕ) → F.holds files.new file ≡ F.holds files.old file }
    ensures past { F.tells → (file : List ℕ) → F.past files.new file ≡ F.past files.old file }
    ensures cause { FaultOnly (F.faults files.old) (F.faults files.new) result }
{
    let plan = read_plan(alloc, files, name, catalogue)?;
    assign_parts(devices, plan);
    Ok(())
}

/// The plan of a file.
fn read_plan<F: Files>(
    alloc: Global,
    files: &mut F,
    name: &str,
    catalogue: &Catalogue,
) -> Result<Plan, Unplanned>
    ensures reads { F.tells → Reads catalogue.now (F.holds files.old name.now) result }
    ensures asks { F.tells → AsksFor name.now (F.asked files.old) (F.asked files.new) result }
    ensures stays { F.tells → (file : List ℕ) → F.holds files.new file ≡ F.holds files.old file }
    ensures past { F.tells → (file : List ℕ) → F.past files.new file ≡ F.past files.old file }
    ensures cause { FaultOnly (F.faults files.old) (F.faults files.new) result }
{
    let bytes = match files.read(alloc, name, LONGEST_FILE) {
        Ok(FileBytes::Whole(bytes)) => bytes,
        Ok(FileBytes::Longer { length }) => {
            return Err(Unplanned::Refused(PlanRefusal::TooLong { length }));
        }
        Err(FileFault::Failed) => return Err(Unplanned::FileFault),
        Err(FileFault::NoMemory) => return Err(Unplanned::NoMemory),
    };
    match Plan::read(alloc, catalogue, bytes.slice()) {
        Ok(plan) => Ok(plan),
        Err(PlanRefusal::NoMemory) => Err(Unplanned::NoMemory),
        Err(refusal) => Err(Unplanned::Refused(refusal)),
    }
}

/// Tells each part of a plan to its driver's devices.
fn assign_parts<A: Actuators>(devices: &mut Vec<A>, plan: Plan)
    ensures { Assigns A.Actuators plan devices.old.items devices.new.items }
{
    for part in plan.into_parts() {
        assign_part(devices, part);
    }
}

/// Tells a part to its driver's devices, where there are such.
fn assign_part<A: Actuators>(devices: &mut Vec<A>, part: Part)
    ensures { AssignsOne A.Actuators part devices.old.items devices.new.items }
{
    let Part { driver, plan } = part;
    if let Some(device) = devices.get_mut(driver.0 as usize) {
        device.assign(plan);
    }
}
