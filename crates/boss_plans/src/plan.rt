ghost use Rattle.std.specs.Prelude.{◌≡◌, IfOk, IfErr, map, filter};
ghost use Rattle.toml.specs.View.{view};
ghost use Rattle.boss_plans.specs.declared.refusal.PlanRefusal.TheVariants.{NoMemory};
ghost use Rattle.boss_plans.specs.Places.{is_of_driver};
ghost use Rattle.boss_plans.specs.Plans.{Gives, IsKnown, plan_in, plan_of, part_of};

use crate::hosts::{Host, hosts_of};
use crate::keys::{array_at, table_of};
use crate::places::{first_lacking, places_of};
use crate::{PlanKey, PlanRefusal};
use boss_model::{DriverId, DriverPlan, Items, LONGEST_FILE, Place};
use boss_points::Catalogue;
use std::alloc::Global;
use std::marker::Model;
use toml::Value;

/// What the device of one driver is assigned: the host that it is reached at, and the places of the driver's points.
#[derive(Debug, Drop)]
pub struct Part {
    pub driver: DriverId,
    pub plan: DriverPlan,
}

/// The drivers of a catalogue that are reached at a host, and where their points are there: a part for each, in the order
/// of the file. A contract sees it as the list of these.
#[derive(Debug, Drop)]
pub struct Plan {
    parts: Vec<Part>,
}

impl Model for Plan {
    ghost use Rattle.std.specs.Prelude.{List};
    ghost use Rattle.boss_plans.specs.declared.plan.Part.{Part as Parts};

    ghost Value = { List Parts };

    ghost view = { λ p. p.parts.items };
}

impl Plan {
    /// The plan that a file spells, in TOML, for the points of this catalogue. Keys that mean nothing here are passed over.
    #[tactic(auto, unfolding(crate::specs::Plans::plan_of))]
    pub fn read(alloc: Global, catalogue: &Catalogue, bytes: &[u8]) -> Result<Plan, PlanRefusal>
        ensures plan { Gives (λ plan. plan) result (plan_of catalogue.now bytes.now) }
        ensures known { IfErr result (IsKnown catalogue.now) }
    {
        if bytes.len() > LONGEST_FILE {
            let length = bytes.len() as u64;
            return Err(PlanRefusal::TooLong { length });
        }
        let file = table_of(alloc, bytes)?;
        Plan::in_file(alloc, catalogue, &file)
    }

    /// The plan that a file's table spells.
    fn in_file(alloc: Global, catalogue: &Catalogue, file: &Value) -> Result<Plan, PlanRefusal>
        ensures plan { Gives (λ plan. plan) result (plan_in catalogue.now (view file.now)) }
        ensures known { IfErr result (IsKnown catalogue.now) }
    {
        let drivers = array_at(file, "driver").ok_or(PlanRefusal::Missing {
            key: PlanKey::Driver,
        })?;
        let tables = array_at(file, "place").ok_or(PlanRefusal::Missing {
            key: PlanKey::Place,
        })?;
        let hosts = hosts_of(alloc, catalogue, drivers)?;
        let places = places_of(alloc, catalogue, &hosts, tables)?;
        if let Some(point) = first_lacking(catalogue, &hosts, &places) {
            return Err(PlanRefusal::NoPlace { point });
        }
        let parts = parts_of(alloc, catalogue, hosts, &places)?;
        Ok(Plan { parts })
    }

    /// The parts, in the order of the file. No memory is taken.
    pub fn into_parts(self) -> Vec<Part>
        ensures { result.items ≡ self }
    {
        let Plan { parts } = self;
        parts
    }
}

/// The parts of these drivers.
fn parts_of(
    alloc: Global,
    catalogue: &Catalogue,
    hosts: Vec<Host>,
    places: &[Place],
) -> Result<Vec<Part>, PlanRefusal>
    ensures parts { IfOk result (λ parts. parts.items ≡ map (part_of catalogue.now places.now) hosts.items) }
    ensures memory { IfErr result (λ refusal. refusal ≡ NoMemory) }
{
    let mut parts = Vec::with_capacity(alloc, hosts.len())?;
    for host in hosts {
        let Host {
            driver,
            host,
            wait,
            tries,
            terms,
        } = host;
        let places = Items::from_vec(places_of_driver(alloc, catalogue, driver, places)?);
        let plan = DriverPlan {
            host,
            speaks: terms.speaks,
            wait,
            tries,
            places,
        };
        parts.push(Part { driver, plan })?;
    }
    Ok(parts)
}

/// The places of the points of one driver.
fn places_of_driver(
    alloc: Global,
    catalogue: &Catalogue,
    driver: DriverId,
    places: &[Place],
) -> Result<Vec<Place>, PlanRefusal>
    ensures places { IfOk result (λ own. own.items ≡ filter (is_of_driver catalogue.now driver) places.now) }
    ensures memory { IfErr result (λ refusal. refusal ≡ NoMemory) }
{
    let mut own = Vec::new(alloc);
    for place in places {
        if is_of_driver(catalogue, driver, *place) {
            own.push(*place)?;
        }
    }
    Ok(own)
}

/// Whether a place is of a point of this driver.
fn is_of_driver(catalogue: &Catalogue, driver: DriverId, place: Place) -> bool
    ensures { result ≡ is_of_driver catalogue.now driver place }
{
    place.point.0 < catalogue.count() && catalogue.point(place.point).driver == driver
}
