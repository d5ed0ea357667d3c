ghost use Rattle.std.specs.Prelude.{◌≡◌, ◌<◌, [], length, IfErr};
ghost use Rattle.std.specs.List.{position_from};
ghost use Rattle.std.specs.Str.{bytes_eq};
ghost use Rattle.toml.specs.View.{view};
ghost use Rattle.boss_points.specs.Seen.{views};
ghost use Rattle.boss_plans.specs.Places.{is_named, planned_in, is_planned, terms_in, terms_of};
ghost use Rattle.boss_plans.specs.Plans.{Gives, IsKnown, hosts_from};

use crate::PlanRefusal;
use crate::keys::{host_of, interval_at, speaks_of, text_at, tries_of, wait_of};
use boss_model::{DriverId, Items, Protocol};
use boss_points::Catalogue;
use std::alloc::Global;
use toml::Value;

/// A driver of the plan, the host that it is reached at, how long that is waited for, in milliseconds, how often a request is sent at most,
/// and what its places are read by.
#[derive(Debug, Drop)]
pub struct Host {
    pub driver: DriverId,
    pub host: Items<u8>,
    pub wait: u64,
    pub tries: u8,
    pub terms: Terms,
}

/// What the places of a driver are read by: what its host speaks, and how often each is checked and written once more where its table does
/// not say so, in milliseconds.
#[derive(Clone, Copy, Debug, PartialEq, Eq)]
pub struct Terms {
    pub speaks: Protocol,
    pub check: u64,
    pub again: u64,
}

/// The drivers of these tables, which are all different.
pub(crate) fn hosts_of(
    alloc: Global,
    catalogue: &Catalogue,
    tables: &[Value],
) -> Result<Vec<Host>, PlanRefusal>
    ensures hosts { Gives (λ hosts. hosts.items) result (hosts_from catalogue.now 0 [] (views tables.now)) }
    ensures known { IfErr result (IsKnown catalogue.now) }
{
    let mut hosts = Vec::with_capacity(alloc, tables.len())?;
    for (at, table) in tables.iter().enumerate() {
        let place = at as u64;
        let refusal = PlanRefusal::BadDriver { place };
        let driver = planned_in(catalogue, &hosts, table).ok_or(refusal)?;
        let host = host_of(table).ok_or(refusal)?;
        let terms = terms_in(table).ok_or(refusal)?;
        let wait = wait_of(terms.speaks, table).ok_or(refusal)?;
        let tries = tries_of(terms.speaks, table).ok_or(refusal)?;
        let host = Items::from_vec(host.as_bytes().to_vec(alloc)?);
        hosts.push(Host {
            driver,
            host,
            wait,
            tries,
            terms,
        })?;
    }
    Ok(hosts)
}

/// What the places of the driver of a table are read by.
fn terms_in(table: &Value) -> Option<Terms>
    ensures { result ≡ terms_in (view table.now) }
{
    let speaks = speaks_of(table)?;
    let check = interval_at("check", 0, table)?;
    let again = interval_at("again", 0, table)?;
    Some(Terms {
        speaks,
        check,
        again,
    })
}

/// What the places of a driver are read by, where it has a host among these.
pub(crate) fn terms_of(hosts: &[Host], driver: DriverId) -> Option<Terms>
    ensures { result ≡ terms_of hosts.now driver }
{
    for host in hosts {
        if host.driver == driver {
            return Some(host.terms);
        }
    }
    None
}

/// The driver that a table names, where no earlier one named it.
fn planned_in(catalogue: &Catalogue, earlier: &[Host], table: &Value) -> Option<DriverId>
    ensures { result ≡ planned_in catalogue.now earlier.now (view table.now) }
{
    let name = text_at(table, "name")?;
    let driver = driver_named(catalogue, name.as_bytes())?;
    if is_planned(earlier, driver) {
        return None;
    }
    Some(driver)
}

/// The driver of this name.
fn driver_named(catalogue: &Catalogue, name: &[u8]) -> Option<DriverId>
    ensures { result ≡ position_from (λ other. bytes_eq other name.now) 0 catalogue.now.drivers }
{
    for place in 0..catalogue.drivers() {
        if is_named(catalogue, DriverId(place), name) {
            return Some(DriverId(place));
        }
    }
    None
}

/// Whether the driver has this name.
fn is_named(catalogue: &Catalogue, driver: DriverId, name: &[u8]) -> bool
    requires { driver < length catalogue.now.drivers }
    ensures { result ≡ is_named catalogue.now driver name.now }
{
    catalogue.driver_name(driver).bytes() == name
}

/// Whether the driver has a host among these.
pub(crate) fn is_planned(hosts: &[Host], driver: DriverId) -> bool
    ensures { result ≡ is_planned hosts.now driver }
{
    hosts.iter().any(|host| host.driver == driver)
}
