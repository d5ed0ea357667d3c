//! What the keys of a plan's file spell. `table_of`, `array_at` and `text_at` look up what those of boss_points do, which
//! gives them to no other crate; their definitions are its own.

ghost use Rattle.std.specs.Prelude.{◌≡◌, ◌*ℤ◌, option_map, option_copied, IfErr};
ghost use Rattle.std.specs.Option.{ok_or};
ghost use Rattle.toml.specs.View.{view};
ghost use Rattle.boss_plans.specs.declared.refusal.PlanRefusal.TheVariants.{NotToml};
ghost use Rattle.boss_model.specs.Catalogue.{Catalogue};
ghost use Rattle.boss_points.specs.Keys.{array_at, text_at};
ghost use Rattle.boss_points.specs.Reading.{table_of};
ghost use Rattle.boss_points.specs.Seen.{views};
ghost use Rattle.boss_plans.specs.Keys.{host_of, interval_at, interval_in, is_shift, natural_between, natural_in, natural_up_to, offset_in, offset_of, per_in, per_of, protocol_in, protocol_named, speaks_of, times_of, tries_in, tries_of, usual_tries, usual_wait, wait_of};
ghost use Rattle.boss_plans.specs.Plans.{Gives, IsKnown};

use crate::PlanRefusal;
use boss_model::Protocol;
use std::alloc::Global;
use toml::Value;

/// The longest host, in bytes.
const LONGEST_HOST: usize = 255;

/// The most that one of a register may stand for, in thousandths of a point's unit.
const GREATEST_PER: i64 = 1_000_000_000_000_000;

/// How long a host is waited for at least and at most, in milliseconds. Over Modbus it is the longest where no plan says how long.
const LEAST_WAIT: u16 = 50;

const LONGEST_WAIT: u16 = 5_000;

/// How long one that speaks BACnet is waited for where no plan says how long.
const BACNET_WAIT: u64 = 2_000;

/// How often a request over BACnet is sent at most, and where no plan says how often.
const MOST_TRIES: u16 = 4;

const BACNET_TRIES: u8 = 2;

/// What lies at least and at most between two checks of a place, or two writes of one value, in milliseconds.
const LEAST_INTERVAL: i64 = 1_000;

const LONGEST_INTERVAL: i64 = 86_400_000;

/// The most that a value is multiplied by.
const MOST_TIMES: u16 = 1_000;

/// How far a register may have another number for 0 than 0, in its own units, and in thousandths.
const GREATEST_OFFSET: i64 = 1_000_000_000;

const GREATEST_SHIFT: i128 = 1_000_000_000_000_000_000;

/// The table that a file writes.
pub(crate) fn table_of(alloc: Global, bytes: &[u8]) -> Result<Value, PlanRefusal>
    ensures table { Gives view result (ok_or (table_of bytes.now) NotToml) }
    ensures known { IfErr result (λ refusal. (catalogue : Catalogue) → IsKnown catalogue refusal) }
{
    let Ok(text) = str::from_utf8(bytes) else {
        return Err(PlanRefusal::NotToml);
    };
    match toml::table_from_str(alloc, text) {
        Ok(table) => Ok(Value::Table(table)),
        Err(error) if error.is_memory() => Err(PlanRefusal::NoMemory),
        Err(_) => Err(PlanRefusal::NotToml),
    }
}

/// The array under a key.
#[tactic(auto, using(boss_points::proofs::Views::list_of_views))]
pub(crate) fn array_at<'a>(file: &'a Value, key: &str) -> Option<&'a [Value]>
    ensures { option_map (λ items. views items.now) result ≡ array_at key.now (view file.now) }
{
    let items = file.get(key)?.as_array()?;
    Some(items.as_slice())
}

/// The text under a key.
pub(crate) fn text_at<'a>(table: &'a Value, key: &str) -> Option<&'a str>
    ensures { option_copied result ≡ text_at key.now (view table.now) }
{
    table.get(key)?.as_str()
}

/// A whole number from 0 up to this.
fn natural_up_to(most: u16, number: i64) -> Option<u16>
    ensures { result ≡ natural_up_to most number }
{
    if 0 <= number && number <= i64::from(most) {
        Some(number as u16)
    } else {
        None
    }
}

/// The whole number from 0 up to this that a value spells.
pub(crate) fn natural_in(most: u16, value: &Value) -> Option<u16>
    ensures { result ≡ natural_in most (view value.now) }
{
    natural_up_to(most, value.as_integer()?)
}

/// The whole number between these that a value spells.
pub(crate) fn natural_between(least: u16, most: u16, value: &Value) -> Option<u16>
    ensures { result ≡ natural_between least most (view value.now) }
{
    let number = natural_in(most, value)?;
    if least <= number { Some(number) } else { None }
}

/// The host of a driver.
pub(crate) fn host_of(driver: &Value) -> Option<&str>
    ensures { option_copied result ≡ host_of (view driver.now) }
{
    let host = text_at(driver, "host")?;
    if 1 <= host.len() && host.len() <= LONGEST_HOST {
        Some(host)
    } else {
        None
    }
}

/// The protocol of this name.
fn protocol_named(name: &str) -> Option<Protocol>
    ensures { result ≡ protocol_named name.now }
{
    match name {
        "modbus" => Some(Protocol::Modbus),
        "bacnet" => Some(Protocol::Bacnet),
        _ => None,
    }
}

fn protocol_in(value: &Value) -> Option<Protocol>
    ensures { result ≡ protocol_in (view value.now) }
{
    protocol_named(value.as_str()?)
}

/// What a driver's host speaks: Modbus where the key is missing.
pub(crate) fn speaks_of(driver: &Value) -> Option<Protocol>
    ensures { result ≡ speaks_of (view driver.now) }
{
    match driver.get("speaks") {
        Some(value) => protocol_in(value),
        None => Some(Protocol::Modbus),
    }
}

/// How long a host is waited for where the key is missing.
fn usual_wait(speaks: Protocol) -> u64
    ensures { result ≡ usual_wait speaks }
{
    match speaks {
        Protocol::Modbus => u64::from(LONGEST_WAIT),
        Protocol::Bacnet => BACNET_WAIT,
    }
}

/// How long a driver's host is waited for, in milliseconds.
pub(crate) fn wait_of(speaks: Protocol, driver: &Value) -> Option<u64>
    ensures { result ≡ wait_of speaks (view driver.now) }
{
    match driver.get("wait") {
        Some(value) => Some(u64::from(natural_between(LEAST_WAIT, LONGEST_WAIT, value)?)),
        None => Some(usual_wait(speaks)),
    }
}

/// How often a request is sent at most, as a value spells it, which no driver over Modbus has.
fn tries_in(speaks: Protocol, value: &Value) -> Option<u8>
    ensures { result ≡ tries_in speaks (view value.now) }
{
    match speaks {
        Protocol::Modbus => None,
        Protocol::Bacnet => Some(natural_between(1, MOST_TRIES, value)? as u8),
    }
}

/// How often a request is sent where the key is missing.
fn usual_tries(speaks: Protocol) -> u8
    ensures { result ≡ usual_tries speaks }
{
    match speaks {
        Protocol::Modbus => 1,
        Protocol::Bacnet => BACNET_TRIES,
    }
}

/// How often a driver's request is sent at most.
pub(crate) fn tries_of(speaks: Protocol, driver: &Value) -> Option<u8>
    ensures { result ≡ tries_of speaks (view driver.now) }
{
    match driver.get("tries") {
        Some(value) => tries_in(speaks, value),
        None => Some(usual_tries(speaks)),
    }
}

/// How often something is done, in milliseconds, as a value spells it: 0 for never.
fn interval_in(value: &Value) -> Option<u64>
    ensures { result ≡ interval_in (view value.now) }
{
    let interval = value.as_integer()?;
    if interval == 0 || (LEAST_INTERVAL <= interval && interval <= LONGEST_INTERVAL) {
        Some(interval as u64)
    } else {
        None
    }
}

/// How often a table says that something is done: as usual where the key is missing.
pub(crate) fn interval_at(key: &str, usual: u64, table: &Value) -> Option<u64>
    ensures { result ≡ interval_at key.now usual (view table.now) }
{
    match table.get(key) {
        Some(value) => interval_in(value),
        None => Some(usual),
    }
}

/// By how much a value is multiplied: 1 where the key is missing.
pub(crate) fn times_of(place: &Value) -> Option<u16>
    ensures { result ≡ times_of (view place.now) }
{
    match place.get("times") {
        Some(value) => natural_between(1, MOST_TIMES, value),
        None => Some(1),
    }
}

/// What one of a register stands for, as a value spells it.
fn per_in(value: &Value) -> Option<i64>
    ensures { result ≡ per_in (view value.now) }
{
    let per = value.as_integer()?;
    if 1 <= per && per <= GREATEST_PER {
        Some(per)
    } else {
        None
    }
}

/// What one of a place's register stands for: 1 where the key is missing.
pub(crate) fn per_of(place: &Value) -> Option<i64>
    ensures { result ≡ per_of (view place.now) }
{
    match place.get("per") {
        Some(value) => per_in(value),
        None => Some(1),
    }
}

/// What a register has for 0, as a value spells it.
fn offset_in(value: &Value) -> Option<i64>
    ensures { result ≡ offset_in (view value.now) }
{
    let offset = value.as_integer()?;
    if -GREATEST_OFFSET <= offset && offset <= GREATEST_OFFSET {
        Some(offset)
    } else {
        None
    }
}

/// What a place's register has for 0: 0 where the key is missing.
pub(crate) fn offset_of(place: &Value) -> Option<i64>
    ensures { result ≡ offset_of (view place.now) }
{
    match place.get("offset") {
        Some(value) => offset_in(value),
        None => Some(0),
    }
}

/// Whether what an offset comes to in thousandths is within bounds.
pub(crate) fn is_shift(offset: i64, per: i64) -> bool
    ensures { result ≡ is_shift (offset *ℤ per) }
{
    let shift = i128::from(offset) * i128::from(per);
    -GREATEST_SHIFT <= shift && shift <= GREATEST_SHIFT
}
