ghost use Rattle.std.specs.Prelude.{◌≡◌, ◌≤◌, ◌<◌, [], codes, map, pos, Some, None, length, option_copied, option_map, IfSome};
ghost use Rattle.serde_json.specs.Find.{as_str};
ghost use Rattle.def_wire.specs.Keys.{at_least, name, number_from, number_within, policy, seq, short_list, under, under_or, whole, within};
ghost use Rattle.boss_model.specs.declared.Policy.TheVariants.{Abort as AbortPolicy};
ghost use Rattle.boss_model.specs.Limits.{last_number, most_writes};
ghost use Rattle.boss_model.specs.Sound.{IsName};

use boss_json::JsonValue;
use boss_model::{LAST_NUMBER, MOST_WRITES, Name, Policy};

/// The priority of a write that names none: the lowest (ASHRAE 135, clause 19.2).
const DEFAULT_PRIORITY: i64 = 16;

/// The bytes of the text under a key.
#[inline(always)]
pub(crate) fn text_under<'a, V: JsonValue>(value: &'a V, key: &str) -> Option<&'a [u8]>
    ensures { option_copied result ≡ under key.now as_str (V.meaning value.now) }
{
    value.under(key)?.text()
}

/// The whole number under a key.
#[inline(always)]
pub(crate) fn whole_under<V: JsonValue>(value: &V, key: &str) -> Option<i64>
    ensures { result ≡ under key.now whole (V.meaning value.now) }
{
    value.under(key)?.whole()
}

/// The priority of a write.
pub(crate) fn priority_of<V: JsonValue>(value: &V) -> Option<i64>
    ensures { result ≡ under_or (codes "priority") whole (pos 16) (V.meaning value.now) }
{
    match value.under("priority") {
        Some(priority) => priority.whole(),
        None => Some(DEFAULT_PRIORITY),
    }
}

/// The number, if it is at least `low`.
fn at_least(low: u32, number: i64) -> Option<u64>
    ensures number { result ≡ at_least low number }
    ensures within { IfSome result (λ number. low ≤ number) }
{
    if i64::from(low) <= number {
        Some(number as u64)
    } else {
        None
    }
}

/// The number, if it is from `low` up to and with `high`.
fn within(low: u32, high: u64, number: i64) -> Option<u64>
    ensures number { result ≡ within low high number }
    ensures within { IfSome result (λ number. (low ≤ number) × (number ≤ high)) }
{
    let number = at_least(low, number)?;
    if number <= high { Some(number) } else { None }
}

/// The number under a key: a whole number of at least 0.
#[inline(always)]
pub(crate) fn number_under<V: JsonValue>(value: &V, key: &str) -> Option<u64>
    ensures { result ≡ under key.now (number_from 0) (V.meaning value.now) }
{
    at_least(0, whole_under(value, key)?)
}

/// The number under a key, from `low` up to and with `high`, or the default where the key is missing.
#[inline(always)]
pub(crate) fn number_within<V: JsonValue>(
    value: &V,
    key: &str,
    low: u32,
    high: u64,
    default: u64,
) -> Option<u64>
    requires { (low ≤ default) × (default ≤ high) }
    ensures number { result ≡ under_or key.now (number_within low high) default (V.meaning value.now) }
    ensures within { IfSome result (λ number. (low ≤ number) × (number ≤ high)) }
{
    match value.under(key) {
        Some(found) => within(low, high, found.whole()?),
        None => Some(default),
    }
}

/// The number of the first notice that is asked for: from 1.
pub(crate) fn first_notice<V: JsonValue>(value: &V) -> Option<u64>
    ensures number { result ≡ under_or (codes "from") (number_from 1) 1 (V.meaning value.now) }
    ensures within { IfSome result (λ number. 1 ≤ number) }
{
    match value.under("from") {
        Some(found) => at_least(1, found.whole()?),
        None => Some(1),
    }
}

/// The number that a process gives a request: from 1 up to 2^62 - 1, or 0 where the line has none.
pub(crate) fn seq_of<V: JsonValue>(value: &V) -> Option<u64>
    ensures number { result ≡ under_or (codes "seq") seq 0 (V.meaning value.now) }
    ensures within { IfSome result (λ number. number < last_number) }
{
    match value.under("seq") {
        Some(found) => within(1, LAST_NUMBER - 1, found.whole()?),
        None => Some(0),
    }
}

/// The name that a value spells.
fn name_spelled<V: JsonValue>(value: &V) -> Option<Name>
    ensures { result ≡ name (V.meaning value.now) }
{
    let text = value.text()?;
    Name::new(text)
}

/// The name of the process that a line is about.
pub(crate) fn process_of<V: JsonValue>(value: &V) -> Option<Name>
    ensures name { result ≡ under (codes "process") name (V.meaning value.now) }
    ensures form { IsName result }
{
    name_spelled(value.under("process")?)
}

/// The name of a process, where one is given; none at all where what is given is no name.
pub(crate) fn some_process_of<V: JsonValue>(value: &V) -> Option<Option<Name>>
    ensures name { result ≡ under_or (codes "process") (λ p. option_map Some (name p)) None (V.meaning value.now) }
    ensures form { IfSome result IsName }
{
    match value.under("process") {
        Some(found) => Some(Some(name_spelled(found)?)),
        None => Some(None),
    }
}

/// The policy of a submit.
pub(crate) fn policy_of<V: JsonValue>(value: &V) -> Option<Policy>
    ensures { result ≡ under_or (codes "policy") policy AbortPolicy (V.meaning value.now) }
{
    match value.under("policy") {
        Some(found) => policy_spelled(found),
        None => Some(Policy::Abort),
    }
}

/// The policy that a value spells.
fn policy_spelled<V: JsonValue>(value: &V) -> Option<Policy>
    ensures { result ≡ policy (V.meaning value.now) }
{
    match value.text()? {
        b"abort" => Some(Policy::Abort),
        b"keep" => Some(Policy::Keep),
        _ => None,
    }
}

/// The items of an array of 1 to 32.
fn short_list_in<V: JsonValue>(value: &V) -> Option<&[V]>
    ensures items { option_map (λ items. map V.meaning items.now) result ≡ short_list (V.meaning value.now) }
    ensures short { IfSome result (λ items. (1 ≤ length items.now) × (length items.now ≤ most_writes)) }
{
    let items = value.list()?;
    match items.len() {
        1..=MOST_WRITES => Some(items),
        _ => None,
    }
}

/// The writes of a submit, 1 to 32.
pub(crate) fn writes_of<V: JsonValue>(value: &V) -> Option<&[V]>
    ensures items { option_map (λ items. map V.meaning items.now) result ≡ under (codes "writes") short_list (V.meaning value.now) }
    ensures short { IfSome result (λ items. (1 ≤ length items.now) × (length items.now ≤ most_writes)) }
{
    short_list_in(value.under("writes")?)
}

/// The names of the points of a renewal, 1 to 32, or none.
pub(crate) fn points_of<V: JsonValue>(value: &V) -> Option<&[V]>
    ensures items { option_map (λ items. map V.meaning items.now) result ≡ under_or (codes "points") short_list [] (V.meaning value.now) }
    ensures short { IfSome result (λ items. length items.now ≤ most_writes) }
{
    match value.under("points") {
        Some(found) => short_list_in(found),
        None => Some(&[]),
    }
}
