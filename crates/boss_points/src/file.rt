ghost use Rattle.std.specs.Prelude.{◌≡◌, ◌≤◌, length, option_map, OnOk};
ghost use Rattle.std.specs.Option.{ok_or};
ghost use Rattle.toml.specs.View.{view};
ghost use Rattle.boss_points.specs.declared.refusal.CatalogueRefusal.TheVariants.{NotToml};
ghost use Rattle.boss_points.specs.Given.{Gives};
ghost use Rattle.boss_points.specs.Keys.{array_at};
ghost use Rattle.boss_points.specs.Reading.{table_of, at_most};
ghost use Rattle.boss_points.specs.Seen.{views};

use crate::CatalogueRefusal;
use std::alloc::Global;
use toml::Value;

/// The table that a file writes.
pub(crate) fn table_of(alloc: Global, bytes: &[u8]) -> Result<Value, CatalogueRefusal>
    ensures { Gives view result (ok_or (table_of bytes.now) NotToml) }
{
    let Ok(text) = str::from_utf8(bytes) else {
        return Err(CatalogueRefusal::NotToml);
    };
    match toml::table_from_str(alloc, text) {
        Ok(table) => Ok(Value::Table(table)),
        Err(error) if error.is_memory() => Err(CatalogueRefusal::NoMemory),
        Err(_) => Err(CatalogueRefusal::NotToml),
    }
}

/// The array under a key.
#[tactic(auto, using(crate::proofs::Views::list_of_views))]
pub(crate) fn array_at<'a>(file: &'a Value, key: &str) -> Option<&'a [Value]>
    ensures { option_map (λ items. views items.now) result ≡ array_at key.now (view file.now) }
{
    let items = file.get(key)?.as_array()?;
    Some(items.as_slice())
}

/// Refuses more items than this.
#[tactic(auto, using(crate::proofs::Views::length_views))]
pub(crate) fn at_most(most: usize, items: &[Value]) -> Result<(), CatalogueRefusal>
    ensures refusal { Gives (λ done. done) result (at_most most (views items.now)) }
    ensures few { OnOk result (length items.now ≤ most) }
{
    if items.len() > most {
        let count = items.len() as u64;
        return Err(CatalogueRefusal::TooMany { count });
    }
    Ok(())
}
