ghost use Rattle.std.specs.Prelude.{◌≡◌, ◌≢◌, string_bytes, IfOk};
ghost use Rattle.boss_files.specs.Names.{second_name};

use boss_model::NoMemory;
use std::alloc::Global;

/// The name of a journal's second file: `.b` stands behind that of the first.
pub fn second_name(alloc: Global, journal: &str) -> Result<String, NoMemory>
    ensures name { IfOk result (λ name. string_bytes name ≡ second_name journal.now) }
    ensures other { journal.now ≢ second_name journal.now }
{
    let mut name = String::from_str(alloc, journal)?;
    name.push_str(".b")?;
    Ok(name)
}
