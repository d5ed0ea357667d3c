ghost use Rattle.std.specs.Prelude.{◌≡◌};
ghost use Rattle.toml.specs.View.{view};
ghost use Rattle.boss_keys.specs.Reading.{file_in, keys_of, reserve_in, reserve_of, reserve_spelled, Gives};

use crate::table::table_of;
use crate::{Keys, KeysRefusal, MOST_RESERVE};
use boss_model::LONGEST_FILE;
use std::alloc::Global;
use toml::Value;

/// What a file of keys spells.
#[derive(Debug, Drop)]
pub struct KeyFile {
    /// Whose keys are known.
    pub keys: Keys,
    /// How many workers are kept for whoever shows a key: 0 where the file tells none, up to 1,024.
    pub reserve: u32,
}

impl KeyFile {
    /// What a file spells, in TOML. Keys beside the array `key` and the number `reserve` are passed over.
    #[tactic(auto, unfolding(crate::specs::Reading::keys_of))]
    pub fn read(alloc: Global, bytes: &[u8]) -> Result<KeyFile, KeysRefusal>
        ensures { Gives (λ file. file) result (keys_of bytes.now) }
    {
        if bytes.len() > LONGEST_FILE {
            let length = bytes.len() as u64;
            return Err(KeysRefusal::TooLong { length });
        }
        let file = table_of(alloc, bytes)?;
        KeyFile::spelled(alloc, &file)
    }

    /// What a file's table spells.
    fn spelled(alloc: Global, file: &Value) -> Result<KeyFile, KeysRefusal>
        ensures { Gives (λ file. file) result (file_in (view file.now)) }
    {
        let keys = Keys::in_file(alloc, file)?;
        let reserve = reserve_in(file)?;
        Ok(KeyFile { keys, reserve })
    }
}

/// How many workers a file's table keeps.
fn reserve_in(file: &Value) -> Result<u32, KeysRefusal>
    ensures { Gives (λ reserve. reserve) result (reserve_in (view file.now)) }
{
    match file.get("reserve") {
        Some(value) => reserve_spelled(value).ok_or(KeysRefusal::BadReserve),
        None => Ok(0),
    }
}

/// The number of workers that a value spells.
fn reserve_spelled(value: &Value) -> Option<u32>
    ensures { result ≡ reserve_spelled (view value.now) }
{
    reserve_of(value.as_integer()?)
}

/// A number of workers.
fn reserve_of(number: i64) -> Option<u32>
    ensures { result ≡ reserve_of number }
{
    if 0 <= number && number <= i64::from(MOST_RESERVE) {
        Some(number as u32)
    } else {
        None
    }
}
