ghost use Rattle.std.specs.Prelude.{◌≡◌, ◌++◌, IfOk, OnOk};
ghost use Rattle.boss_load.specs.Day.{load_catalogue, point_text};

use crate::text::{put, put_number};
use boss_model::{Items, NoMemory};
use std::alloc::Global;

/// How many points the plant has.
const POINTS: u64 = 40;

/// The file of the plant's catalogue, as TOML: one driver, `field`, and the points `p0` to `p39`, analog from 0 to 100,000
/// with the relinquish default 20,000. `NoMemory` comes only where no memory is to be had.
#[tactic(auto, using(crate::proofs::Ranges::flat_map_next), unfolding(crate::specs::Day::load_catalogue))]
pub fn load_catalogue(alloc: Global) -> Result<Items<u8>, NoMemory>
    ensures { IfOk result (λ file. file ≡ load_catalogue) }
{
    let mut file = Vec::from_slice(alloc, b"drivers = [\"field\"]\n")?;
    for point in 0..POINTS {
        put_point(&mut file, point)?;
    }
    Ok(Items::from_vec(file))
}

/// Puts a point behind the file.
#[tactic(auto, unfolding(crate::specs::Day::point_text))]
fn put_point(file: &mut Vec<u8>, point: u64) -> Result<(), NoMemory>
    ensures { OnOk result (file.new.items ≡ file.old.items ++ point_text point) }
{
    put(file, b"\n[[point]]\nname = \"p")?;
    put_number(file, point)?;
    put(
        file,
        b"\"\ndriver = \"field\"\nkind = \"analog\"\nmin = 0\nmax = 100000\ndefault = 20000\n",
    )
}
