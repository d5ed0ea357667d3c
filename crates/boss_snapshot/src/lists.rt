ghost use Rattle.std.specs.Prelude.{map};
ghost use Rattle.std.specs.Int.{w16, w32};
ghost use Rattle.def_bytes.specs.Parts.{listed};
ghost use Rattle.boss_records.specs.Given.{Gives};

use boss_records::{Spelled, Unread, read_items, read_u16, read_u32};
use std::alloc::Global;

/// A list with the number of its items in 16 bits.
pub fn read_list16<T: Spelled>(alloc: Global, bytes: &[u8]) -> Result<(Vec<T>, &[u8]), Unread>
    ensures { Gives (λ x. (map T.view x.0.items, x.1.now)) result ((listed w16 T.field).at bytes.now) }
{
    let (count, rest) = read_u16(bytes)?;
    read_items(alloc, u32::from(count), rest)
}

/// A list with the number of its items in 32 bits.
pub fn read_list32<T: Spelled>(alloc: Global, bytes: &[u8]) -> Result<(Vec<T>, &[u8]), Unread>
    ensures { Gives (λ x. (map T.view x.0.items, x.1.now)) result ((listed w32 T.field).at bytes.now) }
{
    let (count, rest) = read_u32(bytes)?;
    read_items(alloc, count, rest)
}
