ghost use Rattle.std.specs.Prelude.{◌≡◌, ◌<◌};
ghost use Rattle.boss_numbers.specs.Nearest.{IsSingle};

use crate::nearest::nearest;

/// The bits of the binary32 that is nearest to `n / d`. Zero has no sign.
pub fn bits_of(n: i64, d: u64) -> u32
    requires { 0 < d }
    ensures { IsSingle n d result }
{
    let size = nearest(n.unsigned_abs(), d);
    if n < 0 { size + 0x8000_0000 } else { size }
}
