ghost use Rattle.std.specs.Prelude.{◌≤◌, length, IfOk};

use boss_outside::Failed;
use std::io::{ErrorKind, Read};

/// How often a read is tried that a signal came between.
const TRIES: u32 = 1_000;

/// Reads, and tries again where a signal came between.
pub fn read_past_signals<R: Read>(reader: &mut R, into: &mut [u8]) -> Result<usize, Failed>
    ensures { IfOk result (λ count. count ≤ length into.new) }
{
    for _ in 0..TRIES {
        match reader.read(into) {
            Ok(count) => return Ok(count),
            Err(error) if error.kind() == ErrorKind::Interrupted => {}
            Err(_) => return Err(Failed),
        }
    }
    Err(Failed)
}
