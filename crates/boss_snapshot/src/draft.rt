ghost use Rattle.std.specs.Prelude.{◌≤◌};

use crate::block::Block;

/// The end of a disk that a state is written to, behind its byte 0, and the bytes that are gathered for this place.
#[derive(Drop)]
pub struct Draft {
    pub place: u64,
    pub block: Block,
    ghost behind: { 1 ≤ place },
}
