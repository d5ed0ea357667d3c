ghost use Rattle.std.specs.Prelude.{◌≡◌, IfOk, IfSome, string_bytes};
ghost use Rattle.boss_etcd_opening.specs.Values.{base64_of};

use base64::DecodeAllocError;
use base64::engine::general_purpose::STANDARD;
use boss_model::NoMemory;
use std::alloc::Global;

/// The text that stands for bytes.
#[tactic(auto, unfolding(crate::specs::Values::base64_of))]
pub fn encoded(alloc: Global, bytes: &[u8]) -> Result<String, NoMemory>
    ensures { IfOk result (λ text. string_bytes text ≡ base64_of bytes.now) }
{
    Ok(STANDARD.encode(alloc, bytes)?)
}

/// The bytes that a text stands for, if it stands for any.
#[tactic(auto, using(crate::proofs::Keys::standard_is_strict), unfolding(crate::specs::Values::base64_of))]
pub fn decoded(alloc: Global, text: &str) -> Result<Option<Vec<u8>>, NoMemory>
    ensures { IfOk result (λ bytes. IfSome bytes (λ bytes. text.now ≡ base64_of bytes.items)) }
{
    match STANDARD.decode(alloc, text.as_bytes()) {
        Ok(bytes) => Ok(Some(bytes)),
        Err(DecodeAllocError::OutOfMemory) => Err(NoMemory),
        Err(DecodeAllocError::DecodeError(_)) => Ok(None),
    }
}
