//! A key that somebody shows.

ghost use Rattle.std.specs.Prelude.{◌≡◌};
ghost use Rattle.std.specs.List.{list_all};
ghost use Rattle.boss_keys.specs.Admission.{digest_of, is_key, is_key_byte};

use crate::{DIGEST_LENGTH, LONGEST_KEY, SHORTEST_KEY};
use sha2::{Digest, Sha256};

/// Whether these bytes may be a key at all.
pub(crate) fn is_key(bytes: &[u8]) -> bool
    ensures { result ≡ is_key bytes.now }
{
    match bytes.len() {
        SHORTEST_KEY..=LONGEST_KEY => all_may_stand_in_key(bytes),
        _ => false,
    }
}

/// Whether a key may have each of these bytes.
fn all_may_stand_in_key(bytes: &[u8]) -> bool
    ensures { result ≡ list_all is_key_byte bytes.now }
{
    bytes.iter().all(|byte| may_stand_in_key(*byte))
}

/// Whether a key may have this byte.
fn may_stand_in_key(byte: u8) -> bool
    ensures { result ≡ is_key_byte byte }
{
    matches!(byte, b'A'..=b'Z' | b'a'..=b'z' | b'0'..=b'9' | b'_' | b'-')
}

/// SHA-256 of the characters of a key, in hexadecimal.
pub(crate) fn digest_of(key: &[u8]) -> [u8; DIGEST_LENGTH]
    ensures { result ≡ digest_of key.now }
{
    let digest = Sha256::digest(key);
    let mut digits = [0; DIGEST_LENGTH];
    match hex::encode_to_slice(digest.as_slice(), digits.as_mut_slice()) {
        Ok(()) => digits,
        Err(_) => unreachable!(),
    }
}
