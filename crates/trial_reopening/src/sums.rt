// The sums of journals of version 3, taken of the bytes as the format says.
use crate::bytes::{joined, put};
use sha2::{Digest, Sha256};
use std::alloc::Global;
use std::process::Abort;

/// The first eight bytes of SHA-256.
fn first_eight(bytes: &[u8]) -> [u8; 8] {
    let digest = Sha256::digest(bytes);
    let mut first = [0u8; 8];
    first.copy_from_slice(&digest[..8]);
    first
}

/// The seed of a disk whose front has these parts behind byte 0.
pub fn seed_of(rt: &impl Abort, alloc: Global, parts: &[&[u8]]) -> [u8; 8] {
    first_eight(&joined(rt, alloc, parts))
}

/// The seed of a journal of the catalogue with this digest.
pub fn journal_seed(rt: &impl Abort, alloc: Global, digest: &[u8; 32]) -> [u8; 8] {
    seed_of(rt, alloc, &[b"OSSJRNL\x03", digest])
}

/// The sum of bytes behind the gate at this place.
pub fn sum_of(rt: &impl Abort, alloc: Global, seed: &[u8; 8], place: u64, bytes: &[u8]) -> [u8; 8] {
    first_eight(&joined(rt, alloc, &[seed, &place.to_be_bytes(), bytes]))
}

/// Puts down a record with its sum behind what a disk has.
pub fn put_record(
    rt: &impl Abort,
    alloc: Global,
    seed: &[u8; 8],
    into: &mut Vec<u8>,
    record: &[u8],
) {
    let sum = sum_of(rt, alloc, seed, into.len() as u64, record);
    let size = (record.len() as u64).wrapping_add(8).to_be_bytes();
    put(rt, into, b"\x01");
    put(rt, into, &size[4..]);
    put(rt, into, record);
    put(rt, into, &sum);
}

/// A journal of version 3 with these records.
pub fn summed(rt: &impl Abort, alloc: Global, digest: &[u8; 32], records: &[&[u8]]) -> Vec<u8> {
    let seed = journal_seed(rt, alloc, digest);
    let mut bytes = joined(rt, alloc, &[b"BOSSJRNL\x03", digest]);
    for record in records {
        put_record(rt, alloc, &seed, &mut bytes, record);
    }
    put(rt, &mut bytes, b"\0");
    bytes
}
