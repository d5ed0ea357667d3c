ghost use Rattle.std.specs.Prelude.{◌≡◌, ℕ, ◌+◌, ◌<◌, ◌++◌, List, length, map, take, drop, Option, Some, None, OnOk, IfOk, slice_index};
ghost use Rattle.std.specs.List.{fold, slice_index_or};
ghost use Rattle.boss_disk.specs.Kept.{stays_after};
ghost use Rattle.boss_disk.specs.Picked.{picked};
ghost use Rattle.boss_disk.specs.Record.{bytes_after};
ghost use Rattle.boss_disk.specs.Window.{written};

use crate::memory::{DiskCall, overwrite};
use std::alloc::{AllocError, Global};

/// Makes the calls again.
pub fn replay(held: &mut Vec<u8>, calls: &[DiskCall]) -> Result<(), AllocError>
    ensures { OnOk result (held.new.items ≡ fold bytes_after held.old.items calls.now) }
{
    for call in calls {
        match call {
            DiskCall::Write { at, bytes } | DiskCall::WriteWhole { at, bytes } => {
                overwrite(held, *at as usize, bytes.slice())?
            }
            DiskCall::Cut { size } => held.truncate(*size as usize),
            DiskCall::Sync => {}
        }
    }
    Ok(())
}

/// An image of a disk that was synced, called like this since then and reads these bytes now: of the bytes that need not
/// stay it has those that the number picks.
pub fn torn(
    alloc: Global,
    synced: &[u8],
    calls: &[DiskCall],
    bytes: &[u8],
    pick: u64,
) -> Result<Vec<u8>, AllocError>
    ensures size { IfOk result (λ image. length image.items ≡ length bytes.now) }
    ensures each { IfOk result (λ image. (place : ℕ) → place < length image.items → slice_index image.items place
        ≡ picked pick place (slice_index_or (fold stays_after (map Some synced.now) calls.now) place None) (slice_index bytes.now place)) }
{
    let mut stays = all_stay(alloc, synced)?;
    forget_calls(&mut stays, calls);
    let mut image = bytes.to_vec(alloc)?;
    pick_bytes(&mut image, &stays, pick);
    Ok(image)
}

/// The marks of bytes that all stay.
fn all_stay(alloc: Global, bytes: &[u8]) -> Result<Vec<Option<u8>>, AllocError>
    ensures { IfOk result (λ stays. stays.items ≡ map Some bytes.now) }
{
    bytes.iter().map(|byte| Some(*byte)).collect(alloc)
}

/// Forgets of each byte that was written or cut that it stays.
fn forget_calls(stays: &mut Vec<Option<u8>>, calls: &[DiskCall])
    ensures { stays.new.items ≡ fold stays_after stays.old.items calls.now }
{
    for call in calls {
        match call {
            DiskCall::Write { at, bytes } => forget(stays, *at as usize, bytes.slice().len()),
            DiskCall::Cut { size } => stays.truncate(*size as usize),
            DiskCall::Sync | DiskCall::WriteWhole { .. } => {}
        }
    }
}

/// Forgets of so many bytes from this place on that they stay.
fn forget(stays: &mut [Option<u8>], at: usize, count: usize)
    ensures { stays.new ≡ written at count stays.old }
{
    let from = at.min(stays.len());
    let to = from.saturating_add(count).min(stays.len());
    for place in from..to {
        stays[place] = None;
    }
}

/// Puts the byte that is picked at each place.
fn pick_bytes(bytes: &mut [u8], stays: &[Option<u8>], pick: u64)
    ensures { (place : ℕ) → place < length bytes.new → slice_index bytes.new place
        ≡ picked pick place (slice_index_or stays.now place None) (slice_index bytes.old place) }
{
    for place in 0..bytes.len() {
        let stays = if place < stays.len() {
            stays[place]
        } else {
            None
        };
        bytes[place] = pick_byte(pick, place, stays, bytes[place]);
    }
}

/// The byte that is picked at a place, which is the one that stays there, where one does.
fn pick_byte(pick: u64, place: usize, stays: Option<u8>, byte: u8) -> u8
    ensures { result ≡ picked pick place stays byte }
{
    if let Some(kept) = stays {
        return kept;
    }
    match pick {
        1 => byte,
        2 => 255 - byte,
        _ if (pick >> (place % 64)) & 1 == 1 => byte,
        _ => 0,
    }
}
