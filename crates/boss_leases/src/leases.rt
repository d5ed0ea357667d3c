ghost use Rattle.std.specs.Prelude.{◌≡◌, ℕ, if◌then◌else◌, nat_lt, vec_capacity, ◌<◌, ◌≤◌, ◌^◌, IfOk, IsSome, None, Some, count_by, is_some, length, replicate, slice_index_or, slice_set};
ghost use Rattle.std.specs.Option.{option_copied};
ghost use Rattle.boss_leases.specs.Leases.{how_often, place_of, until_then};

use boss_model::{Lease, NoMemory};
use slab::Slab;
use std::alloc::Global;
use std::marker::Model;

/// Live leases, each under a key below the capacity. A contract sees them as a list of options, one place for each key. Of
/// the calls only `new` takes memory. (Leases on actuators are those of BOSS: Dawson-Haggerty et al., NSDI 2013.)
#[derive(Drop)]
pub struct Leases {
    slab: Slab<Lease>,
    /// Where the slab has the lease of each key.
    places: Vec<Option<usize>>,
    /// The keys that no lease has.
    free: Vec<u32>,
}

impl Model for Leases {
    ghost use Rattle.std.specs.Prelude.{List, Option, vec_capacity};
    ghost use Rattle.boss_model.specs.declared.state.Lease.{Lease};
    ghost use Rattle.boss_leases.specs.Leases.{IsKept, seen};

    ghost Value = { List (Option Lease) };

    ghost view = { λ l. seen l.slab l.places.items };

    ghost invariant = { λ l. IsKept l.slab l.places.items l.free.items (vec_capacity l.free) };
}

impl Leases {
    /// Room for `capacity` leases, at most 2^31, and none of them there; `NoMemory` where there is no memory for so many.
    pub fn new(alloc: Global, capacity: u32) -> Result<Leases, NoMemory>
        requires { capacity ≤ 2 ^ 31 }
        ensures { IfOk result (λ leases. leases ≡ replicate capacity None) }
    {
        let room = capacity as usize;
        Ok(Leases {
            slab: Slab::with_capacity(alloc, room)?,
            places: vec![in alloc; None; room]?,
            free: all_keys(alloc, capacity)?,
        })
    }

    /// Keeps a lease under a key that no other has. There have to be fewer leases than the capacity.
    pub fn add(&mut self, lease: Lease) -> u32
        requires { count_by is_some self.old < length self.old }
        ensures free { slice_index_or self.old result None ≡ None }
        ensures within { result < length self.old }
        ensures kept { self.new ≡ slice_set self.old result (Some lease) }
    {
        let key = self.free.pop().unwrap();
        self.places[key as usize] = Some(self.slab.insert_reserved(lease));
        key
    }

    /// The lease of this key, which has to be there, ends at `until` in milliseconds, in place of its end before.
    pub fn extend(&mut self, key: u32, until: u64)
        requires { IsSome (slice_index_or self.old key None) }
        ensures { self.new ≡ slice_set self.old key (until_then until (slice_index_or self.old key None)) }
    {
        let place = place_of(&self.places, key).unwrap();
        self.slab[place].until = until;
    }

    /// Takes the lease of this key out, if there is one. Its key may then be another's.
    pub fn take(&mut self, key: u32) -> Option<Lease>
        ensures taken { result ≡ slice_index_or self.old key None }
        ensures left { self.new ≡ slice_set self.old key None }
    {
        let place = place_of(&self.places, key)?;
        self.places[key as usize] = None;
        self.free.push_reserved(key);
        self.slab.try_remove(place)
    }

    /// The lease of this key, if there is one.
    pub fn get(&self, key: u32) -> Option<&Lease>
        ensures { option_copied result ≡ slice_index_or self.now key None }
    {
        let place = place_of(&self.places, key)?;
        self.slab.get(place)
    }

    /// The lease of this key, which has to be there.
    pub fn at(&self, key: u32) -> &Lease
        requires { IsSome (slice_index_or self.now key None) }
        ensures { slice_index_or self.now key None ≡ Some result.now }
    {
        &self.slab[place_of(&self.places, key).unwrap()]
    }

    /// The capacity: every key is below it.
    pub fn keys(&self) -> u32
        ensures { result ≡ length self.now }
    {
        self.places.len() as u32
    }
}

/// Where the slab has the lease of this key, if there is one.
fn place_of(places: &[Option<usize>], key: u32) -> Option<usize>
    ensures { result ≡ place_of places.now key }
{
    *places.get(key as usize)?
}

/// Each key below the capacity once, the least one last.
fn all_keys(alloc: Global, capacity: u32) -> Result<Vec<u32>, NoMemory>
    ensures keys { IfOk result (λ keys. (key : ℕ) → how_often key keys.items ≡ (if nat_lt key capacity then 1 else 0)) }
    ensures number { IfOk result (λ keys. length keys.items ≡ capacity) }
    ensures room { IfOk result (λ keys. vec_capacity keys ≡ capacity) }
{
    let mut keys = Vec::with_capacity(alloc, capacity as usize)?;
    for place in 0..capacity {
        keys.push_reserved(capacity - 1 - place);
    }
    Ok(keys)
}
