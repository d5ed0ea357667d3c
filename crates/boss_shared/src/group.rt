// Requests that were taken from counters, to be kept together.
ghost use Rattle.std.specs.Prelude.{◌≡◌, ◌<◌, ◌≤◌, [], ◌∷◌, ◌++◌, vec_len, vec_capacity, IfOk, IfSome, IfNone};
ghost use Rattle.boss_model.specs.Limits.{most_held};

use crate::{Asked, Keeper, Pass, Request};
use boss_counters::{Counter, Duty};
use boss_model::{MOST_HELD, NoMemory};
use std::alloc::Global;

/// Where a caller's reply is owed, and the seat that it left.
#[derive(Drop)]
pub struct Owed<'a, K: Keeper> {
    pub counter: &'a Counter<Request<K>>,
    pub duty: Duty<Request<K>>,
    pub seat: Pass<K>,
}

/// What several callers ask for, and beside each one's where its reply is owed. There is room for 16.
#[derive(Drop)]
pub struct Group<'a, K: Keeper> {
    pub asked: Vec<Asked>,
    pub owed: Vec<Owed<'a, K>>,
}

impl<'a, K: Keeper> Group<'a, K> {
    /// An empty group. The only error is want of memory.
    pub fn new(alloc: Global) -> Result<Group<'a, K>, NoMemory>
        ensures asked { IfOk result (λ group. (group.asked.items ≡ []) × (most_held ≤ vec_capacity group.asked)) }
        ensures owed { IfOk result (λ group. (group.owed.items ≡ []) × (most_held ≤ vec_capacity group.owed)) }
    {
        let asked = Vec::with_capacity(alloc, MOST_HELD)?;
        let owed = Vec::with_capacity(alloc, MOST_HELD)?;
        Ok(Group { asked, owed })
    }

    /// Puts a request behind the others, for which there is room.
    pub fn put(
        &mut self,
        counter: &'a Counter<Request<K>>,
        request: Request<K>,
        duty: Duty<Request<K>>,
    )
        requires room { vec_len self.old.asked < vec_capacity self.old.asked }
        requires place { vec_len self.old.owed < vec_capacity self.old.owed }
        ensures asked { self.new.asked.items ≡ self.old.asked.items ++ request.asked ∷ [] }
        ensures owed { (owed : _) × (self.new.owed.items ≡ self.old.owed.items ++ owed ∷ []) × (owed.counter.now ≡ counter.now) × (owed.duty ≡ duty) × (owed.seat ≡ request.seat) }
        ensures room { vec_capacity self.new.asked ≡ vec_capacity self.old.asked }
        ensures place { vec_capacity self.new.owed ≡ vec_capacity self.old.owed }
    {
        let Request { seat, asked } = request;
        self.asked.push_reserved(asked);
        self.owed.push_reserved(Owed {
            counter,
            duty,
            seat,
        });
    }

    /// Takes the first request out, where there is one.
    pub fn take_first(&mut self) -> Option<(Asked, Owed<'a, K>)>
        requires each { vec_len self.old.owed ≡ vec_len self.old.asked }
        ensures first { IfSome result (λ first. (self.old.asked.items ≡ first.0 ∷ self.new.asked.items) × (self.old.owed.items ≡ first.1 ∷ self.new.owed.items)) }
        ensures none { IfNone result ((self.old.asked.items ≡ []) × (self.new.asked.items ≡ []) × (self.new.owed.items ≡ [])) }
        ensures room { vec_capacity self.new.asked ≡ vec_capacity self.old.asked }
        ensures place { vec_capacity self.new.owed ≡ vec_capacity self.old.owed }
    {
        if self.asked.is_empty() {
            return None;
        }
        Some((self.asked.remove(0), self.owed.remove(0)))
    }
}
