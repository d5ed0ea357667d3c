// The bells and their calls.
ghost use Rattle.std.specs.Prelude.{◌≡◌, ◌≢◌, ◌%◌, ◌^◌, ◌<◌, ◌≤◌, ◌+◌, true, false, [], ◌∷◌, ◌++◌, IfOk, IsTrue, IsFalse};
ghost use mathlib.Core.List.{IsPrefix};
ghost use Rattle.boss_bells.specs.Logs.{times};

use crate::ears::{Ear, Ringer};
use crate::steps::{arrive, hear, ring, tell, wait};
use crate::view::{OneLog, View};
use atomic_table::Table;
use std::alloc::{AllocError, Global};
use std::marker::Model;
use std::sync::Wait;
use std::time::Duration;

/// A row of bells. To a contract it is a table, whose `words` are how many bells there are.
///
/// Not promised: that a ring wakes a sleeper. A sleep ends by itself when its time is over.
#[derive(Drop)]
pub struct Bells {
    table: Table<(), View, u64, OneLog, Global>,
    count: usize,
}

impl Model for Bells {
    ghost use Rattle.std.specs.Prelude.{◌≡◌};
    ghost use Rattle.atomic_table.specs.Seated.{TableId};

    ghost Value = { TableId };

    ghost view = { λ b. b.table.shared.table_id };

    ghost invariant = { λ b. (b.table.shared.key ≡ b.table.shared.table_id.words) × (b.count ≡ b.table.shared.table_id.words) };
}

impl Bells {
    /// So many bells, at least one, none of which was rung, and the only right to ring them. The only error is want of memory.
    pub fn new(alloc: Global, count: usize) -> Result<(Bells, Ringer), AllocError>
        requires { 0 < count }
        ensures many { IfOk result (λ made. made.0.words ≡ count) }
        ensures silent { IfOk result (λ made. (made.1.row ≡ made.0) × (made.1.rings ≡ [])) }
    {
        let words = vec![in alloc; 0_u64; count]?;
        let (table, token) = Table::of_words(alloc, words.as_slice(), &(count as u64))?;
        Ok((Bells { table, count }, Ringer { token }))
    }

    /// How many bells there are.
    pub fn len(&self) -> usize
        ensures { result ≡ self.now.words }
    {
        self.count
    }

    /// Rings a bell, and wakes all who sleep by it. The call takes no memory and does not wait.
    pub fn ring(&self, ringer: &mut Ringer, bell: usize)
        requires own { ringer.old.row ≡ self.now }
        requires bell { bell < self.now.words }
        ensures { ringer.new ≡ record ringer.old { rings = ringer.old.rings ++ bell ∷ [] } }
    {
        ring(&self.table.shared, &mut ringer.token, bell);
    }

    /// How often a bell was rung, modulo 2^64. The call takes no memory and does not wait.
    pub fn count(&self, ringer: &mut Ringer, bell: usize) -> u64
        requires own { ringer.old.row ≡ self.now }
        requires bell { bell < self.now.words }
        ensures same { ringer.new ≡ ringer.old }
        ensures count { result ≡ times bell ringer.old.rings % 2 ^ 64 }
    {
        hear(&self.table.shared, &mut ringer.token, bell)
    }

    /// A new ear. The call takes no memory and does not wait.
    pub fn ear(&self) -> Ear
        requires some { 0 < self.now.words }
        ensures row { result.row ≡ self.now }
    {
        let token = arrive(&self.table.shared);
        Ear { token }
    }

    /// An ear that knows of all rings so far.
    pub fn tell(&self, ringer: &mut Ringer) -> Ear
        requires own { ringer.old.row ≡ self.now }
        requires some { 0 < self.now.words }
        ensures same { ringer.new ≡ ringer.old }
        ensures told { result ≡ ringer.old }
    {
        let token = tell(&self.table.shared, &mut ringer.token);
        Ear { token }
    }

    /// How often a bell was rung up to a moment of the call, modulo 2^64, for who knows of the rings before. The call takes no
    /// memory and does not wait.
    pub fn hear(&self, ear: &mut Ear, bell: usize) -> u64
        requires own { ear.old.row ≡ self.now }
        requires bell { bell < self.now.words }
        ensures row { ear.new.row ≡ ear.old.row }
        ensures later { IsPrefix ear.old.rings ear.new.rings }
        ensures count { result ≡ times bell ear.new.rings % 2 ^ 64 }
    {
        hear(&self.table.shared, &mut ear.token, bell)
    }

    /// Sleeps until a bell was rung more often than `heard`, which is modulo 2^64, or until `most` is over; it may also return
    /// sooner for no reason. Where the bell was rung more often before the call it does not sleep. Says how often the bell was
    /// rung up to a moment of the call, behind the sleep where there was one. The call takes no memory.
    ///
    /// So where the answer is `heard`, all rings of the log that it is told of were heard before: none of them was slept through.
    pub fn wait<R: Wait>(
        &self,
        rt: &R,
        ear: &mut Ear,
        bell: usize,
        heard: u64,
        most: Duration,
    ) -> u64
        requires own { ear.old.row ≡ self.now }
        requires bell { bell < self.now.words }
        ensures row { ear.new.row ≡ ear.old.row }
        ensures later { IsPrefix ear.old.rings ear.new.rings }
        ensures count { result ≡ times bell ear.new.rings % 2 ^ 64 }
    {
        wait(&self.table.shared, rt, &mut ear.token, bell, heard, most)
    }
}
