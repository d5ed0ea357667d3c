// Words to sleep on, one for each of some places in line.
ghost use Rattle.std.specs.Prelude.{◌≡◌, ◌<◌};
ghost use Rattle.boss_model.specs.Limits.{bells};

use atomic_table::{Play, Table, TableRule};
use boss_model::BELLS;
use std::alloc::{AllocError, Global};
use std::sync::Wait;

// Nothing is said of the bells: whoever wakes looks at the lock.
pub struct Anything;

impl TableRule<(), (), ()> for Anything {
    ghost holds = { λ _ _. Unit {0} };

    ghost first = { λ _. tt };
}

impl Play<(), ()> for Anything {
    ghost then = { λ _ _ _ _. Unit {0} };
}

// A bell for each place in line. Whoever waits there sleeps until it is rung.
#[derive(Drop)]
pub struct Bells {
    table: Table<(), (), (), Anything, Global>,
    ghost many: { table.shared.table_id.words ≡ bells },
}

impl Bells {
    // The only error is want of memory.
    pub fn new(alloc: Global) -> Result<Bells, AllocError> {
        let (table, _token) = Table::of_words(alloc, &[0; BELLS], &())?;
        Ok(Bells { table })
    }

    // What the bell of a ticket's place shows. It shows something else once it was rung.
    pub fn shown(&self, ticket: u64) -> u32 {
        low_half(self.table.shared.peek(place_of(ticket)))
    }

    // Sleeps until the bell of a ticket's place is rung, but not where that was done since it showed this. It may
    // also return for no reason.
    pub fn sleep<R: Wait>(&self, rt: &R, ticket: u64, shown: u32) {
        self.table.shared.park(rt, place_of(ticket), shown);
    }

    // Rings the bell of a ticket's place.
    pub fn ring(&self, ticket: u64) {
        let place = place_of(ticket);
        let board = &self.table.shared;
        let (_, mut token) = board.load_new_seat::<Anything>(place);
        board.fetch_add::<Anything>(&mut token, place, 1);
        board.wake_all(place);
    }
}

fn place_of(ticket: u64) -> usize
    ensures { result < bells }
{
    (ticket % BELLS as u64) as usize
}

// The half of a word that a sleep compares. A bell is rung once for each 64 tickets, and a seat that waits keeps a
// thread, of which there are fewer than 2^32; so it does not come round before a sleeper's turn.
fn low_half(word: u64) -> u32 {
    (word & 0xffff_ffff) as u32
}
