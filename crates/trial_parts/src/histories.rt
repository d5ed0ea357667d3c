// Two threads over a count whose entries are what was added to it.
ghost use Rattle.std.specs.Prelude.{◌≡◌, ◌+◌, ◌*◌, ◌^◌, ◌<◌, ◌≤◌, [], ◌∷◌, ◌++◌, None, option_to_list, IfSome, IsTrue, MatchBool};
ghost use Rattle.boss_lock.specs.Places.{total};
ghost use Rattle.boss_lock.specs.Seats.{IsSeatOf, own_entries};

use boss_lock::{Made, Ruled, Seat, Stands};
use std::alloc::Global;
use std::sync::Wait;
use std::thread::{Threads, join};

#[derive(Drop)]
struct Count {
    value: u64,
}

impl Stands for Count {
    type Start = u64;

    type Entry = u64;

    ghost start = { λ count. count.value };

    ghost stands = { λ count start added. count.value ≡ start + total (λ n. n) added };
}

// What one turn added: nothing where the count would run over.
#[derive(Drop)]
struct Added {
    by: Option<u64>,
}

impl Made<Count> for Added {
    ghost entries = { λ added. option_to_list added.by };
}

// Adds once if there is room, and says whether it did.
#[tactic(auto, using(boss_lock::proofs::Entries::total_append))]
fn add<R: Wait>(lock: &Ruled<Count>, rt: &R, seat: &mut Seat<Count>, by: u64) -> bool
    requires own { IsSeatOf lock.now seat.old }
    requires no_turn { seat.old.turn ≡ None }
    ensures same { seat.new ≡ record seat.old { seen = seat.new.seen; places = seat.new.places } }
    ensures made { MatchBool result
        (own_entries seat.new ≡ own_entries seat.old ++ by ∷ [])
        (own_entries seat.new ≡ own_entries seat.old) }
{
    let count = lock.enter(rt, seat);
    match count.value.checked_add(by) {
        Some(value) => {
            lock.leave(seat, Count { value }, &Added { by: Some(by) });
            true
        }
        None => {
            lock.leave(seat, count, &Added { by: None });
            false
        }
    }
}

// Adds so many times, and says whether there was room each time.
fn add_all<R: Wait>(
    lock: &Ruled<Count>,
    rt: &R,
    mut seat: Seat<Count>,
    by: u64,
    turns: u64,
) -> (Seat<Count>, bool)
    requires own { IsSeatOf lock.now seat }
    requires no_turn { seat.turn ≡ None }
    ensures same { result.0 ≡ record seat { seen = result.0.seen; places = result.0.places } }
    ensures made { IsTrue result.1 →
        total (λ n. n) (own_entries result.0) ≡ total (λ n. n) (own_entries seat) + turns * by }
{
    for _ in 0..turns {
        if !add(lock, rt, &mut seat, by) {
            return (seat, false);
        }
    }
    (seat, true)
}

// Two threads add to a count. Where each had room each time, it is in the end the start and all that both added.
fn add_in_two_threads<R: Threads + Wait + Sync>(
    rt: &R,
    alloc: Global,
    start: u64,
    by: (u64, u64),
    turns: u64,
) -> Option<u64>
    ensures { IfSome result (λ count. count ≡ start + (turns * by.0 + turns * by.1)) }
{
    let Ok((lock, mut seat)) = Ruled::new(alloc, Count { value: start }, 2) else {
        return None;
    };
    let other = lock.split(&mut seat);
    let shared = &lock;
    let ((mut seat, here), (other, there)) = join(
        rt,
        move || -> (Seat<Count>, bool)
            requires { IsSeatOf shared.now seat × (seat.turn ≡ None) × (seat.parts ≡ 1) × (seat.places ≡ []) }
            ensures { IsSeatOf shared.entry.now result.0 × (result.0.turn ≡ None) × (result.0.parts ≡ 1)
                × (IsTrue result.1 → total (λ n. n) (own_entries result.0) ≡ turns * by.0) }
        { add_all(shared, rt, seat, by.0, turns) },
        move || -> (Seat<Count>, bool)
            requires { IsSeatOf shared.now other × (other.turn ≡ None) × (other.parts ≡ 1) × (other.places ≡ []) }
            ensures { IsSeatOf shared.entry.now result.0 × (result.0.turn ≡ None) × (result.0.parts ≡ 1)
                × (IsTrue result.1 → total (λ n. n) (own_entries result.0) ≡ turns * by.1) }
        { add_all(shared, rt, other, by.1, turns) },
    );
    if !here || !there {
        return None;
    }
    lock.join(&mut seat, other);
    let count = lock.close(seat);
    Some(count.value)
}

#[test]
fn every_entry_is_in_one_history(rt: HostRuntime) {
    let count = add_in_two_threads(&rt, rt.alloc(), 7, (1, 3), 10_000);
    assert!(&rt; count == Some(40_007));
}
