ghost use Rattle.std.specs.Prelude.{◌≡◌, ◌⊎◌, ℕ, List};
ghost use Rattle.boss_pair_find.specs.declared.refusal.DurableRefusal.{DurableRefusal};
ghost use Rattle.boss_pair_find.specs.declared.refusal.DurableRefusal.TheVariants.{DiskFault, NoMemory};
ghost use Rattle.boss_pair_find.specs.Holds.{IsNewPair, IsPlainPair, IsStatePair};
ghost use Rattle.boss_pair_find.specs.Refusals.{FindRefuses, IsOfBytes};
ghost use Rattle.boss_model.specs.State.{Persistent};

/// A pair is refused for one reason at most, and one that holds something for none but a fault of a disk or want of memory, and of
/// memory where it holds a kept state alone; and it holds one thing. So each answer comes exactly where the pair is of its kind, as far
/// as neither keeps it from being found.
pub fn a_pair_is_found_or_refused()
    ensures new { (digest first second : List ℕ) (refusal : DurableRefusal) → IsNewPair first second →
        FindRefuses digest first second refusal → refusal ≡ DiskFault }
    ensures plain { (digest first second : List ℕ) (refusal : DurableRefusal) → IsPlainPair digest first second →
        FindRefuses digest first second refusal → refusal ≡ DiskFault }
    ensures kept { (digest first second : List ℕ) (d : Persistent) (events place : ℕ) (refusal : DurableRefusal) →
        IsStatePair digest d events place first second → FindRefuses digest first second refusal → (refusal ≡ DiskFault) ⊎ (refusal ≡ NoMemory) }
    ensures one { (digest first second : List ℕ) (refusal other : DurableRefusal) → IsOfBytes refusal → IsOfBytes other →
        FindRefuses digest first second refusal → FindRefuses digest first second other → refusal ≡ other }
    ensures not_plain { (digest first second : List ℕ) → IsNewPair first second → IsPlainPair digest first second → ⊥ }
    ensures not_kept { (digest first second : List ℕ) (d : Persistent) (events place : ℕ) → IsNewPair first second →
        IsStatePair digest d events place first second → ⊥ }
    ensures apart { (digest first second : List ℕ) (d : Persistent) (events place : ℕ) → IsPlainPair digest first second →
        IsStatePair digest d events place first second → ⊥ }
    ensures one_state { (digest first second : List ℕ) (d other : Persistent) (events many place gate : ℕ) →
        IsStatePair digest d events place first second → IsStatePair digest other many gate first second →
        (d ≡ other) × (events ≡ many) × (place ≡ gate) }
{}
