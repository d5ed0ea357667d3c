ghost use Rattle.std.specs.Prelude.{◌≡◌, ◌≢◌, ◌⊎◌, ℕ, ◌+◌, ◌^◌, ◌%◌, ◌<◌, List, [], ◌∷◌, ◌++◌, length};
ghost use Rattle.boss_model.specs.declared.event.Event.{Event};
ghost use Rattle.boss_model.specs.declared.state.Actuator.{Actuator};
ghost use Rattle.boss_model.specs.State.{Persistent};
ghost use Rattle.def_log.specs.declared.kind.DiskKind.TheVariants.{Idle, Plain, State};
ghost use Rattle.def_log.specs.Kinds.{kind_of};
ghost use Rattle.def_log.specs.Log.{framed, spelled};
ghost use Rattle.def_disk_pair.specs.Contents.{joined, records_of, record_of, last_gate, IsNext, IsCourse, HoldsCleanly};
ghost use Rattle.def_disk_pair.specs.Fronts.{IsPlainFront, IsStateFront};
ghost use Rattle.def_disk_pair.specs.Pairs.{StandsFor, Opens, OpensCleanly, DamagedAt};

/// A front tells the kind of a disk, whatever stands behind it: so a record more changes no kind. A digest has 32 bytes.
pub fn a_front_tells_the_kind()
    ensures plain { (digest front : List ℕ) (version before : ℕ) (from : Persistent) (gate : ℕ) (rest : List ℕ) → length digest ≡ 32 →
        IsPlainFront digest version from before front → kind_of (front ++ gate ∷ rest) ≡ Plain }
    ensures kept { (plant : List Actuator) (digest front : List ℕ) (version generation before : ℕ) (from : Persistent) (gate : ℕ) (rest : List ℕ) →
        length digest ≡ 32 → IsStateFront plant digest version generation from before front →
        kind_of (front ++ gate ∷ rest) ≡ State generation }
{}

/// Behind a front and records that lead to a state: bytes whose last gate is 0 are clean and come to that state; those whose
/// last gate is being opened before one record more too; and those with that record come to the state after it.
pub fn an_append_is_missing_or_whole()
    ensures shut { (plant : List Actuator) (digest front : List ℕ) (version before : ℕ) (from : Persistent) (batches : List (List Event)) (to : Persistent) →
        IsCourse plant digest version front from before batches to → (bytes tail : List ℕ) →
        bytes ≡ front ++ (spelled (records_of version front batches) ++ 0 ∷ tail) →
        HoldsCleanly plant digest to (before + length (joined batches)) bytes }
    ensures opening { (plant : List Actuator) (digest front : List ℕ) (version before : ℕ) (from : Persistent) (batches : List (List Event)) (to : Persistent) →
        IsCourse plant digest version front from before batches to → (events : List Event) (after : Persistent) →
        IsNext plant version to events after → (bytes tail : List ℕ) (gate : ℕ) → gate ≢ 1 →
        bytes ≡ front ++ (spelled (records_of version front batches) ++ gate ∷ (framed (record_of version front (last_gate version front batches) events) ++ 0 ∷ tail)) →
        HoldsCleanly plant digest to (before + length (joined batches)) bytes }
    ensures opened { (plant : List Actuator) (digest front : List ℕ) (version before : ℕ) (from : Persistent) (batches : List (List Event)) (to : Persistent) →
        IsCourse plant digest version front from before batches to → (events : List Event) (after : Persistent) →
        IsNext plant version to events after → IsCourse plant digest version front from before (batches ++ events ∷ []) after }
    ensures records { (front : List ℕ) (version : ℕ) (batches : List (List Event)) (events : List Event) → records_of version front (batches ++ events ∷ [])
        ≡ records_of version front batches ++ record_of version front (last_gate version front batches) events ∷ [] }
{}

/// A kept state that is written as the next generation is in force as soon as it is written, and the pair opens to it. The other
/// disk has the generation before it, or is a journal without a kept state, on the first disk. Generations count modulo 2^64.
pub fn a_written_generation_is_in_force()
    ensures second { (plant : List Actuator) (digest front first : List ℕ) (version generation count : ℕ) (d : Persistent) → length digest ≡ 32 →
        (kind_of first ≡ Plain) ⊎ ((g : ℕ) × (kind_of first ≡ State g) × (g < 2 ^ 64) × (generation ≡ (g + 1) % 2 ^ 64)) →
        IsStateFront plant digest version generation d count front →
        OpensCleanly plant digest d count first (front ++ 0 ∷ []) }
    ensures first { (plant : List Actuator) (digest front second : List ℕ) (version generation count : ℕ) (d : Persistent) → length digest ≡ 32 →
        (g : ℕ) → kind_of second ≡ State g → g < 2 ^ 64 → generation ≡ (g + 1) % 2 ^ 64 →
        IsStateFront plant digest version generation d count front →
        OpensCleanly plant digest d count (front ++ 0 ∷ []) second }
{}

/// A pair stands for one state with one number of events before it and one list of events since; and a pair that stands for
/// anything is not damaged.
pub fn a_pair_stands_for_one_thing()
    ensures one { (plant : List Actuator) (digest first second : List ℕ) (from other : Persistent) (before many : ℕ) (events others : List Event) →
        StandsFor plant digest from before events first second → StandsFor plant digest other many others first second →
        (from ≡ other) × (before ≡ many) × (events ≡ others) }
    ensures opens { (plant : List Actuator) (digest first second : List ℕ) (d other : Persistent) →
        Opens plant digest d first second → Opens plant digest other first second → d ≡ other }
    ensures damaged { (plant : List Actuator) (digest first second : List ℕ) (from : Persistent) (before place : ℕ) (events : List Event) →
        StandsFor plant digest from before events first second → DamagedAt plant digest place first second → ⊥ }
    ensures one_place { (plant : List Actuator) (digest first second : List ℕ) (place other : ℕ) →
        DamagedAt plant digest place first second → DamagedAt plant digest other first second → place ≡ other }
{}

/// A clean pair opens, to one state and after one number of events.
pub fn a_clean_pair_opens()
    ensures opens { (plant : List Actuator) (digest first second : List ℕ) (d : Persistent) (count : ℕ) →
        OpensCleanly plant digest d count first second → Opens plant digest d first second }
    ensures one { (plant : List Actuator) (digest first second : List ℕ) (d other : Persistent) (count many : ℕ) →
        OpensCleanly plant digest d count first second → OpensCleanly plant digest other many first second → (d ≡ other) × (count ≡ many) }
{}
