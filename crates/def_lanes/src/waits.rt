ghost use Rattle.std.specs.Prelude.{◌≡◌, ℕ, suc, ◌<◌, ◌≤◌, Bool, List, [], ◌∷◌, ◌++◌, length};
ghost use Rattle.std.specs.List.{AllByRecursion};
ghost use Rattle.def_history.specs.declared.entry.Entry.{Entry};
ghost use Rattle.def_lanes.specs.Lanes.{only};
ghost use Rattle.def_lanes.specs.Waits.{AreWaited, AreWaitedAt, AreWithin, IsNoteOf, PausedAround, PausedFor, PausedWithin, WaitedAt, paused};
ghost use Rattle.def_lanes.specs.Works.{Work, AreOf};
ghost use Rattle.boss_model.specs.Limits.{last_number};
ghost use Rattle.boss_outside_server.specs.declared.waited.Lengths.{Lengths};
ghost use Rattle.boss_outside_server.specs.declared.waited.Waited.{Waited};
ghost use Rattle.boss_outside_server.specs.declared.waiter.Woke.{Woke};
ghost use Rattle.boss_outside_server.specs.Waits.{after_pause, listening};

/// Where a waiter keeps what was noted of one worker behind the workers before it, each stands at its worker's place.
pub fn notes_stand_at_their_places()
    ensures works { (workers : ℕ) (notes : List Waited) (note : Waited) (works others : List Work) → AreWaited workers notes works →
        AreOf workers (length notes) (suc (length notes)) others → AllByRecursion (IsNoteOf note) others →
        AreWaited workers (notes ++ note ∷ []) (works ++ others) }
    ensures places { (workers : ℕ) (notes : List Waited) (note : Waited) (works others : List Work) → AreWaitedAt workers notes works →
        AreOf workers 0 (length notes) works → AreOf workers (length notes) (suc (length notes)) others →
        WaitedAt workers (length notes) others note → AreWaitedAt workers (notes ++ note ∷ []) (works ++ others) }
{}

/// Pauses of a length from a least to a most, in milliseconds: none; one; those of one call and then of another. Lengths within
/// these are within wider ones.
pub fn pauses_keep_their_length()
    ensures none { (least most : ℕ) (waited : Waited) → PausedWithin least most waited waited }
    ensures one { (least most milliseconds : ℕ) (woke : Woke) (old new : Waited) → least ≤ milliseconds → milliseconds ≤ most →
        new ≡ after_pause milliseconds woke old → PausedWithin least most old new }
    ensures both { (least most : ℕ) (old between new : Waited) → PausedWithin least most old between → PausedWithin least most between new →
        PausedWithin least most old new }
    ensures wider { (pauses least low high most : ℕ) (lengths : Lengths) → least ≤ low → high ≤ most → AreWithin pauses low high lengths →
        AreWithin pauses least most lengths }
{}

/// The same of one length, where bells are listened at: none; a bell, and pauses behind that; and those of one call and then of another.
pub fn pauses_keep_their_length_at_any_bell()
    ensures none { (milliseconds : ℕ) (waited : Waited) → PausedAround milliseconds waited waited }
    ensures at { (milliseconds bell : ℕ) (old between new : Waited) → between ≡ listening bell old → PausedFor milliseconds between new →
        PausedAround milliseconds old new }
    ensures both { (milliseconds : ℕ) (old between new : Waited) → PausedAround milliseconds old between →
        PausedAround milliseconds between new → PausedAround milliseconds old new }
{}

/// In a history of less than 2^62 entries a count of pauses is exact, where no more were made than there are entries that pass
/// a test.
pub fn pauses_are_counted()
    ensures { (test : Entry → Bool) (entries : List Entry) (pauses : ℕ) → length entries < last_number →
        pauses ≤ length (only test entries) → paused pauses 0 ≡ pauses }
{}
