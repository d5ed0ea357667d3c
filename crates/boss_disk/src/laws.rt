ghost use Rattle.std.specs.Prelude.{◌≡◌, ℕ, ◌↔◌, ◌++◌, List, length, IsTrue, Bool};
ghost use Rattle.std.specs.List.{fold};
ghost use Rattle.boss_disk.specs.Crash.{Change, MayRemain, changed};
ghost use Rattle.boss_disk.specs.Runs.{Since};
ghost use Rattle.boss_disk.specs.Story.{Story, MayLeave};
ghost use Rattle.boss_disk.specs.Window.{Window, IsImage, settled, after_write};

/// What the disk tells as data is what a reader has in mind: the lengths since the last sync, and the ranges written.
pub fn crash_leaves()
    ensures { (synced : List ℕ) (changes : List Change) (bytes : List ℕ)
        → IsImage (fold changed (settled synced) changes) bytes ↔ MayRemain synced changes bytes }
{}

/// After a sync a crash leaves what a read gives, and nothing else.
pub fn synced_bytes_stay()
    ensures { (held bytes : List ℕ) → IsImage (settled held) bytes ↔ (bytes ≡ held) }
{}

/// A write that a crash may tear leaves what stands in front of it, and what stands behind it where it adds no byte.
pub fn torn_write_leaves_the_rest()
    ensures front { (front tail held : List ℕ) (at count : ℕ) (window : Window) (bytes : List ℕ) → window ≡ settled held
        → held ≡ front ++ tail → at ≡ length front → IsImage (after_write at count window) bytes
        → (rest : List ℕ) × (bytes ≡ front ++ rest) }
    ensures back { (front mid back held : List ℕ) (at count : ℕ) (window : Window) (bytes : List ℕ) → window ≡ settled held
        → held ≡ front ++ (mid ++ back) → at ≡ length front → count ≡ length mid → IsImage (after_write at count window) bytes
        → (torn : List ℕ) × (bytes ≡ front ++ (torn ++ back)) × (length torn ≡ length mid) }
{}

/// What passes a test all along some calls, as far as the disk tells, passes it wherever among them a crash comes.
pub fn crash_comes_at_any_call()
    ensures { (passes : List ℕ → Bool) (old new : Story) → Since (λ bytes. IsTrue (passes bytes)) old new
        → (bytes : List ℕ) → MayLeave new (length old.past) bytes → IsTrue (passes bytes) }
{}
