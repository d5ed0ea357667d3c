ghost use Rattle.std.specs.Prelude.{◌≡◌, ℕ, ◌+◌, ◌*◌, ◌%◌, ◌≤◌, Bool, false, List, length};
ghost use Rattle.boss_cluster.specs.Commits.{committed};
ghost use Rattle.boss_etcd.specs.Heads.{dropped_of, next_length};
ghost use Rattle.boss_etcd.specs.Pages.{after_puts, page_at};

/// Where the keys of pages have bytes, after the puts and the drop of a commit they have those that the commit is to leave, and as many as
/// the head says then.
pub fn pages_mean_a_commit()
    ensures pages { (old bytes : List ℕ) (first : ℕ) (last : Bool) → 1024 * first ≤ length old → (last ≡ false → length bytes % 1024 ≡ 0) → (page : ℕ)
        → after_puts first bytes (dropped_of (length old) (1024 * first + length bytes) last) (page_at old) page
        ≡ page_at (committed (1024 * first) bytes last old) page }
    ensures length { (old bytes : List ℕ) (at : ℕ) (last : Bool) → at ≤ length old
        → length (committed at bytes last old) ≡ next_length (length old) (at + length bytes) last }
{}
