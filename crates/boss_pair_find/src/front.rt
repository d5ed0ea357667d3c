ghost use Rattle.std.specs.Prelude.{◌≡◌, ◌↔◌, IsTrue, ℕ, ◌≤◌, List, length, OnOk, IfErr, MatchResult};
ghost use Rattle.boss_model.specs.Limits.{first_gate};
ghost use Rattle.boss_pair_find.specs.Refusals.{FrontRefuses, DiskCause};
ghost use Rattle.boss_snapshot.specs.Fronts.{version_of, digest_of};
ghost use Rattle.def_log.specs.Versions.{IsKnown};

use crate::DurableRefusal;
use boss_disk::Disk;
use def_log::is_known;

/// Tests whether the journal of a disk is of a known version and of the catalogue with this digest. The disk stays as it is.
pub fn check_front<D: Disk>(disk: &mut D, digest: &[u8; 32]) -> Result<(), DurableRefusal>
    requires { D.tells → first_gate ≤ length (D.reads disk.old) }
    ensures known { D.tells → OnOk result (IsKnown (version_of (D.reads disk.old)) × (digest_of (D.reads disk.old) ≡ digest.now)) }
    ensures refuses { D.tells → IfErr result (FrontRefuses digest.now (D.reads disk.old)) }
    ensures reads { D.tells → D.reads disk.new ≡ D.reads disk.old }
    ensures windows { D.tells → D.story disk.new ≡ D.story disk.old }
    ensures fine { OnOk result (D.faults disk.new ≡ D.faults disk.old) }
    ensures cause { IfErr result (DiskCause (D.faults disk.old) (D.faults disk.new)) }
{
    let mut version = [0u8; 1];
    disk.read_at(8, &mut version)?;
    let mut kept = [0u8; 32];
    disk.read_at(9, &mut kept)?;
    check_version(version[0], &kept, digest)
}

/// The same, by the version and the digest that stand on the disk.
fn check_version(version: u8, kept: &[u8; 32], digest: &[u8; 32]) -> Result<(), DurableRefusal>
    ensures tells { (bytes : List ℕ) → version ≡ version_of bytes → kept.now ≡ digest_of bytes
        → MatchResult result (λ _. IsKnown (version_of bytes) × (digest_of bytes ≡ digest.now)) (FrontRefuses digest.now bytes) }
    ensures cause { (count : ℕ) → IfErr result (DiskCause count count) }
{
    if !is_known(version) {
        return Err(DurableRefusal::Version { found: version });
    }
    if !are_same(kept, digest) {
        return Err(DurableRefusal::Catalogue {
            kept: *kept,
            found: *digest,
        });
    }
    Ok(())
}

/// Whether these are the same bytes.
fn are_same(some: &[u8], other: &[u8]) -> bool
    ensures { IsTrue result ↔ (some.now ≡ other.now) }
{
    some == other
}
