ghost use Rattle.std.specs.Prelude.{◌≡◌, ℕ, ◌^◌, ◌≤◌, ◌<◌, List, [], ◌∷◌, ◌++◌, length, slice_index, false, IfOk, IfErr, MatchResult};
ghost use Rattle.boss_outside.specs.Counts.{Rose, HasCause};
ghost use Rattle.boss_disk.specs.Window.{settled};
ghost use Rattle.boss_journal.specs.declared.refusal.OpenRefusal.TheVariants.{DiskFault};
ghost use Rattle.boss_journal.specs.Places.{IsAt, IsAtRest};
ghost use Rattle.def_log.specs.Versions.{newest_version};

use crate::heading::read_some;
use crate::{Journal, OpenRefusal};
use boss_disk::Disk;
use boss_outside::Failed;
use def_log::NEWEST_VERSION;
use std::mem;

impl<D: Disk> Journal<D> {
    /// The journal whose first gate is at this place, behind a front of any kind. Its version is the one in byte 8, which is
    /// read, and the disk is left as it is.
    pub fn open_after(disk: D, place: u64) -> Result<Journal<D>, (D, OpenRefusal)>
        requires { D.tells → place < length (D.reads disk) }
        ensures place { D.tells → IfOk result (λ journal. journal.place ≡ place) }
        ensures version { D.tells → 8 < length (D.reads disk) → IfOk result (λ journal. journal.version ≡ slice_index (D.reads disk) 8) }
        ensures at { D.tells → (front : List ℕ) → (rest : List ℕ) → D.reads disk ≡ front ++ rest → place ≡ length front
            → IfOk result (λ journal. IsAt front [] journal.place (D.reads journal.disk)) }
        ensures start { IfOk result (λ journal. (journal.first ≡ journal.place) × (journal.stopped ≡ false)) }
        ensures reads { D.tells → MatchResult result (λ journal. D.reads journal.disk ≡ D.reads disk) (λ refused. D.reads refused.0 ≡ D.reads disk) }
        ensures windows { D.tells → MatchResult result (λ journal. D.story journal.disk ≡ D.story disk) (λ refused. D.story refused.0 ≡ D.story disk) }
        ensures cause { MatchResult result
            (λ journal. D.faults journal.disk ≡ D.faults disk)
            (λ refused. (refused.1 ≡ DiskFault) × Rose (D.faults disk) (D.faults refused.0)) }
    {
        let mut disk = disk;
        match read_version(&mut disk, place) {
            Ok((first, version)) => Ok(Journal {
                disk,
                first,
                place: first,
                version,
                stopped: false,
            }),
            Err(Failed) => Err((disk, OpenRefusal::DiskFault)),
        }
    }

    /// The journal on a disk that was written anew up to its first gate, which is its last byte. No call of the disk is made.
    pub fn fresh(disk: D, place: u64) -> Journal<D>
        requires there { D.tells → place < length (D.reads disk) }
        requires low { place ≤ 2 ^ 62 }
        ensures disk { result.disk ≡ disk }
        ensures start { (result.place ≡ place) × (result.first ≡ place) × (result.version ≡ newest_version) × (result.stopped ≡ false) }
        ensures rests { D.tells → (front : List ℕ) → D.reads disk ≡ front ++ 0 ∷ [] → place ≡ length front
            → (D.story disk).window ≡ settled (D.reads disk)
            → IsAtRest front [] result.place (D.reads result.disk) (D.story result.disk).window }
    {
        Journal {
            disk,
            first: place,
            place,
            version: NEWEST_VERSION,
            stopped: false,
        }
    }

    /// Goes on in another disk, which was written anew up to its first gate, and gives its own disk in exchange.
    pub fn go_on_in(&mut self, other: &mut D, place: u64)
        requires there { D.tells → place < length (D.reads other.old) }
        requires low { place ≤ 2 ^ 62 }
        ensures disk { self.new.disk ≡ other.old }
        ensures other { other.new ≡ self.old.disk }
        ensures start { (self.new.place ≡ place) × (self.new.first ≡ place) × (self.new.version ≡ newest_version) × (self.new.stopped ≡ self.old.stopped) }
        ensures rests { D.tells → (front : List ℕ) → D.reads other.old ≡ front ++ 0 ∷ [] → place ≡ length front
            → (D.story other.old).window ≡ settled (D.reads other.old)
            → IsAtRest front [] self.new.place (D.reads self.new.disk) (D.story self.new.disk).window }
    {
        mem::swap(&mut self.disk, other);
        self.first = place;
        self.place = place;
        self.version = NEWEST_VERSION;
    }
}

/// The place, or the end of the disk where that comes before it, and byte 8.
fn read_version<D: Disk>(disk: &mut D, place: u64) -> Result<(u64, u8), Failed>
    requires { D.tells → place < length (D.reads disk.old) }
    ensures place { D.tells → IfOk result (λ found. found.0 ≡ place) }
    ensures low { IfOk result (λ found. found.0 ≤ 2 ^ 62) }
    ensures version { D.tells → 8 < length (D.reads disk.old) → IfOk result (λ found. found.1 ≡ slice_index (D.reads disk.old) 8) }
    ensures reads { D.tells → D.reads disk.new ≡ D.reads disk.old }
    ensures windows { D.tells → D.story disk.new ≡ D.story disk.old }
    ensures cause { HasCause (D.faults disk.old) (D.faults disk.new) result }
{
    let end = disk.length()?;
    let mut head = [0u8; 9];
    read_some(disk, 0, end, &mut head)?;
    Ok((place.min(end), head[8]))
}
