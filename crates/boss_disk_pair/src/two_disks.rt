ghost use Rattle.std.specs.Prelude.{◌≡◌, ◌-◌, ◌^◌, ◌≤◌, false};

use boss_disk::Disk;
use boss_journal::Journal;

/// A journal on two disks, at the end of its log or at a record that was not read yet. One of the disks is in force; the other
/// holds what was in force before it, or nothing. It is stopped for good once a call of it answered that a disk failed.
#[derive(Drop)]
pub struct TwoDisks<D: Disk> {
    pub(crate) journal: Journal<D>,
    pub(crate) spare: D,
    pub(crate) second: bool,
    pub(crate) stopped: bool,
    pub(crate) generation: u64,
    pub(crate) events: u64,
    pub(crate) digest: [u8; 32],
    // That of the sums on the disk in force, where it has sums.
    pub(crate) seed: [u8; 8],
    ghost few: { events ≤ 2 ^ 62 },
    ghost going: { stopped ≡ false → journal.stopped ≡ false },
}

impl<D: Disk> TwoDisks<D> {
    /// The bytes of the log, from its first gate to the one behind its last record.
    pub fn log(&self) -> u64
        ensures { result ≡ self.now.journal.place - self.now.journal.first }
    {
        self.journal.log()
    }

    /// The generation of the kept state that is in force, which goes on modulo `2 ^ 64`; 0 where there is none yet.
    pub fn generation(&self) -> u64
        ensures { result ≡ self.now.generation }
    {
        self.generation
    }

    /// How many events there were, up to `2 ^ 62`, where the number stands still.
    pub fn events(&self) -> u64
        ensures { result ≡ self.now.events }
    {
        self.events
    }

    /// The version of the disk that is in force: 1 to 3.
    pub fn version(&self) -> u8
        ensures { result ≡ self.now.journal.version }
    {
        self.journal.version()
    }

    /// Whether a disk failed in a call.
    pub fn stopped(&self) -> bool
        ensures { result ≡ self.now.stopped }
    {
        self.stopped
    }
}
