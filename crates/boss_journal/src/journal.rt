ghost use Rattle.std.specs.Prelude.{◌≡◌, ℕ, ◌-◌, ◌^◌, ◌≤◌, ◌<◌, length, false};

use boss_disk::Disk;

/// A journal on a disk, at the gate of one of its records or behind the last. It is stopped for good once a call of it
/// answered that the disk failed.
#[derive(Drop)]
pub struct Journal<D: Disk> {
    pub(crate) disk: D,
    pub(crate) first: u64,
    pub(crate) place: u64,
    pub(crate) version: u8,
    pub(crate) stopped: bool,
    ghost in_order: { first ≤ place },
    ghost low: { place ≤ 2 ^ 62 },
    ghost at_gate: { D.tells → stopped ≡ false → place < length (D.reads disk) },
}

impl<D: Disk> Journal<D> {
    /// The bytes from the first gate to the one that it is at.
    pub fn log(&self) -> u64
        ensures { result ≡ self.now.place - self.now.first }
    {
        self.place - self.first
    }

    /// The place of the gate that it is at.
    pub fn place(&self) -> u64
        ensures { result ≡ self.now.place }
    {
        self.place
    }

    /// The version of the disk's bytes, where the journal was opened with `open` or `look`.
    pub fn version(&self) -> u8
        ensures { result ≡ self.now.version }
    {
        self.version
    }

    /// The disk.
    pub fn close(self) -> D
        ensures { result ≡ self.disk }
    {
        self.disk
    }
}
