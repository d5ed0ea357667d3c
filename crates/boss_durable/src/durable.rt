ghost use Rattle.std.specs.Prelude.{◌≡◌, ◌≤◌, false, length};
ghost use Rattle.boss_model.specs.Devices.{wanting};
ghost use Rattle.def_log.specs.Versions.{newest_version};

use crate::batch::Batch;
use crate::sound_engine::SoundEngine;
use boss_disk::Disk;
use boss_disk_pair::TwoDisks;
use boss_model::DriverId;
use std::alloc::Global;

/// An engine and the disks on which it keeps what it does. Once a disk has failed it does no more.
#[derive(Drop)]
pub struct Durable<D: Disk> {
    // For the kept state with which a log begins.
    pub(crate) alloc: Global,
    pub(crate) engine: SoundEngine,
    pub(crate) disks: TwoDisks<D>,
    /// The events of the call that is under way.
    pub(crate) batch: Batch,
    /// How many bytes a log may have.
    pub(crate) log_limit: u64,
    /// The moment of the call before which the disk in force was asked last, in milliseconds. None before the first.
    pub(crate) confirmed: Option<u64>,
    ghost version: { disks.stopped ≡ false → disks.journal.version ≡ newest_version },
    ghost room: { batch.bytes.capacity ≡ 65536 },
    ghost limit: { 131072 ≤ log_limit },
}

impl<D: Disk> Durable<D> {
    /// Whether a disk failed in an earlier call.
    pub fn stopped(&self) -> bool
        ensures { result ≡ self.now.disks.stopped }
    {
        self.disks.stopped()
    }

    /// The generation of the kept state that is in force; 0 where there is none yet.
    pub fn generation(&self) -> u64
        ensures { result ≡ self.now.disks.generation }
    {
        self.disks.generation()
    }

    /// The moment of the last change, in milliseconds.
    pub fn now(&self) -> u64
        ensures { result ≡ self.now.engine.state.persistent.now }
    {
        self.engine.engine().now()
    }

    /// How many leases are live.
    pub fn leases(&self) -> u64
        ensures { result ≡ length self.now.engine.state.persistent.leases }
    {
        self.engine.engine().leases()
    }

    /// How many reversions are under way.
    pub fn pending(&self) -> u64
        ensures { result ≡ length self.now.engine.state.persistent.pending }
    {
        self.engine.engine().pending()
    }

    /// The least driver that has a want.
    pub fn wanting(&self) -> Option<DriverId>
        ensures { result ≡ wanting self.now.engine.plant self.now.engine.state }
    {
        self.engine.engine().wanting()
    }
}
