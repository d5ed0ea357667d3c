ghost use Rattle.std.specs.Prelude.{◌≡◌, ◌≤◌, ◌<◌, ℕ, false, List, length, None};
ghost use Rattle.boss_durable.specs.Words.{keeps, lasting, leaves};
ghost use Rattle.boss_model.specs.declared.event.Event.{Event};
ghost use Rattle.boss_model.specs.Limits.{last_number, record_room};
ghost use Rattle.boss_model.specs.Plants.{IsPlant};
ghost use Rattle.boss_model.specs.Sound.{IsSound};
ghost use Rattle.boss_model.specs.State.{Persistent};
ghost use Rattle.def_disk_pair.specs.Pairs.{OpensCleanly};
ghost use Rattle.boss_disk_pair.specs.Causes.{first_disk, second_disk};
ghost use Rattle.boss_disk_pair.specs.Images.{OpensToOne};
ghost use Rattle.boss_disk_pair.specs.Rests.{rests};
ghost use Rattle.def_log.specs.Versions.{newest_version};

use crate::Durable;
use crate::batch::Batch;
use crate::sound_engine::SoundEngine;
use boss_disk::Disk;
use boss_disk_pair::TwoDisks;
use boss_engine::Engine;
use boss_model::Buffer;
use std::alloc::Global;

impl<D: Disk> Durable<D> {
    /// An engine and disks that stand for what lasts of it, together. Records are put together in the buffer, and a log may
    /// have `log_limit` bytes.
    pub fn resting(
        alloc: Global,
        engine: Engine,
        disks: TwoDisks<D>,
        buffer: Buffer,
        log_limit: u64,
    ) -> Durable<D>
        requires plant { IsPlant engine.plant }
        requires sound { IsSound engine.plant engine.state }
        requires version { disks.journal.version ≡ newest_version }
        requires room { buffer.capacity ≡ record_room }
        requires limit { 131072 ≤ log_limit }
        ensures keeps { (events : List Event) → rests disks engine.plant engine.state.persistent (length events) → keeps result events }
        ensures leaves { (events : List Event) → rests disks engine.plant engine.state.persistent (length events) →
            leaves result (lasting result) (lasting result) }
        ensures engine { result.engine ≡ engine }
        ensures disks { result.disks ≡ disks }
        ensures limit { result.log_limit ≡ log_limit }
        ensures confirmed { result.confirmed ≡ None }
    {
        Durable {
            alloc,
            engine: SoundEngine::new(engine),
            disks,
            batch: Batch {
                bytes: buffer,
                events: 0,
            },
            log_limit,
            confirmed: None,
        }
    }

    /// The disks, the first and the second. Those of a value at rest are clean, and open to what lasts of the engine; any others
    /// to what they may leave.
    pub fn close(self) -> (D, D)
        ensures disks { (result.0 ≡ first_disk self.disks) × (result.1 ≡ second_disk self.disks) }
        ensures opens { D.tells → (events : List Event) → keeps self events → length events < last_number →
            OpensCleanly self.engine.plant self.disks.digest (lasting self) (length events) (D.reads result.0) (D.reads result.1) }
        ensures left { D.tells → (a b : Persistent) → leaves self a b →
            OpensToOne self.engine.plant self.disks.digest a b (D.reads result.0) (D.reads result.1) }
    {
        self.disks.close()
    }
}
