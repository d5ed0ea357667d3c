ghost use Rattle.std.specs.Prelude.{◌≡◌, ◌+◌, ◌*◌, ◌<◌, ◌≤◌, length, vec_capacity};
ghost use Rattle.boss_model.specs.Limits.{done_kept, most_processes};
ghost use Rattle.boss_persistent.specs.Lasting.{IsKept};

use crate::machine::Machine;

/// What an engine has room for. It takes the room as it is made, but for that of a ring, which it takes with the process.
#[derive(Clone, Copy, Debug, PartialEq, Eq)]
pub struct Room {
    /// Live leases: one in each slot.
    pub leases: u32,
    /// Reversions under way: one in each slot.
    pub reversions: u32,
    /// Timers: one for each lease and for each reversion.
    pub timers: u32,
    /// Records of transactions.
    pub records: usize,
    /// Sessions that hold a process.
    pub sessions: usize,
    /// What is told in one step.
    pub told: usize,
    /// The rings of notices: one for each process.
    pub rings: usize,
}

impl Machine {
    /// What there is room for.
    pub fn room(&self) -> Room
        requires kept { IsKept self.now.lasting }
        requires sessions { most_processes ≤ vec_capacity self.now.attached }
        requires told { 32 * self.now.lasting.holdings.points < vec_capacity self.now.told }
        ensures leases { result.leases ≡ 16 * self.now.lasting.holdings.points }
        ensures reversions { result.reversions ≡ 16 * self.now.lasting.holdings.points }
        ensures timers { result.timers ≡ 32 * self.now.lasting.holdings.points }
        ensures records { self.now.lasting.holdings.points + done_kept ≤ result.records }
        ensures sessions { most_processes ≤ result.sessions }
        ensures told { 32 * self.now.lasting.holdings.points < result.told }
        ensures rings { result.rings ≡ length self.now.lasting.processes }
    {
        let places = self.lasting.holdings.places();
        Room {
            leases: places.leases,
            reversions: places.reversions,
            timers: places.timers,
            records: self.lasting.stages.room(),
            sessions: self.attached.capacity(),
            told: self.told.capacity(),
            rings: self.lasting.processes.count(),
        }
    }
}
