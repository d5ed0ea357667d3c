ghost use Rattle.std.specs.Prelude.{◌≡◌, true, false, option_copied};
ghost use Rattle.boss_worker.specs.Saying.{terms_of};
ghost use Rattle.boss_worker.specs.Workers.{HasLeft, IsReady, share_at, was_at};

use crate::devices::drive_devices;
use crate::trouble::work_trouble;
use crate::visits::attend_all;
use crate::{Duty, Flags, Server};
use boss_expiry::expire;
use boss_outside::{Actuators, TIME_BELL, driver_bell};
use boss_outside_server::{Clock, Host, Task, Waiter};
use boss_shared::Desk;
use std::alloc::Global;

/// How many turns a worker takes that serves no connection, unless it is told to end.
const TURNS: u64 = 1 << 62;

/// A worker of a server, with its parts of what the server has: a pass at the desk, a clock, a waiter, and what its duty needs.
#[derive(Drop)]
pub struct Worker<'a, G: Desk, H, C, W, A> {
    pub alloc: Global,
    pub server: &'a Server<'a, G>,
    /// Its place among all workers, from 0 on: those that serve connections come first.
    pub number: u32,
    pub pass: G::Pass,
    pub duty: Duty<H, A>,
    pub clock: C,
    pub waiter: W,
    /// What went wrong at it.
    pub flags: Flags,
}

impl<'a, G: Desk, H: Host, C: Clock, W: Waiter, A: Actuators + Drop> Task
    for Worker<'a, G, H, C, W, A> {
    ghost ready = { λ worker. IsReady G.Desk H.Host C.Clock W.Waiter A.Actuators worker.server.now.catalogue.now worker.server.now.desk worker.server.now.workers
        worker.number worker.pass worker.duty worker.clock worker.waiter worker.flags };

    ghost ran = { λ old new. (new.server.now ≡ old.server.now) × (new.number ≡ old.number) × (share_at H.Host new.duty ≡ share_at H.Host old.duty)
        × (was_at new.duty ≡ was_at old.duty)
        × HasLeft G.Desk H.Host C.Clock W.Waiter A.Actuators true (terms_of new.server.now.catalogue.now (G.denies new.server.now.desk) (option_copied new.server.now.keys) new.server.now.workers H.In.tells H.Out.tells H.tells C.tells W.tells)
        new.server.now.desk new.number new.pass new.duty new.clock new.waiter new.flags };

    ghost abandoned = { λ old new. (new.server.now ≡ old.server.now) × (new.number ≡ old.number) × (share_at H.Host new.duty ≡ share_at H.Host old.duty)
        × (was_at new.duty ≡ was_at old.duty)
        × HasLeft G.Desk H.Host C.Clock W.Waiter A.Actuators false (terms_of new.server.now.catalogue.now (G.denies new.server.now.desk) (option_copied new.server.now.keys) new.server.now.workers H.In.tells H.Out.tells H.tells C.tells W.tells)
        new.server.now.desk new.number new.pass new.duty new.clock new.waiter new.flags };

    fn run(&mut self) {
        match &mut self.duty {
            Duty::Connections(host) => {
                let (flags, connections) = attend_all(
                    self.alloc,
                    self.server,
                    self.number,
                    &mut self.pass,
                    host,
                    &mut self.clock,
                    &mut self.waiter,
                );
                self.flags = flags;
                self.waiter.leave(connections);
            }
            Duty::Time => {
                self.waiter.listen(TIME_BELL);
                let end = expire(
                    &self.server.desk,
                    &mut self.pass,
                    &mut self.clock,
                    &mut self.waiter,
                    TURNS,
                );
                self.flags = self.flags.after(work_trouble(end));
            }
            Duty::Devices(driver, devices, _) => {
                self.waiter.listen(driver_bell(*driver));
                let trouble = drive_devices(
                    self.alloc,
                    &self.server.desk,
                    &mut self.pass,
                    self.server.catalogue,
                    *driver,
                    devices,
                    &mut self.clock,
                    &mut self.waiter,
                    TURNS,
                );
                self.flags = self.flags.after(trouble);
            }
        }
    }

    fn abandon(&mut self) {
        if let Duty::Connections(_) = self.duty {
            self.waiter.leave(0);
        }
    }
}
