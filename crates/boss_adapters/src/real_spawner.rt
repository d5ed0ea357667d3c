use boss_outside_server::Spawner;
use std::thread::Threads;

/// A spawner that runs each task in a thread of its own. It starts every task: where no thread can be made for one, that
/// task runs after those in front of it.
#[derive(Drop)]
pub struct RealSpawner<R> {
    rt: R,
}

impl<R> RealSpawner<R> {
    /// The spawner of the threads that `rt` makes.
    pub fn new(rt: R) -> RealSpawner<R> {
        RealSpawner { rt }
    }
}

impl<R: Threads> Spawner for RealSpawner<R> {
    ghost use Rattle.std.specs.Prelude.{◌≡◌, true};

    type Runtime = R;

    ghost faults = { λ spawner. 0 };

    ghost starting = { λ old starts new. (starts ≡ true) × (new ≡ old) };

    fn starts(&mut self) -> bool {
        true
    }

    fn threads(&self) -> Option<&R> {
        Some(&self.rt)
    }
}
