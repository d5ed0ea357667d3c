ghost use Rattle.std.specs.Prelude.{◌≡◌};

/// What a server has of the world around it: where connections come from, time, pauses, devices, and threads.
#[derive(Drop)]
pub struct Outside<'w, H, C, W, A, P> {
    /// Hands out connections.
    pub host: &'w mut H,
    /// Tells the moment.
    pub clock: &'w mut C,
    /// Lets workers pause, and tells them when to end.
    pub waiter: &'w mut W,
    /// The devices, each at the place that is the number of its driver.
    pub devices: &'w mut Vec<A>,
    /// Runs workers.
    pub spawner: &'w mut P,
}

impl<'w, H, C, W, A, P> Outside<'w, H, C, W, A, P> {
    /// These, as one value.
    pub fn new(
        host: &'w mut H,
        clock: &'w mut C,
        waiter: &'w mut W,
        devices: &'w mut Vec<A>,
        spawner: &'w mut P,
    ) -> Outside<'w, H, C, W, A, P>
        ensures host { (result.host.ghost_name ≡ host.entry.ghost_name) × (result.host.now ≡ host.old) }
        ensures clock { (result.clock.ghost_name ≡ clock.entry.ghost_name) × (result.clock.now ≡ clock.old) }
        ensures waiter { (result.waiter.ghost_name ≡ waiter.entry.ghost_name) × (result.waiter.now ≡ waiter.old) }
        ensures devices { (result.devices.ghost_name ≡ devices.entry.ghost_name) × (result.devices.now ≡ devices.old) }
        ensures spawner { (result.spawner.ghost_name ≡ spawner.entry.ghost_name) × (result.spawner.now ≡ spawner.old) }
    {
        Outside {
            host,
            clock,
            waiter,
            devices,
            spawner,
        }
    }
}
