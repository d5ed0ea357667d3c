ghost use Rattle.std.specs.Prelude.{◌≡◌, ℕ, ◌<◌, Bool, false, List, length, is_ok};
ghost use Rattle.boss_outside.specs.Counts.{HasCause};
ghost use Rattle.boss_outside.specs.Links.{Connects, Receives};
ghost use Rattle.boss_outside.specs.Streams.{FitsRoom, ReadCause, Writes};

use crate::{Failed, Got};

/// A connection to a host, which is made, used and shut again and again. It is to one host at a time.
pub trait Link {
    /// That the values of this type tell what went over them. A form in memory does; a real one can't.
    ghost tells: { Type 0 };

    /// All bytes ever sent, in order.
    ghost sent: { Self → List ℕ };

    /// All bytes ever received, in order.
    ghost received: { Self → List ℕ };

    /// The bytes that this connection still gives.
    ghost left: { Self → List ℕ };

    /// The hosts that it was connected to, in order.
    ghost hosts: { Self → List (List ℕ) };

    /// Whether there is a connection.
    ghost connected: { Self → Bool };

    /// The number of calls that failed, up to `2 ^ 64 - 1`, where it stands still.
    ghost faults: { Self → ℕ };

    /// Connects to a host, in place of the connection that there was: an address of the network and a port, as bytes.
    fn connect(&mut self, host: &[u8]) -> Result<(), Failed>
        ensures hosts { tells → Connects (hosts self.old) (hosts self.new) host.now result }
        ensures connected { tells → connected self.new ≡ is_ok result }
        ensures sent { tells → sent self.new ≡ sent self.old }
        ensures received { tells → received self.new ≡ received self.old }
        ensures cause { HasCause (faults self.old) (faults self.new) result };

    /// Sends all these bytes, or fails after some of them.
    fn send(&mut self, bytes: &[u8]) -> Result<(), Failed>
        ensures sent { tells → Writes (sent self.old) (sent self.new) bytes.now result }
        ensures received { tells → received self.new ≡ received self.old }
        ensures hosts { tells → hosts self.new ≡ hosts self.old }
        ensures cause { HasCause (faults self.old) (faults self.new) result };

    /// Receives some of the bytes that are left.
    fn receive(&mut self, into: &mut [u8]) -> Got
        requires { 0 < length into.old }
        ensures count { FitsRoom (length into.old) result }
        ensures bytes { tells → Receives (received self.old) (received self.new) (left self.old) (left self.new) into.new result }
        ensures sent { tells → sent self.new ≡ sent self.old }
        ensures hosts { tells → hosts self.new ≡ hosts self.old }
        ensures cause { ReadCause (faults self.old) (faults self.new) result };

    /// Ends the connection, where there is one.
    fn shut(&mut self)
        ensures connected { tells → connected self.new ≡ false }
        ensures sent { tells → sent self.new ≡ sent self.old }
        ensures received { tells → received self.new ≡ received self.old }
        ensures left { tells → left self.new ≡ left self.old }
        ensures hosts { tells → hosts self.new ≡ hosts self.old }
        ensures faults { faults self.new ≡ faults self.old };
}
