ghost use Rattle.std.specs.Prelude.{◌≡◌, ℕ, ◌+◌, ◌++◌, List, length};
ghost use Rattle.boss_outside.specs.Counts.{HasCause};
ghost use Rattle.boss_outside.specs.Links.{Connects};
ghost use Rattle.boss_outside.specs.Sockets.{Fits, gained, HearCause, Sends, silence_in};

use crate::Failed;

/// What came of waiting for a datagram.
#[derive(Clone, Copy, Debug, PartialEq, Eq)]
pub enum Heard {
    /// One of so many bytes, which stand first in the room. What has no room is lost.
    Datagram(usize),
    /// None, for as long as an answer is waited for after the last send.
    Silence,
    /// The socket failed.
    Failed,
}

/// A socket, which sends datagrams to one host at a time and hears those of that host alone.
pub trait Datagrams {
    /// That the values of this type tell what went over them. A form in memory does; a real one can't.
    ghost tells: { Type 0 };

    /// All datagrams ever sent, in order.
    ghost sent: { Self → List (List ℕ) };

    /// All datagrams ever heard, in order, as far as there was room for each.
    ghost received: { Self → List (List ℕ) };

    /// The hosts that it was opened to, in order.
    ghost hosts: { Self → List (List ℕ) };

    /// How often there was silence.
    ghost silences: { Self → ℕ };

    /// The number of calls that failed, up to `2 ^ 64 - 1`, where it stands still.
    ghost faults: { Self → ℕ };

    /// Sends to this host from now on, and hears it alone: an address of the network and a port, as bytes.
    fn open(&mut self, host: &[u8]) -> Result<(), Failed>
        ensures hosts { tells → Connects (hosts self.old) (hosts self.new) host.now result }
        ensures sent { tells → sent self.new ≡ sent self.old }
        ensures received { tells → received self.new ≡ received self.old }
        ensures silences { tells → silences self.new ≡ silences self.old }
        ensures cause { HasCause (faults self.old) (faults self.new) result };

    /// Sends a datagram.
    fn send(&mut self, bytes: &[u8]) -> Result<(), Failed>
        ensures sent { tells → Sends (sent self.old) (sent self.new) bytes.now result }
        ensures received { tells → received self.new ≡ received self.old }
        ensures silences { tells → silences self.new ≡ silences self.old }
        ensures hosts { tells → hosts self.new ≡ hosts self.old }
        ensures cause { HasCause (faults self.old) (faults self.new) result };

    /// Waits for a datagram.
    fn hear(&mut self, into: &mut [u8]) -> Heard
        ensures count { Fits (length into.old) result }
        ensures received { tells → received self.new ≡ received self.old ++ gained into.new result }
        ensures silences { tells → silences self.new ≡ silences self.old + silence_in result }
        ensures sent { tells → sent self.new ≡ sent self.old }
        ensures hosts { tells → hosts self.new ≡ hosts self.old }
        ensures cause { HearCause (faults self.old) (faults self.new) result };
}
