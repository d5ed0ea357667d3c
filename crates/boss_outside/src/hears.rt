ghost use Rattle.std.specs.Prelude.{◌≡◌, length};
ghost use Rattle.boss_outside.specs.Notes.{IsShown};

use crate::{BytesSource, Sink, Source};

/// A source that can be shown what the sink of its connection has taken.
pub trait Hears<K: Sink>: Source {
    /// Shows the source what the sink has taken by now. It reads nothing.
    fn show(&mut self, sink: &K)
        ensures told { K.tells → IsShown (Self.reads self.new) (Self.told self.new) (length (K.taken sink.now)) }
        ensures reads { Self.reads self.new ≡ Self.reads self.old }
        ensures left { Self.left self.new ≡ Self.left self.old }
        ensures held { Self.held self.new ≡ Self.held self.old }
        ensures faults { Self.faults self.new ≡ Self.faults self.old };
}

impl<K: Sink> Hears<K> for BytesSource {
    fn show(&mut self, _sink: &K)
        ensures { self.new ≡ self.old }
    {}
}
