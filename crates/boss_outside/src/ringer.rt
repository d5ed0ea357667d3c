ghost use Rattle.std.specs.Prelude.{◌≡◌, ℕ, List, [], ◌∷◌, ◌++◌};

/// Something that wakes workers who wait at bells.
pub trait Ringer: Sized + Drop {
    /// That the values of this type tell which bells they rang. A form in memory does; a real one can't.
    ghost tells: { Type 0 };

    /// The bells that it rang, in order.
    ghost rung: { Self → List ℕ };

    /// That no bell is missing among them. A form in memory leaves out a bell that it has no memory to note, and its record
    /// is never whole again.
    ghost whole: { Self → Type 0 };

    /// The moment that the alarm was set to last, in milliseconds since 1970; `2 ^ 64 - 1` where it never was.
    ghost alarm: { Self → ℕ };

    /// Wakes whoever waits at the bell, or will wait there and has not heard it by then.
    fn ring(&mut self, bell: u32)
        // As long as the record is whole it was so before, and it gained this bell.
        ensures rung { tells → whole self.new → whole self.old × (rung self.new ≡ rung self.old ++ bell ∷ []) }
        ensures alarm { tells → alarm self.new ≡ alarm self.old };

    /// From now on the worker for time is woken at this moment, in milliseconds since 1970, if its pause has not ended before.
    fn set_alarm(&mut self, moment: u64)
        ensures rung { tells → (whole self.new → whole self.old) × (rung self.new ≡ rung self.old) }
        ensures alarm { tells → alarm self.new ≡ moment };
}
