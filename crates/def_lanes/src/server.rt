/// A server of which the laws speak: its plant, the number of its workers for connections, and what each work has to say. No
/// value of it is ever made.
pub trait Server {
    ghost use Rattle.def_lanes.specs.Parts.{Terms};

    /// The terms on which its workers tell what they did.
    ghost terms: { Terms };
}
