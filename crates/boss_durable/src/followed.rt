/// What became of an event or a state of another history that was to be followed.
#[derive(Clone, Copy, Debug, PartialEq, Eq)]
pub enum Followed {
    /// The engine has it, and the disks have it.
    Done,
    /// The event is not effective. What lasts is as it was.
    NotEffective,
    /// The state is not sound over the catalogue's points. Nothing has changed.
    NotSound,
    /// A disk failed in an earlier call. Nothing has changed.
    Stopped,
    /// A disk failed in this call.
    DiskFault,
    /// No memory was to be had. What lasts is as it was.
    NoMemory,
}
