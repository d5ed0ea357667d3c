/// What a disk of a journal's pair holds, by its length and its first bytes.
#[derive(Clone, Copy, Debug, PartialEq, Eq)]
pub enum DiskKind {
    /// Nothing that counts: at most one byte, or a first byte of 0, as a stop may leave while the disk is made.
    Idle,
    /// A journal whose events begin at the first state.
    Plain,
    /// A kept state of this generation, with the events after it.
    State { generation: u64 },
    /// Bytes that this program did not write.
    Other,
}
