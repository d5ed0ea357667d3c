/// Why no more requests are done.
#[derive(Clone, Copy, Debug, PartialEq, Eq)]
pub(crate) enum Halt {
    /// The disk had failed in an earlier call.
    Stopped,
    /// The disk failed in this call.
    DiskFault,
    /// A write failed.
    WriteFault,
}
