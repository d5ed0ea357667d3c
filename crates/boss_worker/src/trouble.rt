ghost use Rattle.std.specs.Prelude.{◌≡◌};
ghost use Rattle.boss_worker.specs.Troubles.{trouble_of, trouble_of_guard, trouble_of_watch, trouble_of_work};

use boss_expiry::WorkEnd;
use boss_guard::GuardEnd;
use boss_sessions::SessionEnd;
use boss_watching::WatchEnd;

/// What of an end concerns the server as a whole.
#[derive(Clone, Copy, Debug, PartialEq, Eq)]
pub enum Trouble {
    /// Nothing.
    Nothing,
    /// The disk has failed.
    Disk,
    /// The clock failed.
    Clock,
    /// No memory was to be had.
    Memory,
}

/// What of a session's end concerns the server.
pub(crate) fn session_trouble(end: &SessionEnd) -> Trouble
    ensures { result ≡ trouble_of end.now }
{
    match end {
        SessionEnd::Stopped | SessionEnd::DiskFault => Trouble::Disk,
        SessionEnd::ClockFault => Trouble::Clock,
        SessionEnd::NoMemory => Trouble::Memory,
        _ => Trouble::Nothing,
    }
}

/// What of the end of a connection that watched concerns the server.
pub(crate) fn watch_trouble(end: WatchEnd) -> Trouble
    ensures { result ≡ trouble_of_watch end }
{
    match end {
        WatchEnd::Stopped | WatchEnd::DiskFault => Trouble::Disk,
        WatchEnd::ClockFault => Trouble::Clock,
        WatchEnd::NoMemory => Trouble::Memory,
        WatchEnd::Idle | WatchEnd::Closed | WatchEnd::WriteFault => Trouble::Nothing,
    }
}

/// What of the end of a worker that serves no connection concerns the server.
pub(crate) fn work_trouble(end: WorkEnd) -> Trouble
    ensures { result ≡ trouble_of_work end }
{
    match end {
        WorkEnd::Stopped | WorkEnd::DiskFault => Trouble::Disk,
        WorkEnd::ClockFault => Trouble::Clock,
        WorkEnd::Finished | WorkEnd::Closed => Trouble::Nothing,
    }
}

/// What of the end of a guarded worker concerns the server.
pub(crate) fn guard_trouble(end: GuardEnd) -> Trouble
    ensures { result ≡ trouble_of_guard end }
{
    match end {
        GuardEnd::Worked(end) => work_trouble(end),
        GuardEnd::NoMemory => Trouble::Memory,
    }
}
