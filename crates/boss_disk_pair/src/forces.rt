ghost use Rattle.std.specs.Prelude.{◌≡◌, Some};
ghost use Rattle.def_log.specs.declared.kind.DiskKind.TheVariants as disk_kind;
ghost use Rattle.boss_disk_pair.specs.Forces.{TellsForce};

use def_log::DiskKind;

/// Which disk of a pair is in force, and what it holds.
#[derive(Clone, Copy, Debug, PartialEq, Eq)]
pub enum Force {
    /// Nothing was written yet.
    Neither,
    /// The first disk, a journal from the first state on.
    Plain,
    /// A kept state of this generation, on the first disk or on the second.
    State { second: bool, generation: u64 },
}

/// Which disk is in force, by the kinds of both; none, where one of them is not this program's.
pub fn force_of(first: DiskKind, second: DiskKind) -> Option<Force>
    ensures { TellsForce first second result }
{
    match second {
        DiskKind::Idle => force_alone(first),
        DiskKind::State { generation } => force_beside(first, generation),
        DiskKind::Plain | DiskKind::Other => None,
    }
}

/// The same, beside a second disk that holds nothing.
fn force_alone(first: DiskKind) -> Option<Force>
    ensures { TellsForce first disk_kind.Idle result }
{
    match first {
        DiskKind::Idle => Some(Force::Neither),
        DiskKind::Plain => Some(Force::Plain),
        DiskKind::State { generation } => Some(Force::State {
            second: false,
            generation,
        }),
        DiskKind::Other => None,
    }
}

/// The same, beside a kept state of this generation.
fn force_beside(first: DiskKind, generation: u64) -> Option<Force>
    ensures { TellsForce first (disk_kind.State generation) result }
{
    match first {
        DiskKind::Idle | DiskKind::Plain => Some(Force::State {
            second: true,
            generation,
        }),
        DiskKind::State { generation: before } => Some(later(before, generation)),
        DiskKind::Other => None,
    }
}

/// Of two kept states the second is in force only where it follows the first.
fn later(first: u64, second: u64) -> Force
    ensures { TellsForce (disk_kind.State first) (disk_kind.State second) (Some result) }
{
    if second == first.wrapping_add(1) {
        Force::State {
            second: true,
            generation: second,
        }
    } else {
        Force::State {
            second: false,
            generation: first,
        }
    }
}
