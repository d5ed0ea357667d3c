use boss_model::Name;
use std::error::Error;
use std::fmt;

/// Why a state was not adopted: the first of these that holds. Names are those of the old catalogue.
#[derive(Debug, Drop)]
pub enum AdoptRefusal {
    /// A transaction that is not done wrote this point, which is removed: of several such points the least.
    InUse { name: Name },
    /// A lease or a reversion on this point has a value, or a step with one, that the point takes no more: of several such
    /// points the least.
    Unfit { name: Name },
    /// No memory was to be had. This says nothing of the state.
    NoMemory,
}

impl fmt::Display for AdoptRefusal {
    fn fmt<W: fmt::Write>(&self, f: &mut fmt::Formatter<W>) -> fmt::Result {
        match self {
            AdoptRefusal::InUse { name } => write!(
                f,
                "a transaction that is not done wrote the point {name}, which is removed"
            ),
            AdoptRefusal::Unfit { name } => write!(
                f,
                "a lease or a reversion on the point {name} has a value that it takes no more"
            ),
            AdoptRefusal::NoMemory => f.write_str("out of memory"),
        }
    }
}

impl Error for AdoptRefusal {}
