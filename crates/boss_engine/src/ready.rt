use boss_model::{Lease, Notice, Refusal};
use boss_notices::Ring;
use boss_persistent::Decision;
use boss_stages::Transaction;

/// What was taken for a command before time passes, so that it wants no memory when it acts. A command is refused, or answered
/// by a reply that is kept, before it takes any.
#[derive(Drop)]
pub enum Ready {
    /// The command takes no memory.
    Nothing,
    /// The command is refused.
    Refused(Refusal),
    /// The reply that is kept of the process decides the command.
    Decided(Decision),
    /// The ring of a new process.
    Process(Ring),
    /// The record of a new transaction, and its leases.
    Submit {
        transaction: Transaction,
        leases: Vec<Lease>,
    },
    /// Room for a list of notices.
    List(Vec<Notice>),
}
