use boss_jobs::Status;
use boss_words::Word;

/// A server that the words ask for.
#[derive(Debug, Drop)]
pub struct ServeJob {
    /// The file of the catalogue.
    pub catalogue: Word,
    /// The journal's name, or `-` for memory alone.
    pub journal: Word,
    /// The address that the host listens at.
    pub address: Word,
    /// How many connections are served at once: 1 to 1,024.
    pub workers: u32,
    /// How many connections are served in all, at least 1. Then the server ends.
    pub connections: u32,
    /// The file of the access rules, if there is one.
    pub rules: Option<Word>,
    /// The file that says where the drivers' points are in the field, if there is one.
    pub plan: Option<Word>,
    /// The file of the keys by which whoever connects shows who it is, if there is one.
    pub keys: Option<Word>,
}

/// What is left of what the words ask for.
#[derive(Debug, Drop)]
pub enum Next {
    /// Nothing: this is how it ended.
    Done(Status),
    /// A server, which is not begun yet.
    Serve(ServeJob),
}
