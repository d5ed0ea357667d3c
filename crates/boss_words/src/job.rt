use crate::Word;

/// What `bossd` is to do.
#[derive(Debug, Drop)]
pub enum Job {
    /// Run a script: commands come line by line on the standard input.
    Script {
        /// The catalogue's file.
        catalogue: Word,
        /// The journal's file, or `-` for a journal in memory alone.
        journal: Word,
    },
    /// Serve control processes over a network.
    Serve {
        /// The catalogue's file.
        catalogue: Word,
        /// The journal's file, or `-` for a journal in memory alone.
        journal: Word,
        /// Where connections are taken.
        address: Word,
        /// How many connections are served at once: 1 to 1,024.
        workers: u32,
        /// How many connections are taken in all, at least 1.
        connections: u32,
        /// The file that says which processes may write which points. Without one each may write all.
        rules: Option<Word>,
        /// The file that says where the points of the drivers are in the field. Without one no device is told of any.
        plan: Option<Word>,
        /// The file that says by which keys a process shows who it is. Without one each is taken at its word.
        keys: Option<Word>,
    },
    /// Tell what a journal stands for, without writing to it.
    Check {
        /// The catalogue's file.
        catalogue: Word,
        /// The journal's file.
        journal: Word,
    },
    /// Take over what a journal stands for under a changed catalogue.
    Adopt {
        /// The file of the catalogue that the journal was kept under.
        old: Word,
        /// The file of the catalogue that it is to be kept under.
        new: Word,
        /// The journal's file, or `-` for a journal in memory alone.
        journal: Word,
    },
    /// Take all moments of a journal back by a constant.
    Shift {
        /// The catalogue's file.
        catalogue: Word,
        /// The journal's file, or `-` for a journal in memory alone.
        journal: Word,
        /// By how much, in milliseconds: 1 to 2^62 - 1.
        by: u64,
    },
    /// Tell what a journal stands for, as lines that a standby follows.
    Feed {
        /// The catalogue's file.
        catalogue: Word,
        /// The journal's file, or `-` for a journal in memory alone.
        journal: Word,
        /// The number of the last event that is known already, or 0: below 2^62.
        from: u64,
    },
    /// Follow another journal: its feed comes line by line on the standard input.
    Standby {
        /// The catalogue's file.
        catalogue: Word,
        /// The journal's file, or `-` for a journal in memory alone.
        journal: Word,
    },
    /// Run a generated script.
    Load {
        /// How many transactions it submits: 1 to 10,000.
        count: u32,
        /// What the values that it sets are drawn from.
        seed: u32,
    },
    /// Tell how the program is used.
    Help,
    /// Tell which version of the program it is.
    Version,
}
