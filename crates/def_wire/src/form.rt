/// Where a line stands, which decides what it may ask and what it may say of itself.
#[derive(Clone, Copy, Debug, PartialEq, Eq)]
pub enum Form {
    /// A line of a script: it may say which session it is of, and at which moment, and may ask for all but to watch.
    Script,
    /// The first line of a connection that is not blank: it may ask for all but `gone` and `tick`. Which session it is of and
    /// when it asks is not for it to say, and the keys `on` and `at` are passed over like all that have no name here.
    FirstLine,
    /// A later line of a connection: like the first, but it may not ask to watch.
    LaterLine,
}

/// What a line may ask for, by the text under its key `op`.
#[derive(Clone, Copy, Debug, PartialEq, Eq)]
pub enum Op {
    /// `attach`: become a control process.
    Attach,
    /// `submit`: write set-points.
    Submit,
    /// `renew`: keep leases for longer.
    Renew,
    /// `cancel`: end the leases of a transaction.
    Cancel,
    /// `read`: read a point's value.
    Read,
    /// `array`: read a point's slots.
    Array,
    /// `status`: ask how far a transaction has come.
    Status,
    /// `notices`: ask for notices.
    Notices,
    /// `points`: ask which points the catalogue has.
    Points,
    /// `version`: ask which program serves.
    Version,
    /// `gone`: the session's process is lost.
    Gone,
    /// `tick`: let time pass.
    Tick,
    /// `watch`: be told of a process's notices as they come.
    Watch,
}
