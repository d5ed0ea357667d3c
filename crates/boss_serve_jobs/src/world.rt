use boss_words::Word;

/// What a server is asked for.
#[derive(Clone, Copy, Debug)]
pub struct Service<'a> {
    /// The address that the host listens at.
    pub address: &'a str,
    /// How many workers serve connections: 1 to 1,024.
    pub workers: u32,
    /// How many connections are served. Then the server ends.
    pub connections: u32,
    /// The file of the access rules, if there is one.
    pub rules: &'a Option<Word>,
    /// The file that says where the drivers' points are in the field, if there is one.
    pub plan: &'a Option<Word>,
    /// The file of the keys by which whoever connects shows who it is, if there is one.
    pub keys: &'a Option<Word>,
}

/// What a server has beside its files.
#[derive(Drop)]
pub struct Surroundings<'a, K, A, C, H, W, P> {
    /// What its last line is written to.
    pub sink: &'a mut K,
    /// The devices, each of them that of the driver with its place as number.
    pub devices: &'a mut Vec<A>,
    /// What gives the time.
    pub clock: &'a mut C,
    /// What hands out connections.
    pub host: &'a mut H,
    /// What a worker waits by.
    pub waiter: &'a mut W,
    /// What runs the workers.
    pub spawner: &'a mut P,
}

/// All that the program is given.
#[derive(Drop)]
pub struct World<'a, F, S, K, A, C, H, W, P> {
    /// The catalogue's file, and the journal's two.
    pub files: &'a mut F,
    /// What a script's lines are read from.
    pub source: &'a mut S,
    /// What is written to.
    pub sink: &'a mut K,
    /// The devices, each of them that of the driver with its place as number.
    pub devices: &'a mut Vec<A>,
    /// What gives the time.
    pub clock: &'a mut C,
    /// What hands out connections.
    pub host: &'a mut H,
    /// What a worker waits by.
    pub waiter: &'a mut W,
    /// What runs the workers.
    pub spawner: &'a mut P,
}
