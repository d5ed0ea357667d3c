ghost use Rattle.std.specs.Prelude.{◌≡◌, true, IfOk};
ghost use Rattle.boss_following.specs.Within.{is_within};

use crate::place::Place;
use boss_feed_lines::ItemReader;
use boss_model::NoMemory;
use std::alloc::Global;

/// What is known of a feed beside the journal that follows it.
#[derive(Drop)]
pub struct Following {
    pub(crate) alloc: Global,
    pub(crate) reader: ItemReader,
    pub(crate) place: Place,
    /// The bytes that have come of a state that is to be taken.
    pub(crate) state: Vec<u8>,
    ghost within: { is_within place state.items ≡ true },
}

impl Following {
    /// Before the first line.
    pub fn new(alloc: Global) -> Result<Following, NoMemory>
        ensures { IfOk result (λ following. following.place ≡ Place.Between) }
    {
        Ok(Following {
            alloc,
            reader: ItemReader::new(alloc)?,
            place: Place::Between,
            state: Vec::new(alloc),
        })
    }

    /// What the lines so far are in the midst of.
    pub fn place(&self) -> Place
        ensures { result ≡ self.now.place }
    {
        self.place
    }
}
