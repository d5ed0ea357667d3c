use boss_access::Rules;
use boss_keys::Keys;
use boss_points::Catalogue;

/// What a server goes by.
#[derive(Drop)]
pub struct Site<'a> {
    /// The points, by which lines are read and answers told.
    pub catalogue: &'a Catalogue,
    /// The rules by which submits are denied, if there are such.
    pub rules: Option<Rules>,
    /// The keys by which whoever connects shows who it is, if there are such.
    pub keys: Option<Keys>,
    /// How many of the workers are kept for whoever shows a key: the host is told so, and heeds it.
    pub reserve: u32,
}
