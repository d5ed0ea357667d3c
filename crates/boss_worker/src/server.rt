use boss_keys::Keys;
use boss_points::Catalogue;

/// What the workers of a server have in common.
#[derive(Drop)]
pub struct Server<'a, G> {
    /// Where they have their commands done.
    pub desk: G,
    /// The points, by which lines are read and answers told.
    pub catalogue: &'a Catalogue,
    /// The keys by which who speaks is known, if there are such.
    pub keys: Option<&'a Keys>,
    /// How many of them serve connections: 1 to 1,024.
    pub workers: u32,
}
