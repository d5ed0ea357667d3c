// The kinds of step, and what each tells the seat that makes it.
ghost use Rattle.boss_counters.specs.Steps.{arrived, claimed, filed, recalled, fetched, accepted, parted};

use crate::view::{Errand, Known, Lying};
use atomic_table::Play;

// A new seat looks at the word.
pub struct Arrive;

impl<Q: Errand> Play<Lying<Q>, Known<Q>> for Arrive {
    ghost then = { arrived };
}

// Takes a free place.
pub struct Claim;

impl<Q: Errand> Play<Lying<Q>, Known<Q>> for Claim {
    ghost then = { claimed };
}

// Leaves a request in the place.
pub struct File;

impl<Q: Errand> Play<Lying<Q>, Known<Q>> for File {
    ghost then = { filed };
}

// Takes the own request back, with the place.
pub struct Recall;

impl<Q: Errand> Play<Lying<Q>, Known<Q>> for Recall {
    ghost then = { recalled };
}

// Takes the reply to the own request, with the place.
pub struct Fetch;

impl<Q: Errand> Play<Lying<Q>, Known<Q>> for Fetch {
    ghost then = { fetched Q.answers };
}

// Takes a request, to serve it.
pub struct Accept;

impl<Q: Errand> Play<Lying<Q>, Known<Q>> for Accept {
    ghost then = { accepted Q.may };
}

// Leaves a reply, or an empty place.
pub struct Finish;

impl<Q: Errand> Play<Lying<Q>, Known<Q>> for Finish {
    ghost then = { parted };
}
