ghost use Rattle.std.specs.Prelude.{◌≡◌, Bool, true, List, [], ◌++◌};
ghost use Rattle.std.specs.List.{AllByRecursion, filter};
ghost use Rattle.def_history.specs.declared.entry.Entry.{Entry};
ghost use Rattle.def_history.specs.History.{deeds};
ghost use Rattle.def_lanes.specs.Lanes.{lane_of};
ghost use Rattle.def_lanes.specs.Parts.{Joined, Agreed};
ghost use Rattle.def_lanes.specs.Works.{Work, AreStrange, served_in, is_done_by, HaveOwnSessions};

use crate::Server;

/// What one side alone has is as it was there: where entries are put behind others; where deeds are, and marks maybe elsewhere;
/// and where a join is told by tests of all entries.
pub fn a_join_keeps_what_one_side_has()
    ensures behind { (old more : List Entry) → Joined old more (old ++ more) }
    ensures grown { (old more new : List Entry) → deeds new ≡ deeds old ++ more → Joined old more new }
    ensures tested { (old other new : List Entry) →
        ((test : Entry → Bool) → filter test other ≡ [] → filter test new ≡ filter test old) →
        ((test : Entry → Bool) → filter test old ≡ [] → filter test new ≡ filter test other) → Joined old other new }
{}

/// Works that agree with their entries agree with the history in which they are joined, where none is done in a lane of the
/// other side. Where nothing was done, no work agrees.
pub fn works_agree_after_a_join<S: Server>()
    ensures nothing { (entries : List Entry) → deeds entries ≡ [] → Agreed S.terms.plant S.terms.says entries [] }
    ensures joined { (old other new : List Entry) (works others : List Work) → Agreed S.terms.plant S.terms.says old works →
        Agreed S.terms.plant S.terms.says other others → Joined old other new → AreStrange works others →
        Agreed S.terms.plant S.terms.says new (works ++ others) }
{}

/// Where works agree with a history, each of its entries is in the lane of one of them, and each of the connections among them
/// has a session of its own.
pub fn all_that_was_done_is_work<S: Server>()
    ensures done { (entries : List Entry) (works : List Work) → Agreed S.terms.plant S.terms.says entries works →
        AllByRecursion (λ entry. is_done_by works (lane_of S.terms.plant entry) ≡ true) (deeds entries) }
    ensures sessions { (entries : List Entry) (works : List Work) → Agreed S.terms.plant S.terms.says entries works → HaveOwnSessions (served_in works) }
{}
