ghost use Rattle.std.specs.Prelude.{◌≡◌, ℕ, suc, ◌<◌, ◌≤◌, List, [], ◌∷◌, ◌++◌};
ghost use Rattle.def_history.specs.declared.entry.Entry.{Entry};
ghost use Rattle.def_history.specs.History.{deeds};
ghost use Rattle.def_lanes.specs.Parts.{Joined, Added, Part};
ghost use Rattle.def_lanes.specs.Works.{Work, course_of, lane_of_work, owner, IsAbsent, served_by};
ghost use Rattle.boss_outside_server.specs.Hosts.{Served};

use crate::Server;

/// What a worker leaves comes together: at first nothing; then one work after another; and then the parts of all workers, in
/// the order of their numbers.
pub fn parts_come_together<S: Server>()
    ensures nothing { (first end : ℕ) (own : List Entry) (served : List Served) (given : List ℕ) → deeds own ≡ [] →
        Part S.terms first end [] own served served given given }
    ensures more { (first end : ℕ) (works : List Work) (work : Work) (own own' : List Entry) (served served' served'' : List Served)
        (given given' given'' : List ℕ) → Part S.terms first end works own served served' given given' →
        Added S.terms.plant (lane_of_work work) (S.terms.says work) S.terms.clocking (course_of work).moments own own' given' given'' →
        first ≤ owner S.terms.workers work → owner S.terms.workers work < end → IsAbsent (lane_of_work work) works →
        (S.terms.hosting → served'' ≡ served' ++ served_by work) → Part S.terms first end (works ++ work ∷ []) own' served served'' given given'' }
    ensures both { (first middle end : ℕ) (works others : List Work) (old other new : List Entry) (served served' back served'' : List Served)
        (given given' gave given'' : List ℕ) → first ≤ middle → middle ≤ end → Part S.terms first middle works old served served' given given' →
        Part S.terms middle end others other [] back [] gave → Joined old other new → (S.terms.hosting → served'' ≡ served' ++ back) →
        (S.terms.clocking → given'' ≡ given' ++ gave) → Part S.terms first end (works ++ others) new served served'' given given'' }
    ensures next { (number : ℕ) (works others : List Work) (old other new : List Entry) (served served' back served'' : List Served)
        (given given' gave given'' : List ℕ) → Part S.terms 0 number works old served served' given given' →
        Part S.terms number (suc number) others other [] back [] gave → Joined old other new → (S.terms.hosting → served'' ≡ served' ++ back) →
        (S.terms.clocking → given'' ≡ given' ++ gave) → Part S.terms 0 (suc number) (works ++ others) new served served'' given given'' }
{}
