ghost use Rattle.std.specs.Prelude.{◌≡◌, ℕ, ◌<◌, List, ◌∷◌, ◌++◌};
ghost use Rattle.law_chain.specs.Chain.{Ask, Asked, Chain, HasMade, IsInOrder, IsDoneLast, OnlyOf, after_ask, run};

/// Once the head has another revision than an ask names, and a later one, that ask does nothing, whenever it comes.
pub fn who_lost_the_head_does_nothing()
    ensures { (chain : Chain) (before after : List Asked) (at : ℕ) (ask : Ask) → IsInOrder chain.revision (before ++ (at, ask) ∷ after)
        → ask.revision < chain.revision → run chain (before ++ (at, ask) ∷ after) ≡ run chain (before ++ after) }
{}

/// An ask that was done is not done again, however often it comes.
pub fn an_ask_is_done_once()
    ensures { (chain : Chain) (before after : List Asked) (first again : ℕ) (ask : Ask)
        → IsInOrder chain.revision ((first, ask) ∷ before ++ (again, ask) ∷ after) → ask.revision ≡ chain.revision
        → run chain ((first, ask) ∷ before ++ (again, ask) ∷ after) ≡ run chain ((first, ask) ∷ before ++ after) }
{}

/// Where the head names an ask, no matter how many asks came in between and from whom, that ask was the last that was done.
pub fn what_is_found_was_done()
    ensures { (chain : Chain) (asks : List Asked) (ask : Ask) → OnlyOf ask asks → HasMade chain ask
        → IsDoneLast chain asks ask }
{}

/// One that holds the bytes at a revision and has an ask done that names this revision holds the bytes then.
pub fn a_commit_changes_what_its_maker_had()
    ensures { (chain : Chain) (at : ℕ) (ask : Ask) (held : List ℕ) → held ≡ chain.bytes → ask.revision ≡ chain.revision
        → (after_ask chain at ask).bytes ≡ ask.change held }
{}
