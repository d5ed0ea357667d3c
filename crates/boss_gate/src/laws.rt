ghost use Rattle.std.specs.Prelude.{◌≡◌, ℕ, true, List, ◌∷◌, ◌++◌, Option, Some, None};
ghost use Rattle.boss_gate.specs.Allowed.{held_over, Judged};
ghost use Rattle.boss_lock.specs.Places.{entries_at};
ghost use Rattle.boss_model.specs.declared.answer.Answer.{Answer};
ghost use Rattle.boss_model.specs.declared.command.Command.{Command};
ghost use Rattle.boss_model.specs.declared.command.Command.TheVariants as command;
ghost use Rattle.boss_model.specs.declared.command.Policy.{Policy};
ghost use Rattle.boss_model.specs.declared.command.Setting.{Setting};
ghost use Rattle.boss_model.specs.declared.state.Actuator.{Actuator};
ghost use Rattle.boss_model.specs.State.{State};
ghost use Rattle.boss_shared.specs.Gates.{admits, denial_of, denied_to, denied_writes, held_after, AllowedAll, Gate, Holding};
ghost use Rattle.boss_shared.specs.Passes.{Batch, TurnsBy};
ghost use Rattle.def_history.specs.declared.entry.Entry.{Entry};
ghost use Rattle.def_history.specs.declared.entry.Entry.TheVariants.{Did};
ghost use Rattle.def_history.specs.declared.outcome.Outcome.{Outcome};
ghost use Rattle.def_history.specs.History.{deeds};

/// What the foremost gate of a desk lets a pass do. Of each call, of each batch, and so of all that a pass did since it was admitted:
/// where a submit stands among its entries, the gate denies none of the writes to the name that its session held there, by the
/// attaches and the ends of sessions among the entries before it.
pub fn a_submit_of_a_holder_was_allowed()
    ensures nothing { (gate : Gate) (own : List Entry) (held : Holding) → Judged gate own held own held }
    ensures one { (gate : Gate) (gates : List Gate) (plant : List Actuator) (opening : State) (seen now : List Entry) (mine own : List ℕ)
        (session : ℕ) (asked : Command) (moment : ℕ) (outcome : Outcome) (held held' : Holding) (others others' : List Holding) →
        TurnsBy plant opening seen mine now own session asked moment outcome →
        denial_of outcome ≡ denied_to (gate ∷ gates) (held ∷ others) session asked →
        held' ∷ others' ≡ held_after session asked outcome (held ∷ others) →
        Judged gate (entries_at seen mine) held (entries_at now own) held' }
    ensures several { (gate : Gate) (gates : List Gate) (plant : List Actuator) (opening : State) (seen now : List Entry) (mine own : List ℕ)
        (session : ℕ) (calls : List (Command × ℕ)) (answers : List Answer) (rest : Option Outcome) (held held' : Holding) (others others' : List Holding) →
        Batch plant opening seen mine now own session calls answers rest →
        AllowedAll (gate ∷ gates) session calls answers (held ∷ others) (held' ∷ others') →
        Judged gate (entries_at seen mine) held (entries_at now own) held' }
    ensures both { (gate : Gate) (first second third : List Entry) (held held' held'' : Holding) →
        Judged gate first held second held' → Judged gate second held' third held'' → Judged gate first held third held'' }
    ensures submit { (gate : Gate) (own own' before behind : List Entry) (held held' : Holding) (session : ℕ) (writes : List Setting) (policy : Policy)
        (seq moment : ℕ) (answer : Answer) (name : List ℕ) → Judged gate own held own' held' →
        deeds own' ≡ deeds own ++ (before ++ Did session (command.Submit writes policy seq) moment answer ∷ behind) →
        held_over before held ≡ Some (session, name) → denied_writes gate name writes ≡ None }
{}

/// The foremost gate of a desk admits each name under which a pass had an attach done since it was admitted, also where the attach was
/// refused behind the gate. That a pass is judged is what `a_submit_of_a_holder_was_allowed` says of its calls and batches.
pub fn an_attach_was_admitted()
    ensures { (gate : Gate) (own own' before behind : List Entry) (held held' : Holding) (session moment : ℕ) (name : List ℕ) (answer : Answer) →
        Judged gate own held own' held' →
        deeds own' ≡ deeds own ++ (before ++ Did session (command.Attach name) moment answer ∷ behind) → admits gate name ≡ true }
{}
