ghost use Rattle.std.specs.Prelude.{◌≡◌, ℕ, ◌≤◌, Bool, false, List, [], ◌++◌, length, map};
ghost use Rattle.def_history.specs.History.{deeds};
ghost use Rattle.boss_model.specs.declared.answer.Answer.{Answer};
ghost use Rattle.def_connection.specs.Talks.{Told, Standing};
ghost use Rattle.def_connection.specs.Watching.{watched_in, notes_in, Watches, Watched};

use boss_outside::Sink;
use boss_outside_server::Clock;

/// Watching begins with nothing and goes on, each turn from the number behind the notices of the one before. It ends with turns
/// of which a front was told, and maybe a last moment that had no call.
pub fn watching_goes_on<K: Sink, C: Clock>()
    ensures nothing { (notes : Answer → List ℕ) (session : ℕ) (name : List ℕ) (from : ℕ) (s : Standing) → Watches notes session name K.tells C.tells from from s s }
    ensures then { (notes : Answer → List ℕ) (session : ℕ) (name : List ℕ) (from mid next : ℕ) (a b c : Standing) →
        Watches notes session name K.tells C.tells from mid a b → Watches notes session name K.tells C.tells mid next b c →
        Watches notes session name K.tells C.tells from next a c }
    ensures ends { (notes : Answer → List ℕ) (session : ℕ) (name : List ℕ) (unanswered : Bool) (from mid : ℕ) (a b c : Standing) (turns : List (ℕ × Answer))
        (unused : List ℕ) → Watches notes session name K.tells C.tells from mid a b → length unused ≤ 1 → (unanswered ≡ false → unused ≡ []) → deeds c.own ≡ deeds b.own ++ watched_in session name mid turns →
        (K.tells → Told b.taken c.taken b.faults c.faults (notes_in notes turns)) →
        (C.tells → c.given ≡ b.given ++ (map (λ turn. turn.0) turns ++ unused)) → Watched notes session name K.tells C.tells unanswered from a c }
{}
