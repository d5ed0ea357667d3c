ghost use Rattle.std.specs.Prelude.{◌≡◌, ℕ, ◌<◌, Bool, false, List, [], ◌∷◌, ◌++◌};
ghost use Rattle.def_history.specs.declared.entry.Entry.{Entry};
ghost use Rattle.def_history.specs.History.{deeds};
ghost use Rattle.def_lanes.specs.Lanes.{of_session};
ghost use Rattle.def_lanes.specs.Parts.{Added};
ghost use Rattle.def_lanes.specs.Works.{Cut, not_cut};
ghost use Rattle.boss_model.specs.declared.answer.Answer.{Answer};
ghost use Rattle.boss_model.specs.declared.state.Actuator.{Actuator};
ghost use Rattle.def_connection.specs.Losing.{spoken_of, Lost};
ghost use Rattle.def_connection.specs.Speech.{beginning, Speech, watches};
ghost use Rattle.def_connection.specs.Stopping.{Stop, watching};
ghost use Rattle.boss_outside.specs.Notes.{AllRead};
ghost use Rattle.def_connection.specs.Answered.{IsAnswered};
ghost use Rattle.def_connection.specs.Talks.{Standing, Talked, IsEnded, IsTalkOf};
ghost use Rattle.def_connection.specs.Watching.{is_unanswered, EndsWatch, Watched, IsWatchOf};
ghost use Rattle.boss_outside_server.specs.Hosts.{Served};

use boss_outside::Sink;
use boss_outside_server::Clock;

/// What a connection added to the history is all of its session, was called at moments that its clock gave, and agrees with the
/// connection as it ended: with the bytes that its input lost and those that its output took, from the first on.
pub fn a_connection_adds_to_its_lane<K: Sink, C: Clock>()
    ensures talk { (plant : List Actuator) (speech : Speech) (served : Served) (taken : List (List ℕ)) (stop : Stop) (broken : Bool) (cut : Cut)
        (old new : Standing) → 0 < served.session → (talked : Talked speech served.session K.tells C.tells (spoken_of taken) stop broken old new) → old.taken ≡ [] → old.faults ≡ 0 →
        new.taken ≡ served.taken → new.faults ≡ served.write_faults → IsEnded served taken stop broken cut →
        (K.tells → AllRead (IsAnswered speech served.held 0 talked.exchanged.talk) served.reads) →
        Added plant (of_session served.session) (IsTalkOf speech K.tells served (record { moments = talked.moments; cut = cut; closed = false })) C.tells talked.moments old.own new.own old.given new.given }
    ensures watch { (plant : List Actuator) (speech : Speech) (notes : Answer → List ℕ) (served : Served) (taken : List (List ℕ)) (line : List ℕ)
        (name : List ℕ) (from : ℕ) (cut : Cut) (closed : Bool) (old new : Standing) → 0 < served.session → (watched : Watched notes served.session name K.tells C.tells (is_unanswered cut) from old new) →
        spoken_of taken ≡ line ∷ [] → speech.manner.reading beginning line ≡ watches name from → old.taken ≡ [] → old.faults ≡ 0 → new.taken ≡ served.taken →
        new.faults ≡ served.write_faults → Lost served.held served.left taken (watching name from) →
        (cut ≡ not_cut → ¬ (deeds new.own ≡ deeds old.own)) → ((more : List Entry) → deeds new.own ≡ deeds old.own ++ more → EndsWatch cut closed served.write_faults more) →
        Added plant (of_session served.session) (IsWatchOf speech notes K.tells served (record { moments = watched.moments; cut = cut; closed = closed })) C.tells watched.moments old.own new.own old.given new.given }
{}

/// A talk whose first line asks to watch adds nothing, its output took nothing, and no moment was asked for.
pub fn a_talk_without_replies_adds_nothing<K: Sink, C: Clock>()
    ensures own { (speech : Speech) (session : ℕ) (heard : List (List ℕ)) (name : List ℕ) (from : ℕ) (broken : Bool) (old new : Standing) →
        Talked speech session K.tells C.tells heard (watching name from) broken old new → deeds new.own ≡ deeds old.own }
    ensures taken { (speech : Speech) (session : ℕ) (heard : List (List ℕ)) (name : List ℕ) (from : ℕ) (broken : Bool) (old new : Standing) →
        Talked speech session K.tells C.tells heard (watching name from) broken old new → K.tells → new.taken ≡ old.taken }
    ensures moments { (speech : Speech) (session : ℕ) (heard : List (List ℕ)) (name : List ℕ) (from : ℕ) (broken : Bool) (old new : Standing) →
        (talked : Talked speech session K.tells C.tells heard (watching name from) broken old new) → talked.moments ≡ [] }
{}
