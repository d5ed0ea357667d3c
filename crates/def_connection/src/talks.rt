ghost use Rattle.std.specs.Prelude.{◌≡◌, ℕ, ◌<◌, ◌≤◌, Bool, false, ◌||◌, List, [], ◌++◌, length, map, drop, Option, None};
ghost use Rattle.std.specs.List.{AllByRecursion};
ghost use Rattle.def_history.specs.declared.entry.Entry.{Entry};
ghost use Rattle.def_history.specs.History.{deeds};
ghost use Rattle.boss_model.specs.declared.answer.Answer.{Answer};
ghost use Rattle.boss_model.specs.declared.command.Command.{Command};
ghost use Rattle.boss_model.specs.Limits.{most_held};
ghost use Rattle.boss_outside.specs.Counts.{Rose};
ghost use Rattle.def_connection.specs.Batches.{AreAsked, batch, deeds_by, texts_by};
ghost use Rattle.def_connection.specs.Judging.{AreJudged, name_in};
ghost use Rattle.def_connection.specs.Speech.{Footing, beginning, after_lines, Reply, Speech, last_or, attached_in, parting_of, is_end, is_stop, EndsOnce};
ghost use Rattle.def_connection.specs.Stopping.{Stop, is_disk, end_text, last_is, HeldAt, BehindAt};
ghost use Rattle.def_connection.specs.Talks.{Told, Standing, Goes, Stops, Talked, is_unparted};

use boss_outside::Sink;
use boss_outside_server::Clock;

/// A talk begins with nothing, goes on, and stops: behind a part that went on comes another one, or one in which it stops, or
/// nothing that has a reply.
pub fn a_talk_goes_on<K: Sink, C: Clock>()
    ensures nothing { (speech : Speech) (session : ℕ) (at : Footing) (s : Standing) → Goes speech session K.tells C.tells at at [] s s }
    ensures then { (speech : Speech) (session : ℕ) (at mid at' : Footing) (heard others : List (List ℕ)) (a b c : Standing) →
        Goes speech session K.tells C.tells at mid heard a b → Goes speech session K.tells C.tells mid at' others b c →
        Goes speech session K.tells C.tells at at' (heard ++ others) a c }
    ensures stops { (speech : Speech) (session : ℕ) (at mid : Footing) (heard others : List (List ℕ)) (stop : Stop) (a b c : Standing) →
        Goes speech session K.tells C.tells at mid heard a b → Stops speech session K.tells C.tells mid others stop b c →
        Stops speech session K.tells C.tells at (heard ++ others) stop a c }
    ensures here { (speech : Speech) (session : ℕ) (at : Footing) (behind : List (List ℕ)) (stop : Stop) (old new : Standing) →
        BehindAt speech.manner at stop behind → is_disk stop ≡ false → deeds new.own ≡ deeds old.own →
        (K.tells → Told old.taken new.taken old.faults new.faults (end_text speech stop)) → (C.tells → new.given ≡ old.given) →
        new.attached ≡ old.attached → new.last ≡ old.last → Stops speech session K.tells C.tells at behind stop old new }
{}

/// A batch that was answered whole is a part of a talk that goes on. One that was not ends it: the lines behind its last reply,
/// and one behind the batch, have none.
pub fn a_batch_is_a_part_of_a_talk<K: Sink, C: Clock>()
    ensures whole { (speech : Speech) (session : ℕ) (at : Footing) (lines : List (List ℕ)) (calls : List (Command × ℕ)) (replies : List Reply) (old new : Standing) →
        AreAsked speech.manner at lines calls → length replies ≡ length calls → AllByRecursion (λ reply. is_stop reply ≡ false) replies →
        deeds new.own ≡ deeds old.own ++ deeds_by session calls replies → (K.tells → new.taken ≡ old.taken ++ texts_by speech replies) →
        new.faults ≡ old.faults → (C.tells → new.given ≡ old.given ++ map (λ call. call.1) calls) →
        new.attached ≡ (old.attached || attached_in (batch lines calls replies)) → new.last ≡ last_or old.last (map (λ call. call.1) calls) →
        AreJudged speech.denies old.name (batch lines calls replies) → new.name ≡ name_in old.name (batch lines calls replies) →
        Goes speech session K.tells C.tells at (after_lines speech.manner at lines) lines old new }
    ensures cut { (speech : Speech) (session : ℕ) (at : Footing) (lines behind : List (List ℕ)) (calls : List (Command × ℕ)) (replies : List Reply) (stop : Stop)
        (old new : Standing) → AreAsked speech.manner at lines calls → length replies ≤ length calls → EndsOnce (batch lines calls replies) →
        last_is is_end false (batch lines calls replies) ≡ is_disk stop →
        HeldAt stop (Rose old.faults new.faults) (batch lines calls replies) (drop (length replies) calls) → length (drop (length replies) calls) < most_held →
        BehindAt speech.manner (after_lines speech.manner at lines) stop behind → end_text speech stop ≡ [] →
        deeds new.own ≡ deeds old.own ++ deeds_by session calls replies → (K.tells → Told old.taken new.taken old.faults new.faults (texts_by speech replies)) →
        (C.tells → new.given ≡ old.given ++ map (λ call. call.1) calls) →
        new.attached ≡ (old.attached || attached_in (batch lines calls replies)) → new.last ≡ last_or old.last (map (λ call. call.1) calls) →
        AreJudged speech.denies old.name (batch lines calls replies) → Stops speech session K.tells C.tells at (lines ++ behind) stop old new }
{}

/// A talk that stopped is whole once its process, where it had one, is told to be lost at the last moment that the clock gave; or
/// the disk has failed.
pub fn a_talk_is_whole<K: Sink, C: Clock>()
    ensures { (speech : Speech) (session : ℕ) (heard : List (List ℕ)) (stop : Stop) (broken : Bool) (old new : Standing) (own : List Entry) (parting : Option Answer) →
        Stops speech session K.tells C.tells beginning heard stop old new → old.attached ≡ false → old.last ≡ 0 → old.name ≡ None →
        deeds own ≡ deeds new.own ++ parting_of session new.last parting → (new.attached ≡ false → parting ≡ None) →
        broken ≡ (is_disk stop || is_unparted new.attached parting) →
        Talked speech session K.tells C.tells heard stop broken old (record new { own = own }) }
{}
