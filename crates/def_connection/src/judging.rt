ghost use Rattle.std.specs.Prelude.{ℕ, Bool, List, None};
ghost use Rattle.boss_outside_server.specs.Hosts.{Served};
ghost use Rattle.def_history.specs.declared.entry.Entry.{Entry};
ghost use Rattle.def_lanes.specs.Works.{Course};
ghost use Rattle.def_connection.specs.Judging.{AreAllowed};
ghost use Rattle.def_connection.specs.Speech.{Speech};
ghost use Rattle.def_connection.specs.Stopping.{Stop};
ghost use Rattle.def_connection.specs.Talks.{Exchanged, IsTalkOf};

use boss_outside::Sink;

/// Where a connection's attaches and submits are denied exactly as the gates say, each that was done is allowed: each gate admits the
/// name that an attach asked for, and allows all writes of a submit to the process that the session had then, by the name of the last
/// attach that was accepted.
pub fn what_is_done_is_allowed<K: Sink>()
    ensures talk { (speech : Speech) (session : ℕ) (heard : List (List ℕ)) (stop : Stop) (broken : Bool) (old new : List ℕ) (before now : ℕ)
        (entries : List Entry) (moments : List ℕ) → Exchanged speech session K.tells heard stop broken old new before now entries moments →
        AreAllowed speech.denies None entries }
    ensures served { (speech : Speech) (served : Served) (course : Course) (entries : List Entry) → IsTalkOf speech K.tells served course entries →
        AreAllowed speech.denies None entries }
{}
