ghost use Rattle.std.specs.Prelude.{◌≡◌, ℕ, Bool, List, Some};
ghost use Rattle.boss_model.specs.declared.answer.Answer.{Answer};
ghost use Rattle.boss_outside_server.specs.Hosts.{Served};
ghost use Rattle.def_history.specs.declared.entry.Entry.{Entry};
ghost use Rattle.def_lanes.specs.Works.{Course};
ghost use Rattle.def_connection.specs.Showing.{IsGuarded, IsKeyed};
ghost use Rattle.def_connection.specs.Speech.{Speech};
ghost use Rattle.def_connection.specs.Stopping.{Stop};
ghost use Rattle.def_connection.specs.Talks.{Exchanged, IsTalkOf};
ghost use Rattle.def_connection.specs.Watching.{IsWatchOf};

use boss_outside::Sink;

/// Where lines are read by keys, whoever speaks has shown one: whatever was called or refused, but as malformed, is behind a line that
/// showed the key of a name, or is that line; each attach among the entries is of that name; and whoever watches has shown a key in the
/// line that asks for it.
pub fn whoever_speaks_has_shown_a_key<K: Sink>()
    ensures talk { (speech : Speech) (session : ℕ) (heard : List (List ℕ)) (stop : Stop) (broken : Bool) (old new : List ℕ) (before now : ℕ)
        (entries : List Entry) (moments : List ℕ) → IsGuarded speech.manner → (is : Exchanged speech session K.tells heard stop broken old new before now entries moments) →
        IsKeyed speech.manner is.talk entries }
    ensures served { (speech : Speech) (served : Served) (course : Course) (entries : List Entry) → IsGuarded speech.manner →
        (is : IsTalkOf speech K.tells served course entries) → IsKeyed speech.manner is.exchanged.talk entries }
    ensures watch { (speech : Speech) (notes : Answer → List ℕ) (served : Served) (course : Course) (entries : List Entry) → IsGuarded speech.manner →
        (is : IsWatchOf speech notes K.tells served course entries) → (name : List ℕ) × (speech.manner.shows is.line ≡ Some name) }
{}
