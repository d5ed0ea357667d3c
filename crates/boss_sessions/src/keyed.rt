ghost use Rattle.std.specs.Prelude.{List, Some};
ghost use Rattle.boss_keys.specs.declared.entry.Entry.{Entry};
ghost use Rattle.boss_model.specs.Catalogue.{Catalogue};
ghost use Rattle.def_connection.specs.Showing.{IsGuarded};
ghost use Rattle.boss_sessions.specs.Speaking.{manner_of};

/// With keys, whoever has shown none is told that a line is malformed, or forbidden, and nothing else; and whoever has shown one attaches to
/// its name alone. So def_connection's `whoever_speaks_has_shown_a_key` holds of each connection that is served.
pub fn lines_are_guarded_by_keys()
    ensures { (catalogue : Catalogue) (keys : List Entry) → IsGuarded (manner_of catalogue (Some keys)) }
{}
