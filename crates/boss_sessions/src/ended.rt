ghost use Rattle.std.specs.Prelude.{◌≡◌, ℕ, false, List, Some};
ghost use Rattle.def_connection.specs.Losing.{Lost};
ghost use Rattle.def_connection.specs.Stopping.{Stop};
ghost use Rattle.def_connection.specs.Talks.{IsEnded};
ghost use Rattle.boss_outside_server.specs.Hosts.{Served};
ghost use Rattle.boss_sessions.specs.declared.end.SessionEnd.{SessionEnd};
ghost use Rattle.boss_sessions.specs.Ends.{cut_of, end_for, is_stop_end, is_watch, ReadCause, WriteCause};

/// A connection that was handed out untouched, and was served up to an end other than its asking to watch, has ended as a
/// connection does: it was cut off where the clock or the disk failed or there was no memory to begin, and else it is whole
/// unless one of its reads or writes failed.
pub fn a_served_connection_has_ended()
    ensures { (served : Served) (taken : List (List ℕ)) (stop : Stop) (end : SessionEnd) → Lost served.held served.left taken stop →
        (is_stop_end end ≡ false → end ≡ end_for stop) →
        ReadCause 0 served.read_faults (Some end) → WriteCause 0 served.write_faults (Some end) → is_watch end ≡ false →
        IsEnded served taken stop (is_stop_end end) (cut_of end) }
{}
