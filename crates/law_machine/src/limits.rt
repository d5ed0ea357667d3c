ghost use Rattle.std.specs.Prelude.{◌≡◌, pos};
ghost use Rattle.boss_model.specs.Limits.{
  answer_room,
  bells,
  done_kept,
  first_gate,
  last_moment,
  last_number,
  last_session,
  levels,
  lock_looks,
  log_limit,
  longest_file,
  longest_hold,
  longest_lease,
  longest_line,
  longest_minimum,
  longest_name,
  longest_record,
  most_counters,
  most_drivers,
  most_held,
  most_lines,
  most_points,
  most_processes,
  most_steps,
  most_told,
  most_workers,
  most_writes,
  notices_kept,
  record_room,
  retry_after,
};

use boss_model::{
    ANSWER_ROOM, BELLS, DONE_KEPT, FIRST_GATE, LAST_MOMENT, LAST_NUMBER, LAST_SESSION, LEVELS,
    LOCK_LOOKS, LOG_LIMIT, LONGEST_FILE, LONGEST_HOLD, LONGEST_LEASE, LONGEST_LINE,
    LONGEST_MINIMUM, LONGEST_NAME, LONGEST_RECORD, MOST_COUNTERS, MOST_DRIVERS, MOST_HELD,
    MOST_LINES, MOST_POINTS, MOST_PROCESSES, MOST_STEPS, MOST_TOLD, MOST_WORKERS, MOST_WRITES,
    NOTICES_KEPT, RECORD_ROOM, RETRY_AFTER,
};

/// The limits that the code has are those of the definitions.
pub fn limits_are_those_of_the_definitions()
    ensures catalogue { (MOST_DRIVERS ≡ most_drivers) × (MOST_POINTS ≡ most_points) × (LEVELS ≡ levels) × (LONGEST_NAME ≡ longest_name)
        × (LONGEST_FILE ≡ longest_file) × (LONGEST_MINIMUM ≡ pos longest_minimum) }
    ensures transactions { (MOST_WRITES ≡ most_writes) × (LONGEST_LEASE ≡ pos longest_lease) × (LONGEST_HOLD ≡ pos longest_hold)
        × (MOST_STEPS ≡ most_steps) × (DONE_KEPT ≡ done_kept) }
    ensures processes { (MOST_PROCESSES ≡ most_processes) × (NOTICES_KEPT ≡ notices_kept) × (MOST_TOLD ≡ most_told) }
    ensures numbers { (LAST_MOMENT ≡ last_moment) × (LAST_NUMBER ≡ last_number) × (LAST_SESSION ≡ last_session) }
    ensures lines { (LONGEST_LINE ≡ longest_line) × (MOST_LINES ≡ most_lines) × (MOST_HELD ≡ most_held) × (ANSWER_ROOM ≡ answer_room) }
    ensures devices { RETRY_AFTER ≡ retry_after }
    ensures journal { (FIRST_GATE ≡ first_gate) × (LONGEST_RECORD ≡ longest_record)
        × (RECORD_ROOM ≡ record_room) × (LOG_LIMIT ≡ log_limit) }
    ensures workers { (MOST_WORKERS ≡ most_workers) × (LOCK_LOOKS ≡ lock_looks) × (BELLS ≡ bells) × (MOST_COUNTERS ≡ most_counters) }
{}
