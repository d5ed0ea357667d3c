ghost use Rattle.std.specs.Prelude.{◌≡◌, List};
ghost use Rattle.boss_model.specs.declared.state.Actuator.{Actuator};
ghost use Rattle.boss_model.specs.Settle.{opened};
ghost use Rattle.boss_model.specs.Sound.{IsSound, IsSoundPersistent};
ghost use Rattle.boss_model.specs.State.{State};
ghost use Rattle.boss_model.specs.Time.{tick};
ghost use Rattle.def_history.specs.declared.entry.Entry.{Entry};
ghost use Rattle.def_history.specs.History.{IsLegal, run};
ghost use Rattle.law_second_script.specs.Asking.{OnlyAsks, answered, asked, latest};

/// Rows that only ask change no more than time does: behind them what outlasts a stop is as if the clock alone had come so far.
/// Rows that only ask are readings of points, their priority arrays, statuses of transactions, notices of a process by its name,
/// and the time; and between them writes to devices, as long as each device takes what it is given.
pub fn asking_changes_no_more_than_time()
    ensures { (plant : List Actuator) (s : State) (rows : List Entry) → IsSoundPersistent plant s.persistent → OnlyAsks rows →
        (run plant rows s).persistent ≡ tick s.persistent (latest 0 rows) }
{}

/// Who asks the same is answered the same, whatever became of the devices. Two lists of rows begin with the same leases,
/// reversions, records and notices, and only ask. They ask the same questions, one after another, and as each is asked the clock
/// has come as far in both. Then their answers are the same, a reading's mark aside, whichever sessions ask, whether the devices
/// were written in between or not, and at whatever moments that was.
pub fn who_asks_the_same_is_answered_the_same()
    ensures { (plant : List Actuator) (s t : State) (rows others : List Entry) → IsSoundPersistent plant s.persistent → s.persistent ≡ t.persistent →
        IsLegal plant rows s → IsLegal plant others t → OnlyAsks rows → OnlyAsks others → asked 0 rows ≡ asked 0 others →
        answered rows ≡ answered others }
{}

/// A second script that asks the same is answered the same. A first script did some rows, `made`; then it either went on with rows
/// that only ask, or it stopped, and a second script was opened at what lasted, wrote all devices anew and asked the same. The
/// answers are the same, a reading's mark aside: a stop of the program can be told from no other answer.
pub fn a_second_script_is_answered_the_same()
    ensures { (plant : List Actuator) (s : State) (made on second : List Entry) → IsSound plant s → IsLegal plant made s →
        IsLegal plant on (run plant made s) → IsLegal plant second (opened plant (run plant made s).persistent) →
        OnlyAsks on → OnlyAsks second → asked 0 on ≡ asked 0 second → answered on ≡ answered second }
{}
