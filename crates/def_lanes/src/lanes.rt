ghost use Rattle.std.specs.Prelude.{◌≡◌, ℕ, ℤ, ◌+◌, ◌*◌, ◌<◌, Bool, List, [], ◌∷◌, ◌++◌};
ghost use Rattle.def_history.specs.declared.entry.Entry.{Entry};
ghost use Rattle.def_history.specs.declared.entry.Entry.TheVariants.{Did};
ghost use Rattle.def_history.specs.History.{IsLegal};
ghost use Rattle.def_lanes.specs.Lanes.{of_session, of_driver, lane_of};
ghost use Rattle.def_lanes.specs.Works.{Course, Work, visit, owner, AreOf, AreBefore, IsAbsent, AreStrange};
ghost use Rattle.boss_model.specs.declared.answer.Answer.{Answer};
ghost use Rattle.boss_model.specs.declared.answer.Answer.TheVariants.{Want};
ghost use Rattle.boss_model.specs.declared.command.Command.TheVariants.{Next, Report};
ghost use Rattle.boss_model.specs.declared.state.Actuator.{Actuator};
ghost use Rattle.boss_model.specs.Machine.{step};
ghost use Rattle.boss_model.specs.State.{State};
ghost use Rattle.boss_outside_server.specs.Hosts.{Served};

/// Whatever want a driver is given, by a step or in a legal history, the report of it is in the same lane: a driver's turn never
/// leaves its lane.
pub fn a_report_is_in_the_lane_of_its_want()
    ensures asked { (plant : List Actuator) (s : State) (driver moment point version later : ℕ) (value : ℤ) (ok : Bool) (told : Answer) →
        (step plant 0 (Next driver) moment s).answer ≡ Want point version value →
        lane_of plant (Did 0 (Report point version ok) later told) ≡ lane_of plant (Did 0 (Next driver) moment (Want point version value)) }
    ensures done { (plant : List Actuator) (s : State) (before behind : List Entry) (driver moment point version later : ℕ) (value : ℤ) (ok : Bool) (told : Answer) →
        IsLegal plant (before ++ Did 0 (Next driver) moment (Want point version value) ∷ behind) s →
        lane_of plant (Did 0 (Report point version ok) later told) ≡ of_driver driver }
{}

/// Works of workers with other numbers are never done in one lane. A worker for connections may number its sessions so: the
/// first is one more than its own number, and between two of them there is one for each other such worker.
pub fn two_workers_share_no_lane()
    ensures strange { (workers first middle end : ℕ) (works others : List Work) → AreOf workers first middle works → AreOf workers middle end others →
        AreStrange works others }
    ensures sessions { (workers number turn : ℕ) (served : Served) (course : Course) → number < workers → served.session ≡ 1 + number + workers * turn →
        owner workers (visit served course) ≡ number }
{}

/// A worker whose sessions rise serves no two connections in one lane.
pub fn rising_sessions_are_apart()
    ensures absent { (next : ℕ) (works : List Work) → AreBefore next works → IsAbsent (of_session next) works }
    ensures more { (next later : ℕ) (works : List Work) (served : Served) (course : Course) → AreBefore next works → served.session ≡ next → next < later →
        AreBefore later (works ++ visit served course ∷ []) }
{}
