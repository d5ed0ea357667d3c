ghost use Rattle.std.specs.Prelude.{◌≡◌, ◌⊎◌, ℕ, ◌<◌, List, length, Some, true};
ghost use Rattle.boss_model.specs.declared.answer.Answer.{Answer};
ghost use Rattle.boss_model.specs.declared.answer.Answer.TheVariants as answer;
ghost use Rattle.boss_model.specs.declared.answer.Mark.TheVariants as mark;
ghost use Rattle.boss_model.specs.declared.command.Command.{Command};
ghost use Rattle.boss_model.specs.declared.command.Command.TheVariants as command;
ghost use Rattle.boss_model.specs.declared.state.Actuator.{Actuator};
ghost use Rattle.boss_model.specs.Devices.{proxy_of};
ghost use Rattle.boss_model.specs.Run.{Call, run};
ghost use Rattle.boss_model.specs.Settle.{opened};
ghost use Rattle.boss_model.specs.State.{Persistent};
ghost use Rattle.boss_model.specs.Target.{target};
ghost use Rattle.law_machine.specs.Heard.{Heard, last_heard, nothing_heard, took_by};

/// In every run from an opened state, a point that is marked as settled has as its target the value that its device last
/// told to have taken: the one that it was asked for with the version that the report named, which is the point's own. What
/// was last told to have been taken changes only by a report of the point that tells so, and that counts.
pub fn a_settled_point_has_what_was_taken()
    ensures settled { (plant : List Actuator) (d : Persistent) (calls : List Call) (point : ℕ) → point < length plant →
        (proxy_of (run plant (opened plant d) calls).proxies point).mark ≡ mark.Settled →
        (last_heard plant point (opened plant d) calls nothing_heard).took ≡ Some (record {
          version = (proxy_of (run plant (opened plant d) calls).proxies point).version;
          value = target plant (run plant (opened plant d) calls).persistent point;
        }) }
    ensures told { (point : ℕ) (c : Command) (given : Answer) (heard : Heard) → (took_by point c given heard ≡ heard.took)
        ⊎ ((version : ℕ) × (c ≡ command.Report point version true) × (given ≡ answer.Noted true) × (took_by point c given heard ≡ heard.asked)) }
{}
