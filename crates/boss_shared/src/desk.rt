ghost use Rattle.std.specs.Prelude.{◌≡◌, ◌+◌, ◌≤◌, ℕ, Bool, List, [], length, Some, vec_capacity};
ghost use Rattle.std.specs.List.{AllByRecursion};
ghost use Rattle.boss_model.specs.declared.state.Actuator.{Actuator};
ghost use Rattle.boss_model.specs.Catalogue.{actuators, Catalogue};
ghost use Rattle.boss_model.specs.State.{State};
ghost use Rattle.boss_model.specs.Tellable.{IsTellable};
ghost use Rattle.boss_lock.specs.Places.{entries_at, woven, IsLonger};
ghost use Rattle.def_history.specs.declared.entry.Entry.{Entry};
ghost use Rattle.def_history.specs.History.{is_broken, MayCall};
ghost use Rattle.boss_shared.specs.Calls.{IsTold, MayDeny, MayWant, RestFits};
ghost use Rattle.boss_shared.specs.Gates.{denial_of, denied_to, held_after, AllowedAll, AreFree, Gate, Holding, NextJudged};
ghost use Rattle.boss_shared.specs.Passes.{only, Batch, FailsBy, IsPassOf, TurnsBy};

use boss_model::{Answer, Command, Items, SessionId};
use def_history::{Outcome, Outcomes};

/// Where callers have their commands done, each with a pass of its own. All passes of a desk agree on one history: each has
/// seen a beginning of it, and each entry is of one pass.
///
/// A desk may have gates, which deny attaches by the name that they ask for, and submits by the name of the process that the pass
/// holds for the session.
pub trait Desk {
    /// A caller's right to call.
    type Pass: Drop;

    /// The points of the plant.
    ghost plant: { Self → List Actuator };

    /// The state of the machine before the first entry.
    ghost opening: { Self → State };

    /// Whether the pass is one of this desk.
    ghost owns: { Self → Self.Pass → Type 0 };

    /// The beginning of the history that a pass has seen.
    ghost seen: { Self.Pass → List Entry };

    /// The places in it of the entries that the pass made.
    ghost mine: { Self.Pass → List ℕ };

    /// How many parts the pass has, each of which may become a pass.
    ghost parts: { Self.Pass → ℕ };

    /// The gates of the desk, the foremost first.
    ghost denies: { Self → List Gate };

    /// What a pass holds at each gate.
    ghost held: { Self.Pass → List Holding };

    /// Has a command of a session done at a moment, in milliseconds.
    ///
    /// Done adds one entry, the last that the pass has seen, and the only one of those new to it that is its own. DiskFault adds
    /// the mark in its place, and every later call is answered Stopped, no other is. Memory is wanted for a submit,
    /// an attach and notices alone, and then nothing is added.
    ///
    /// Denied exactly where a gate denies the command, also where the disk has failed; it leaves what was seen and made as it was,
    /// and what is said above is said of the other outcomes. The pass holds a process from the attach that is accepted until a
    /// session is gone.
    fn call(
        &self,
        pass: &mut Self::Pass,
        session: SessionId,
        command: &Command,
        moment: u64,
    ) -> Outcome
        requires own { owns self.now pass.old }
        requires may { MayCall (plant self.now) (command.now, moment) }
        ensures own { owns self.now pass.new }
        ensures parts { parts pass.new ≡ parts pass.old }
        ensures turn { TurnsBy (plant self.now) (opening self.now) (seen pass.old) (mine pass.old) (seen pass.new) (mine pass.new)
            session command.now moment result }
        ensures failed { FailsBy (is_broken (seen pass.old)) (is_broken (seen pass.new)) (Some result) }
        ensures gate { denial_of result ≡ denied_to (denies self.now) (held pass.old) session command.now }
        ensures held { held pass.new ≡ held_after session command.now result (held pass.old) }
        ensures asked { MayDeny command.now result }
        ensures memory { MayWant command.now result }
        ensures told { (catalogue : Catalogue) → actuators catalogue ≡ plant self.now → IsTold catalogue result };

    /// Has 1 to 16 commands of a session done in order, each at its moment in milliseconds. `answers` is emptied, and then has an
    /// answer for each that was done; each of these adds an entry.
    ///
    /// Where the disk fails the mark is the last that the pass has seen, and every later call is answered Stopped, no other is.
    /// Memory is wanted for a submit, an attach and notices alone.
    ///
    /// A command that a gate denies by what is held at its place ends the batch: it is not done, and nor are those behind it. A desk
    /// with gates may have the commands done one by one; then the entries need not stand next to each other.
    fn call_all(
        &self,
        pass: &mut Self::Pass,
        session: SessionId,
        commands: &Items<(Command, u64)>,
        answers: &mut Vec<Answer>,
    ) -> Outcomes
        requires own { owns self.now pass.old }
        requires some { 1 ≤ length commands.now }
        requires few { length commands.now ≤ 16 }
        requires may { AllByRecursion (MayCall (plant self.now)) commands.now }
        requires room { length commands.now ≤ vec_capacity answers.old }
        ensures own { owns self.now pass.new }
        ensures parts { parts pass.new ≡ parts pass.old }
        ensures batch { Batch (plant self.now) (opening self.now) (seen pass.old) (mine pass.old) (seen pass.new) (mine pass.new)
            session commands.now answers.new.items result.rest }
        ensures allowed { AllowedAll (denies self.now) session commands.now answers.new.items (held pass.old) (held pass.new) }
        ensures gate { NextJudged (denies self.now) (held pass.new) session commands.now result.done result.rest }
        ensures done { length answers.new.items ≡ result.done }
        ensures rest { RestFits commands.now result.done result.rest }
        ensures told { (catalogue : Catalogue) → actuators catalogue ≡ plant self.now →
            AllByRecursion (IsTellable catalogue) answers.new.items }
        ensures room { vec_capacity answers.new ≡ vec_capacity answers.old };

    /// Moves one part to a new pass, which has seen the same, made nothing and holds nothing.
    fn split(&self, pass: &mut Self::Pass) -> Self::Pass
        requires own { owns self.now pass.old }
        requires two_parts { 2 ≤ parts pass.old }
        ensures own { owns self.now pass.new × owns self.now result }
        ensures parts { (parts pass.new + 1 ≡ parts pass.old) × (parts result ≡ 1) }
        ensures seen { (seen pass.new ≡ seen pass.old) × (seen result ≡ seen pass.old) }
        ensures mine { (mine pass.new ≡ mine pass.old) × (mine result ≡ []) }
        ensures held { (held pass.new ≡ held pass.old) × AreFree (denies self.now) (held result) };

    /// Takes in another pass: its parts, its places, and the longer of what the two have seen, which both begin. So of each kind
    /// of entry that one of the two alone made, the pass has then made what that one made, in its order. It holds what it held.
    fn join(&self, pass: &mut Self::Pass, other: Self::Pass)
        requires own { owns self.now pass.old × owns self.now other }
        ensures own { owns self.now pass.new }
        ensures parts { parts pass.new ≡ parts pass.old + parts other }
        ensures seen { IsLonger (seen pass.old) (seen other) (seen pass.new) }
        ensures mine { mine pass.new ≡ woven (mine pass.old) (mine other) }
        ensures held { held pass.new ≡ held pass.old }
        ensures kept { (p : Entry → Bool) → only p (entries_at (seen other) (mine other)) ≡ [] →
            only p (entries_at (seen pass.new) (mine pass.new)) ≡ only p (entries_at (seen pass.old) (mine pass.old)) }
        ensures taken_in { (p : Entry → Bool) → only p (entries_at (seen pass.old) (mine pass.old)) ≡ [] →
            only p (entries_at (seen pass.new) (mine pass.new)) ≡ only p (entries_at (seen other) (mine other)) };

    /// What a pass of this desk has seen is legal from a sound opening, and its places are of that.
    ghost owned: { (desk : Self) (pass : Self.Pass) → owns desk pass →
        IsPassOf (plant desk) (opening desk) (seen pass) (mine pass) };
}

impl<'a, G: Desk> Desk for &'a G {
    type Pass = G::Pass;

    ghost plant = { λ desk. G.plant desk.now };

    ghost opening = { λ desk. G.opening desk.now };

    ghost owns = { λ desk pass. G.owns desk.now pass };

    ghost seen = { λ pass. G.seen pass };

    ghost mine = { λ pass. G.mine pass };

    ghost parts = { λ pass. G.parts pass };

    ghost denies = { λ desk. G.denies desk.now };

    ghost held = { λ pass. G.held pass };

    fn call(
        &self,
        pass: &mut G::Pass,
        session: SessionId,
        command: &Command,
        moment: u64,
    ) -> Outcome {
        (**self).call(pass, session, command, moment)
    }

    fn call_all(
        &self,
        pass: &mut G::Pass,
        session: SessionId,
        commands: &Items<(Command, u64)>,
        answers: &mut Vec<Answer>,
    ) -> Outcomes {
        (**self).call_all(pass, session, commands, answers)
    }

    fn split(&self, pass: &mut G::Pass) -> G::Pass {
        (**self).split(pass)
    }

    fn join(&self, pass: &mut G::Pass, other: G::Pass) {
        (**self).join(pass, other);
    }

    ghost owned = { λ desk pass own. G.owned desk.now pass own };
}
