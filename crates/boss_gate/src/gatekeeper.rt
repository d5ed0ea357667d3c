ghost use Rattle.std.specs.Prelude.{◌≡◌, ◌∷◌, None};
ghost use Rattle.boss_gate.specs.Gates.{gate_of};
ghost use Rattle.boss_model.specs.Catalogue.{actuators};

use crate::Admitted;
use crate::admitted::hold;
use crate::denial::{denial, goes_whole};
use boss_access::Rules;
use boss_model::{Answer, Command, Items, SessionId};
use boss_points::Catalogue;
use boss_shared::Desk;
use def_history::{Outcome, Outcomes};

/// A desk behind access rules. Its gate is the foremost of its desk's: it judges each attach by the name that it asks for, and each
/// submit of a session that a pass holds by the name of the process that the session holds. The points' names are those of the
/// catalogue.
///
/// It takes no memory.
pub struct Gatekeeper<'a, G: Desk> {
    rules: Rules,
    catalogue: &'a Catalogue,
    inner: G,
}

impl<'a, G: Desk> Gatekeeper<'a, G> {
    /// A desk behind these rules. The catalogue has to be that of the desk within.
    pub fn new(rules: Rules, catalogue: &'a Catalogue, inner: G) -> Gatekeeper<'a, G>
        requires points { actuators catalogue.now ≡ G.plant inner }
        ensures rules { result.rules ≡ rules }
        ensures catalogue { result.catalogue.now ≡ catalogue.now }
        ensures inner { result.inner ≡ inner }
    {
        Gatekeeper {
            rules,
            catalogue,
            inner,
        }
    }

    /// A pass of the desk within as one of this desk. It holds nothing at the gate.
    pub fn admit(&self, pass: G::Pass) -> Admitted<G::Pass>
        requires points { actuators self.now.catalogue.now ≡ G.plant self.now.inner }
        requires own { G.owns self.now.inner pass }
        ensures own { ⟦<Gatekeeper<'a, G> as Desk>⟧.owns self.now result }
        ensures inner { result.inner ≡ pass }
        ensures held { result.held ≡ None }
    {
        Admitted {
            inner: pass,
            held: None,
        }
    }

    /// The desk within, without the rules.
    pub fn close(self) -> G
        ensures { result ≡ self.entry.inner }
    {
        let Gatekeeper {
            rules,
            catalogue: _,
            inner,
        } = self;
        drop(rules);
        inner
    }
}

impl<'a, G: Desk> Desk for Gatekeeper<'a, G> {
    type Pass = Admitted<G::Pass>;

    ghost plant = { λ gate. G.plant gate.inner };

    ghost opening = { λ gate. G.opening gate.inner };

    ghost owns = { λ gate pass. G.owns gate.inner pass.inner × (actuators gate.catalogue.now ≡ G.plant gate.inner) };

    ghost seen = { λ pass. G.seen pass.inner };

    ghost mine = { λ pass. G.mine pass.inner };

    ghost parts = { λ pass. G.parts pass.inner };

    ghost denies = { λ gate. gate_of gate.rules gate.catalogue.now.points ∷ G.denies gate.inner };

    ghost held = { λ pass. pass.held ∷ G.held pass.inner };

    fn call(
        &self,
        pass: &mut Admitted<G::Pass>,
        session: SessionId,
        command: &Command,
        moment: u64,
    ) -> Outcome {
        if let Some((index, rule)) = denial(
            &self.rules,
            self.catalogue,
            &pass.held,
            session,
            command,
        ) {
            return Outcome::Denied { index, rule };
        }
        let outcome = self.inner.call(&mut pass.inner, session, command, moment);
        if let Outcome::Done { answer } = &outcome {
            hold(&mut pass.held, session, command, answer);
        }
        outcome
    }

    fn call_all(
        &self,
        pass: &mut Admitted<G::Pass>,
        session: SessionId,
        commands: &Items<(Command, u64)>,
        answers: &mut Vec<Answer>,
    ) -> Outcomes {
        let calls = commands.slice();
        if goes_whole(&self.rules, self.catalogue, &pass.held, session, calls) {
            return self
                .inner
                .call_all(&mut pass.inner, session, commands, answers);
        }
        answers.clear();
        let mut done = 0;
        for asked in calls {
            match self.call(pass, session, &asked.0, asked.1) {
                Outcome::Done { answer } => answers.push_reserved(answer),
                outcome => {
                    return Outcomes {
                        done,
                        rest: Some(outcome),
                    };
                }
            }
            done += 1;
        }
        Outcomes { done, rest: None }
    }

    fn split(&self, pass: &mut Admitted<G::Pass>) -> Admitted<G::Pass> {
        Admitted {
            inner: self.inner.split(&mut pass.inner),
            held: None,
        }
    }

    fn join(&self, pass: &mut Admitted<G::Pass>, other: Admitted<G::Pass>) {
        self.inner.join(&mut pass.inner, other.inner());
    }

    ghost owned = { λ gate pass own. G.owned gate.inner pass.inner own.0 };
}
