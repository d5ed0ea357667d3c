ghost use Rattle.std.specs.Prelude.{◌≡◌, ◌<◌, ◌≤◌, [], length, IfOk, OnOk};
ghost use Rattle.std.specs.List.{AllByRecursion};
ghost use Rattle.toml.specs.View.{view};
ghost use Rattle.boss_model.specs.Catalogue.{actuators};
ghost use Rattle.boss_model.specs.Limits.{most_writes};
ghost use Rattle.boss_points.specs.Seen.{views};
ghost use Rattle.boss_access.specs.Decisions.{admits, first_denied};
ghost use Rattle.boss_access.specs.Limits.{most_rules};
ghost use Rattle.boss_access.specs.Reading.{Gives, rules_of, rules_in, rules_from, at_most};

use crate::decision::denied_by;
use crate::keys::{array_at, table_of};
use crate::{MOST_RULES, Rule, RulesRefusal};
use boss_model::{LONGEST_FILE, Name, Setting};
use boss_points::Catalogue;
use std::alloc::Global;
use std::marker::Model;
use toml::Value;

/// Access rules, numbered from 1 in the order of their file: at most 256. A contract sees them as the list of these.
#[derive(Debug, Drop)]
pub struct Rules {
    rules: Vec<Rule>,
}

impl Model for Rules {
    ghost use Rattle.std.specs.Prelude.{◌≤◌, List, length};
    ghost use Rattle.boss_access.specs.Limits.{most_rules};
    ghost use Rattle.boss_access.specs.declared.rule.Rule.{Rule as One};

    ghost Value = { List One };

    ghost view = { λ r. r.rules.items };

    ghost invariant = { λ r. length r.rules.items ≤ most_rules };
}

impl Rules {
    /// The rules that a file spells, in TOML. Keys beside the array `rule` are passed over.
    #[tactic(auto, unfolding(crate::specs::Reading::rules_of))]
    pub fn read(alloc: Global, bytes: &[u8]) -> Result<Rules, RulesRefusal>
        ensures { Gives (λ rules. rules) result (rules_of bytes.now) }
    {
        if bytes.len() > LONGEST_FILE {
            let length = bytes.len() as u64;
            return Err(RulesRefusal::TooLong { length });
        }
        let file = table_of(alloc, bytes)?;
        Rules::in_file(alloc, &file)
    }

    /// The rules that a file's table spells.
    fn in_file(alloc: Global, file: &Value) -> Result<Rules, RulesRefusal>
        ensures { Gives (λ rules. rules) result (rules_in (view file.now)) }
    {
        let tables = array_at(file, "rule").ok_or(RulesRefusal::Missing)?;
        at_most(MOST_RULES, tables)?;
        let rules = all_rules(alloc, tables)?;
        Ok(Rules { rules })
    }

    /// Whether a process of this name may attach: some rule is for the name, whatever that rule allows.
    pub fn admits(&self, name: &Name) -> bool
        ensures { result ≡ admits self.now name.now }
    {
        for rule in &self.rules {
            if rule.process.matches(name) {
                return true;
            }
        }
        false
    }

    /// The first of these writes that the process of this name may not make, by its place among them, from 0, and the rule
    /// that denies it, from 1. The rule is 0 where none is for that write. Nothing where the process may make each of them.
    pub fn first_denied(
        &self,
        catalogue: &Catalogue,
        process: &Name,
        writes: &[Setting],
    ) -> Option<(u32, u32)>
        requires few { length writes.now ≤ most_writes }
        requires points { AllByRecursion (λ write. write.point < length (actuators catalogue.now)) writes.now }
        ensures { result ≡ first_denied self.now catalogue.now.points process.now writes.now }
    {
        for (index, write) in writes.iter().enumerate() {
            let point = &catalogue.point(write.point).name;
            if let Some(rule) = denied_by(&self.rules, process, point, write.priority) {
                return Some((index as u32, rule));
            }
        }
        None
    }
}

/// Refuses more tables than this.
#[tactic(auto, using(boss_points::proofs::Views::length_views))]
fn at_most(most: usize, tables: &[Value]) -> Result<(), RulesRefusal>
    ensures refusal { Gives (λ done. done) result (at_most most (views tables.now)) }
    ensures few { OnOk result (length tables.now ≤ most) }
{
    if tables.len() > most {
        let count = tables.len() as u64;
        return Err(RulesRefusal::TooMany { count });
    }
    Ok(())
}

/// The rules of these tables, in their order.
fn all_rules(alloc: Global, tables: &[Value]) -> Result<Vec<Rule>, RulesRefusal>
    requires { length tables.now ≤ most_rules }
    ensures rules { Gives (λ rules. rules.items) result (rules_from 1 [] (views tables.now)) }
    ensures few { IfOk result (λ rules. length rules.items ≤ most_rules) }
{
    let mut rules = Vec::with_capacity(alloc, tables.len())?;
    for (at, table) in tables.iter().enumerate() {
        let place = at as u64 + 1;
        let rule = Rule::spelled(table).ok_or(RulesRefusal::BadRule { place })?;
        rules.push(rule)?;
    }
    Ok(rules)
}
