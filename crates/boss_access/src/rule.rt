ghost use Rattle.std.specs.Prelude.{◌≡◌};
ghost use Rattle.toml.specs.View.{view};
ghost use Rattle.boss_access.specs.Decisions.{is_for, allows};
ghost use Rattle.boss_access.specs.Keys.{rule_in, rule_of};

use crate::Pattern;
use crate::keys::{allow_of, has_rule_keys, highest_of, pattern_at};
use boss_model::{Name, Priority};
use toml::Value;

/// One rule. It is for the writes of the processes and of the points whose names its two patterns match.
#[derive(Debug, Drop)]
pub struct Rule {
    /// Which processes.
    pub process: Pattern,
    /// Which points.
    pub point: Pattern,
    /// The highest level, the least number, at which these writes are allowed: 1 to 16.
    pub highest: Priority,
    /// Whether they are allowed at all.
    pub allow: bool,
}

impl Rule {
    /// Whether the rule is for the writes of this process to this point.
    pub(crate) fn is_for(&self, process: &Name, point: &Name) -> bool
        ensures { result ≡ is_for self.now process.now point.now }
    {
        self.process.matches(process) && self.point.matches(point)
    }

    /// Whether the rule allows a write at this level, given that it is for it. The level is judged as a number, whatever it is.
    pub(crate) fn allows(&self, priority: i64) -> bool
        ensures { result ≡ allows self.now priority }
    {
        self.allow && i64::from(self.highest.0) <= priority
    }

    /// The rule that a table spells. One with a key that nothing reads spells none.
    pub(crate) fn spelled(table: &Value) -> Option<Rule>
        ensures { result ≡ rule_of (view table.now) }
    {
        if has_rule_keys(table) {
            Rule::read(table)
        } else {
            None
        }
    }

    /// The rule that the keys of a table spell.
    fn read(table: &Value) -> Option<Rule>
        ensures { result ≡ rule_in (view table.now) }
    {
        let process = pattern_at(table, "process")?;
        let point = pattern_at(table, "point")?;
        let highest = highest_of(table)?;
        let allow = allow_of(table)?;
        Some(Rule {
            process,
            point,
            highest,
            allow,
        })
    }
}
