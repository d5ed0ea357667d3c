ghost use Rattle.std.specs.Prelude.{◌≡◌, ◌≤◌, length};
ghost use Rattle.boss_access.specs.Limits.{most_rules};
ghost use Rattle.boss_access.specs.Decisions.{denied_by};

use crate::Rule;
use boss_model::Name;

/// The rule, from 1, that denies a write of this process to this point at this level. It is 0 where none is for the write.
/// Nothing where the write is allowed.
pub(crate) fn denied_by(rules: &[Rule], process: &Name, point: &Name, priority: i64) -> Option<u32>
    requires { length rules.now ≤ most_rules }
    ensures { result ≡ denied_by rules.now process.now point.now priority }
{
    for (at, rule) in rules.iter().enumerate() {
        if rule.is_for(process, point) {
            return if rule.allows(priority) {
                None
            } else {
                Some(at as u32 + 1)
            };
        }
    }
    Some(0)
}
