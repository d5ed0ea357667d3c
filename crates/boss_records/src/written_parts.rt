ghost use Rattle.std.specs.Prelude.{◌≡◌, ℕ, ◌+◌, ◌≤◌, true, ◌++◌, length};
ghost use Rattle.def_bytes.specs.Parts.{moment, name, policy, steps};

use crate::putting::{put_i64, put_natural8, put_natural32, put_u8, put_u32};
use crate::room::Room;
use crate::written::{Written, write_items};
use boss_model::{Name, PointId, Policy, Setting, Step};

/// A name: its length in a byte, and its bytes.
pub fn put_name<R: Room>(into: &mut R, written: &Name)
    requires { length (R.bytes into.old) + 65 ≤ R.capacity into.old }
    ensures bytes { R.bytes into.new ≡ R.bytes into.old ++ name.text written.now }
    ensures capacity { R.capacity into.new ≡ R.capacity into.old }
{
    let bytes = written.bytes();
    put_u8(into, bytes.len() as u8);
    into.put_all(bytes);
}

/// A policy: 0 for abort, 1 for keep.
pub fn put_policy<R: Room>(into: &mut R, kept: Policy)
    requires { length (R.bytes into.old) + 1 ≤ R.capacity into.old }
    ensures bytes { R.bytes into.new ≡ R.bytes into.old ++ policy.text kept }
    ensures long { length (R.bytes into.new) ≡ length (R.bytes into.old) + 1 }
    ensures capacity { R.capacity into.new ≡ R.capacity into.old }
{
    match kept {
        Policy::Abort => put_u8(into, 0),
        Policy::Keep => put_u8(into, 1),
    }
}

impl Written for Step {
    ghost use Rattle.boss_model.specs.declared.command.Step.{Step};
    ghost use Rattle.def_bytes.specs.Parts.{step};
    ghost use Rattle.def_bytes.proofs.OfParts.{one_step};

    ghost Value = { Step };

    ghost view = { λ x. x };

    ghost field = { step };

    fn write<R: Room>(&self, into: &mut R) {
        put_i64(into, self.value);
        put_natural32(into, self.hold);
    }

    ghost is_short = { one_step.short };
}

/// A reversion: the number of its steps in a byte, and the steps.
pub fn put_steps<R: Room>(into: &mut R, written: &[Step])
    requires fits { steps.fits written.now ≡ true }
    requires room { length (R.bytes into.old) + steps.most ≤ R.capacity into.old }
    ensures bytes { R.bytes into.new ≡ R.bytes into.old ++ steps.text written.now }
    ensures capacity { R.capacity into.new ≡ R.capacity into.old }
{
    put_u8(into, written.len() as u8);
    write_items(into, written);
}

impl Written for Setting {
    ghost use Rattle.boss_model.specs.declared.command.Setting.{Setting};
    ghost use Rattle.def_bytes.specs.Events.{setting};
    ghost use Rattle.def_bytes.proofs.OfEvents.{one_setting};

    ghost Value = { Setting };

    ghost view = { λ x. x };

    ghost field = { setting };

    fn write<R: Room>(&self, into: &mut R) {
        put_u32(into, self.point.0);
        put_i64(into, self.value);
        put_natural8(into, self.priority);
        put_natural32(into, self.lease);
        put_steps(into, self.revert.slice());
    }

    ghost is_short = { one_setting.short };
}

impl Written for PointId {
    ghost use Rattle.std.specs.Prelude.{ℕ};
    ghost use Rattle.std.specs.Int.{w32};
    ghost use Rattle.def_bytes.specs.Fields.{number};
    ghost use Rattle.def_bytes.proofs.Spelling.{word32};

    ghost Value = { ℕ };

    ghost view = { λ x. x };

    ghost field = { number w32 };

    fn write<R: Room>(&self, into: &mut R) {
        put_u32(into, self.0);
    }

    ghost is_short = { word32.short };
}
