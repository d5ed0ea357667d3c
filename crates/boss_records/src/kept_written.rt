ghost use Rattle.std.specs.Prelude.{◌≡◌, ℕ, ◌+◌, ◌≤◌, ◌++◌, length, Option, Some};
ghost use Rattle.std.specs.Option.{option_map};
ghost use Rattle.def_bytes.specs.Fields.{tagged};
ghost use Rattle.def_bytes.specs.States.{causes, ends, replies, whats};

use crate::putting::{put_i64, put_u8, put_u16, put_u32, put_u64};
use crate::room::Room;
use crate::written::Written;
use crate::written_parts::{put_policy, put_steps};
use boss_model::{Acceptance, Cause, KeptPart, KeptReply, Lease, Notice, Pending, Txn, What};

impl Written for Txn {
    ghost use Rattle.std.specs.Prelude.{ℕ};
    ghost use Rattle.std.specs.Int.{w64};
    ghost use Rattle.def_bytes.specs.Fields.{number};
    ghost use Rattle.def_bytes.proofs.Spelling.{word64};

    ghost Value = { ℕ };

    ghost view = { λ x. x };

    ghost field = { number w64 };

    fn write<R: Room>(&self, into: &mut R) {
        put_u64(into, self.0);
    }

    ghost is_short = { word64.short };
}

impl Written for Lease {
    ghost use Rattle.boss_model.specs.declared.state.Lease.{Lease};
    ghost use Rattle.def_bytes.specs.States.{lease};
    ghost use Rattle.def_bytes.proofs.OfStates.{a_lease};

    ghost Value = { Lease };

    ghost view = { λ x. x };

    ghost field = { lease };

    fn write<R: Room>(&self, into: &mut R) {
        put_u64(into, self.txn.0);
        put_u16(into, self.owner.0);
        put_u32(into, self.point.0);
        put_u8(into, self.priority.0);
        put_i64(into, self.value);
        put_u64(into, self.until);
        put_policy(into, self.policy);
        put_steps(into, self.revert.slice());
    }

    ghost is_short = { a_lease.short };
}

impl Written for Pending {
    ghost use Rattle.boss_model.specs.declared.state.Pending.{Pending};
    ghost use Rattle.def_bytes.specs.States.{pending};
    ghost use Rattle.def_bytes.proofs.OfStates.{a_pending};

    ghost Value = { Pending };

    ghost view = { λ x. x };

    ghost field = { pending };

    fn write<R: Room>(&self, into: &mut R) {
        put_u64(into, self.txn.0);
        put_u16(into, self.owner.0);
        put_u32(into, self.point.0);
        put_u8(into, self.priority.0);
        put_u64(into, self.start);
        put_steps(into, self.steps.slice());
    }

    ghost is_short = { a_pending.short };
}

/// Why a lease ended.
pub fn put_cause<R: Room>(into: &mut R, cause: Cause)
    requires { length (R.bytes into.old) + 9 ≤ R.capacity into.old }
    ensures bytes { R.bytes into.new ≡ R.bytes into.old ++ (tagged causes).text cause }
    ensures long { length (R.bytes into.new) ≤ length (R.bytes into.old) + 9 }
    ensures capacity { R.capacity into.new ≡ R.capacity into.old }
{
    match cause {
        Cause::Expired => put_u8(into, 0),
        Cause::Cancelled => put_u8(into, 1),
        Cause::Died => put_u8(into, 2),
        Cause::Fault => put_u8(into, 3),
        Cause::Superseded { by } => {
            put_u8(into, 4);
            put_u64(into, by.0);
        }
    }
}

/// Whether, why and when a lease ended.
fn put_end<R: Room>(into: &mut R, end: Option<(Cause, u64)>)
    requires { length (R.bytes into.old) + 18 ≤ R.capacity into.old }
    ensures bytes { R.bytes into.new ≡ R.bytes into.old
        ++ (tagged ends).text (option_map (λ end. record { cause = end.0; at = end.1 }) end) }
    ensures capacity { R.capacity into.new ≡ R.capacity into.old }
{
    match end {
        None => put_u8(into, 0),
        Some((cause, at)) => {
            put_u8(into, 1);
            put_cause(into, cause);
            put_u64(into, at);
        }
    }
}

impl Written for KeptPart {
    ghost use Rattle.boss_model.specs.Records.{Part};
    ghost use Rattle.boss_model.specs.Seen.{seen_part};
    ghost use Rattle.def_bytes.specs.States.{part};
    ghost use Rattle.def_bytes.proofs.OfStates.{a_part};

    ghost Value = { Part };

    ghost view = { seen_part };

    ghost field = { part };

    fn write<R: Room>(&self, into: &mut R) {
        put_u32(into, self.point.0);
        put_u8(into, self.priority.0);
        put_end(into, self.end);
    }

    ghost is_short = { a_part.short };
}

/// What a notice tells.
fn put_what<R: Room>(into: &mut R, what: What)
    requires { length (R.bytes into.old) + 14 ≤ R.capacity into.old }
    ensures bytes { R.bytes into.new ≡ R.bytes into.old ++ (tagged whats).text what }
    ensures capacity { R.capacity into.new ≡ R.capacity into.old }
{
    match what {
        What::Fault { point } => {
            put_u8(into, 1);
            put_u32(into, point.0);
        }
        What::Ended { point, cause } => {
            put_u8(into, 2);
            put_u32(into, point.0);
            put_cause(into, cause);
        }
        What::Reverted { point } => {
            put_u8(into, 3);
            put_u32(into, point.0);
        }
        What::Cut { point, by } => {
            put_u8(into, 4);
            put_u32(into, point.0);
            put_u64(into, by.0);
        }
        What::Done => put_u8(into, 5),
    }
}

/// A notice without its number, which takes no bytes.
impl Written for Notice {
    ghost use Rattle.std.specs.Prelude.{ℕ};
    ghost use Rattle.boss_model.specs.declared.notice.What.{What};
    ghost use Rattle.def_bytes.specs.States.{told, told_of};
    ghost use Rattle.def_bytes.proofs.OfStates.{a_notice};

    ghost Value = { ℕ × (ℕ × What) };

    ghost view = { told_of };

    ghost field = { told };

    fn write<R: Room>(&self, into: &mut R) {
        put_u64(into, self.at);
        put_u64(into, self.txn.0);
        put_what(into, self.what);
    }

    ghost is_short = { a_notice.short };
}

/// A kept reply, or none, from version 2 on.
pub fn put_reply<R: Room>(into: &mut R, kept: Option<KeptReply>)
    requires { length (R.bytes into.old) + 25 ≤ R.capacity into.old }
    ensures bytes { R.bytes into.new ≡ R.bytes into.old ++ (tagged replies).text kept }
    ensures long { length (R.bytes into.new) ≤ length (R.bytes into.old) + 25 }
    ensures capacity { R.capacity into.new ≡ R.capacity into.old }
{
    match kept {
        None => put_u8(into, 0),
        Some(KeptReply { seq, acceptance }) => put_acceptance(into, seq, acceptance),
    }
}

/// What a numbered request was answered.
fn put_acceptance<R: Room>(into: &mut R, seq: u64, acceptance: Acceptance)
    requires { length (R.bytes into.old) + 25 ≤ R.capacity into.old }
    ensures bytes { R.bytes into.new ≡ R.bytes into.old ++ (tagged replies).text (Some (record { seq = seq; acceptance = acceptance })) }
    ensures long { length (R.bytes into.new) ≤ length (R.bytes into.old) + 25 }
    ensures capacity { R.capacity into.new ≡ R.capacity into.old }
{
    let (tag, txn, moment) = match acceptance {
        Acceptance::Accepted { txn, until } => (1, txn, until),
        Acceptance::Renewed { txn, until } => (2, txn, until),
        Acceptance::Cancelled { txn, at } => (3, txn, at),
    };
    put_u8(into, tag);
    put_u64(into, seq);
    put_u64(into, txn.0);
    put_u64(into, moment);
}
