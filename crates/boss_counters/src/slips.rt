// What a caller keeps of a request that it has left, and what a server keeps of one that it has taken.
use crate::view::{Errand, Token};
use std::marker::Model;
use std::snapshot::Snapshot;

/// A right to take back a request that was left at a counter, or to collect its reply. It has no bytes,
/// and may go to another thread.
///
/// To a contract a slip is a `Matter`: the counter's table, and the request. A slip that is dropped leaves
/// the counter taken for ever.
#[derive(Drop)]
pub struct Slip<Q: Errand> {
    pub(crate) token: Token<Q>,
    pub(crate) request: Snapshot<Q>,
}

impl<Q: Errand> Model for Slip<Q> {
    ghost use Rattle.std.specs.Prelude.{◌≡◌, []};
    ghost use Rattle.boss_counters.specs.Matters.{Matter};
    ghost use Rattle.boss_counters.specs.declared.view.Part.TheVariants.{Asked};

    ghost Value = { Matter Q };

    ghost view = { λ s. record { table = s.token.table_id; request = s.request.value } };

    ghost invariant = { λ s. (s.token.me.0.part ≡ Asked s.request.value) × (s.token.me.1 ≡ []) };
}

/// The duty to reply to a request that was taken from a counter. It has no bytes, and may go to another
/// thread.
///
/// To a contract a duty is a `Matter`: the counter's table, and the request. A duty that is dropped leaves
/// its slip without a reply for ever.
#[derive(Drop)]
pub struct Duty<Q: Errand> {
    pub(crate) token: Token<Q>,
    pub(crate) request: Snapshot<Q>,
}

impl<Q: Errand> Model for Duty<Q> {
    ghost use Rattle.std.specs.Prelude.{◌≡◌, [], ◌∷◌, None};
    ghost use Rattle.boss_counters.specs.Matters.{Matter};
    ghost use Rattle.boss_counters.specs.declared.view.Part.TheVariants.{Owes};

    ghost Value = { Matter Q };

    ghost view = { λ d. record { table = d.token.table_id; request = d.request.value } };

    ghost invariant = { λ d. (d.token.me.0.part ≡ Owes d.request.value) × (d.token.me.1 ≡ (0, None) ∷ []) };
}
