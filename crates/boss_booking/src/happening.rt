ghost use Rattle.std.specs.Prelude.{◌≡◌, not, vec_capacity};
ghost use Rattle.std.specs.Ordering.{is_lt};
ghost use Rattle.boss_model.specs.Happenings.{rank, sort_number, point_of};
ghost use Rattle.boss_model.specs.Order.{comes_before, in_order};
ghost use Rattle.boss_booking.specs.Gathered.{told_rank};
ghost use Rattle.law_due.specs.Telling.{AreApart};

use boss_model::{PointId, ProcId, Txn, What};
use std::cmp::Ordering;
use std::marker::Model;

/// Something that happened to a transaction, of which its owner is told.
#[derive(Clone, Copy)]
pub struct Happening {
    /// When, in milliseconds.
    pub at: u64,
    pub txn: Txn,
    pub owner: ProcId,
    pub what: What,
}

impl Model for Happening {
    ghost use Rattle.std.specs.Prelude.{Some};
    ghost use Rattle.boss_model.specs.Happenings.{Happening as Told};
    ghost use Rattle.law_due.specs.Telling.{what_told};

    ghost Value = { Told };

    ghost view = { λ h. record { at = h.at; txn = h.txn; owner = h.owner; told = Some h.what } };

    ghost inverse = { λ t. record { at = t.at; txn = t.txn; owner = t.owner; what = what_told t.told } };
}

impl Happening {
    ghost use Rattle.boss_booking.specs.Books.{all_done, is_end};

    /// Whether a lease or a reversion ended.
    pub fn is_end(&self) -> bool
        ensures { result ≡ is_end self.now.told }
    {
        matches!(
            self.what,
            What::Ended { .. } | What::Reverted { .. } | What::Cut { .. }
        )
    }

    /// The transaction became done with it.
    pub fn all_done(&self) -> Happening
        ensures { result ≡ all_done self.now }
    {
        Happening {
            at: self.at,
            txn: self.txn,
            owner: self.owner,
            what: What::Done,
        }
    }
}

/// Something that happened, and whether a reversion begins with it.
#[derive(Clone, Copy)]
pub struct Telling {
    pub happening: Happening,
    pub reverts: bool,
}

impl Model for Telling {
    ghost use Rattle.boss_booking.specs.Books.{Telling as Told};

    ghost Value = { Told };

    ghost view = { λ t. record { happening = t.happening; reverts = t.reverts } };

    ghost inverse = { λ t. record { happening = t.happening; reverts = t.reverts } };
}

/// Puts what is told in its order: by moment, by transaction, by kind of notice, by point.
pub fn put_in_order(told: &mut Vec<Telling>)
    requires { AreApart told_rank told.old.items }
    ensures order { told.new.items ≡ in_order told_rank told.old.items }
    ensures room { vec_capacity told.new ≡ vec_capacity told.old }
{
    told.sort_unstable_by(|one, other| compare(&one.happening, &other.happening));
}

/// Whether the first is told before the second: by moment, by transaction, by kind of notice, by point.
fn compare(one: &Happening, other: &Happening) -> Ordering
    ensures { is_lt result ≡ not (comes_before (rank other.now) (rank one.now)) }
{
    if one.at != other.at {
        return one.at.cmp(&other.at);
    }
    if one.txn != other.txn {
        return one.txn.cmp(&other.txn);
    }
    sort_number(&one.what)
        .cmp(&sort_number(&other.what))
        .then(point_of(&one.what).cmp(&point_of(&other.what)))
}

/// The place of a kind of notice among those of one transaction and moment.
fn sort_number(what: &What) -> u8
    ensures { result ≡ sort_number what.now }
{
    match what {
        What::Fault { .. } => 1,
        What::Ended { .. } => 2,
        What::Reverted { .. } => 3,
        What::Cut { .. } => 4,
        What::Done => 5,
    }
}

/// The point that is told of; 0 where none is.
fn point_of(what: &What) -> PointId
    ensures { result ≡ point_of what.now }
{
    match what {
        What::Fault { point }
        | What::Ended { point, .. }
        | What::Reverted { point }
        | What::Cut { point, .. } => *point,
        What::Done => PointId(0),
    }
}
