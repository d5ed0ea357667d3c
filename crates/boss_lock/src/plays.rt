// The kinds of step, and what each tells the seat that makes it.
ghost use Rattle.std.specs.Prelude.{List, []};
ghost use Rattle.boss_lock.specs.Rule.{spent_view};
ghost use Rattle.boss_lock.specs.Steps.{left_view, right_view, joined_view, bare_view, set_down_view, folded_view, drawn, looked, taken, given, passed, compared, added};

use crate::view::{Known, Stands, View};
use atomic_table::{Join, Play, Split};
use std::marker::{Brand, PhantomData};

pub struct Draw;

impl<V: Stands> Play<Option<V>, Known<V>> for Draw {
    ghost then = { drawn };
}

pub struct Look;

impl<V: Stands> Play<Option<V>, Known<V>> for Look {
    ghost then = { looked };
}

pub struct Take;

impl<V: Stands> Play<Option<V>, Known<V>> for Take {
    ghost then = { taken V.stands };
}

// Names the entries of one turn. The call that adds them, or gives the value back, picks them.
pub trait Telling<E> {
    ghost told: { List E };
}

impl<E> Telling<E> for Brand {
    ghost told = { [] };
}

pub struct GiveBack<J> {
    telling: PhantomData<J>,
}

impl<V: Stands, J: Telling<V::Entry>> Play<Option<V>, Known<V>> for GiveBack<J> {
    ghost then = { given J.told };
}

pub struct PassOn;

impl<V: Stands> Play<Option<V>, Known<V>> for PassOn {
    ghost then = { passed };
}

// Two lists that a seat knows are beginnings of one history. It needs a step of its own, since a join tells nothing.
pub struct Compare;

impl<V: Stands> Play<Option<V>, Known<V>> for Compare {
    ghost then = { compared };
}

pub struct Add<J> {
    telling: PhantomData<J>,
}

impl<V: Stands, J: Telling<V::Entry>> Play<Option<V>, Known<V>> for Add<J> {
    ghost then = { added J.told };
}

pub struct OnePart;

impl<T, E> Split<View<T, E>> for OnePart {
    ghost left = { left_view };

    ghost right = { right_view };
}

pub struct AllParts;

impl<T, E> Join<View<T, E>> for AllParts {
    ghost both = { joined_view };

    ghost spent = { spent_view };
}

// All but one part, and every place. The part that stays keeps the turn.
pub struct SetDown;

impl<T, E> Split<View<T, E>> for SetDown {
    ghost left = { bare_view };

    ghost right = { set_down_view };
}

// The parts alone.
pub struct Fold;

impl<T, E> Join<View<T, E>> for Fold {
    ghost both = { folded_view };

    ghost spent = { spent_view };
}
