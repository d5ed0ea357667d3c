//! A source whose bytes come in pieces.

use crate::counting::CountingSink;
use boss_model::Items;
use boss_outside::{FaultPlan, Got, Hears, Source};

/// What one read gives, as far as there is room.
#[derive(Clone, Copy, Debug, PartialEq, Eq)]
pub enum Piece {
    /// All that is left.
    Whole,
    /// The rest of a line, with its end.
    Line,
    /// One byte.
    Byte,
}

/// A text of which each read gives a piece. The reads with some numbers fail, and give nothing.
#[derive(Drop)]
pub struct Pieces<'a> {
    text: &'a [u8],
    given: usize,
    piece: Piece,
    plan: FaultPlan,
}

impl<'a> Pieces<'a> {
    /// A text before its first read. The reads with these numbers fail, counted from 1.
    pub fn new(text: &'a [u8], piece: Piece, fails: Items<u64>) -> Self {
        Pieces {
            text,
            given: 0,
            piece,
            plan: FaultPlan::new(fails),
        }
    }

    /// The bytes that are left.
    pub fn left(&self) -> &'a [u8] {
        self.text.get(self.given..).unwrap_or(&[])
    }
}

/// How many of these bytes a piece has.
fn length_of(piece: Piece, left: &[u8]) -> usize {
    match piece {
        Piece::Whole => left.len(),
        Piece::Line => match left.iter().position(|byte| *byte == b'\n') {
            Some(place) => place.saturating_add(1),
            None => left.len(),
        },
        Piece::Byte => 1,
    }
}

impl Source for Pieces<'_> {
    ghost use Rattle.std.specs.Prelude.{[]};

    ghost tells = { ⊥ };

    ghost left = { λ source. [] };

    ghost held = { λ source. [] };

    ghost faults = { λ source. source.plan.faults };

    fn read(&mut self, into: &mut [u8]) -> Got {
        if self.plan.call().is_err() {
            return Got::Failed;
        }
        let left = self.left();
        if left.is_empty() {
            return Got::Finish;
        }
        let count = length_of(self.piece, left)
            .min(left.len())
            .min(into.len())
            .max(1);
        into[..count].copy_from_slice(&left[..count]);
        self.given = self.given.saturating_add(count);
        Got::Bytes(count)
    }

    ghost suffix = { λ source tells. absurd tells };
}

impl Hears<CountingSink> for Pieces<'_> {
    fn show(&mut self, _sink: &CountingSink) {}
}
