ghost use Rattle.std.specs.Prelude.{◌≡◌, ◌≤◌, ◌<◌, ℕ, ◌∷◌, ◌++◌, [], Some, true, not, cond, decimal, drop, take, slice_index, length, map, IfSome, IsTrue, ◌-◌};
ghost use Rattle.std.specs.Bool.{MatchBool, OnTrue};
ghost use Rattle.std.specs.Int.{IsInRange};
ghost use Rattle.std.specs.Simd.Lanes.{mask_l};
ghost use Rattle.json.specs.Json.{array, number as number_json, object};
ghost use Rattle.json.specs.Print.{quoted};
ghost use Rattle.std.specs.Str.{IsAscii};
ghost use Rattle.def_wire.specs.Requests.{value_in};
ghost use Rattle.std.specs.Str.Parse.{digits_value};
ghost use Rattle.boss_json.specs.Compact.{ends_plain, text_of, CompactBetween, IsFit};
ghost use Rattle.boss_json.specs.Trees.{tree_data, tree_json, trees_in, trees_under};

use crate::tree::Tree;
use bumpalo::Bump;
use bumpalo::collections::into_bump_slice;
use std::marker::Model;
use std::simd::prelude::*;

/// How deep arrays and objects may nest.
const MOST_LEVELS: usize = 8;

/// The last byte of ASCII.
const LAST_ASCII: u8 = 127;

/// A number of at most this many digits is in range.
const MOST_DIGITS: usize = 18;

/// The value that a text writes, where it is spelled compactly: ASCII, no white space, no escape in a string, no literal, and each number
/// whole, without a sign, of at most 18 digits; arrays and objects nest at most eight deep. None says nothing of the text, and is also
/// the answer where no memory was to be had.
pub(crate) fn compact_value<'a>(room: &'a Bump, text: &'a [u8]) -> Option<Tree<'a>>
    ensures { IfSome result (λ tree. value_in text.now ≡ Some (tree_data tree)) }
{
    let mut rest = Rest { text, place: 0 };
    let tree = rest.value(room, MOST_LEVELS)?;
    if rest.is_empty() { Some(tree) } else { None }
}

/// What is left of a text. A clause sees its bytes.
#[derive(Drop)]
struct Rest<'a> {
    text: &'a [u8],
    place: usize,
}

impl<'a> Model for Rest<'a> {
    ghost use Rattle.std.specs.Prelude.{ℕ, ◌≤◌, List, drop, length};

    ghost Value = { List ℕ };

    ghost view = { λ rest. drop rest.place rest.text.now };

    ghost invariant = { λ rest. rest.place ≤ length rest.text.now };
}

impl<'a> Rest<'a> {
    /// A value, in which arrays and objects nest at most this many levels deep.
    #[cycle(value)]
    #[inline(always)]
    fn value(&mut self, room: &'a Bump, levels: usize) -> Option<Tree<'a>>
        ensures text { IfSome result (λ tree. self.old ≡ text_of (tree_json tree) ++ self.new) }
        ensures fit { IfSome result (λ tree. IsFit levels (tree_json tree)) }
        ensures ascii { IfSome result (λ _. IsAscii self.new → IsAscii self.old) }
    {
        match self.first() {
            b'"' => Some(Tree::Text(self.string()?)),
            b'[' => Some(Tree::List(self.items(room, levels)?)),
            b'{' => Some(Tree::Object(self.members(room, levels)?)),
            _ => Some(Tree::Whole(self.digits()?)),
        }
    }

    /// An array's items, with its brackets.
    #[cycle(value)]
    #[inline(never)]
    fn items(&mut self, room: &'a Bump, levels: usize) -> Option<&'a [Tree<'a>]>
        ensures text { IfSome result
            (λ items. self.old ≡ text_of (array (trees_in items.now)) ++ self.new) }
        ensures fit { IfSome result (λ items. IsFit levels (array (trees_in items.now))) }
        ensures ascii { IfSome result (λ _. IsAscii self.new → IsAscii self.old) }
    {
        if levels == 0 || !self.takes(b'[') {
            return None;
        }
        let Ok(mut items) = Vec::with_capacity(room, items_room(levels)) else {
            return None;
        };
        while !self.takes(b']') {
            if !self.takes_comma(items.is_empty()) {
                return None;
            }
            let item = self.value(room, levels - 1)?;
            let Ok(()) = items.push(item) else {
                return None;
            };
        }
        Some(into_bump_slice(items))
    }

    /// An object's members, with its braces.
    #[cycle(value)]
    #[inline(never)]
    fn members(&mut self, room: &'a Bump, levels: usize) -> Option<&'a [(&'a [u8], Tree<'a>)]>
        ensures text { IfSome result
            (λ members. self.old ≡ text_of (object (trees_under members.now)) ++ self.new) }
        ensures fit { IfSome result (λ members. IsFit levels (object (trees_under members.now))) }
        ensures ascii { IfSome result (λ _. IsAscii self.new → IsAscii self.old) }
    {
        if levels == 0 || !self.takes(b'{') {
            return None;
        }
        let Ok(mut members) = Vec::with_capacity(room, members_room(levels)) else {
            return None;
        };
        while !self.takes(b'}') {
            if !self.takes_comma(members.is_empty()) {
                return None;
            }
            let key = self.string()?;
            if !self.takes(b':') {
                return None;
            }
            let value = self.value(room, levels - 1)?;
            let Ok(()) = members.push((key, value)) else {
                return None;
            };
        }
        Some(into_bump_slice(members))
    }

    /// A string of ASCII without an escape, with its quotes.
    #[inline(always)]
    fn string(&mut self) -> Option<&'a [u8]>
        ensures text { IfSome result (λ string. self.old ≡ quoted string.now ++ self.new) }
        ensures ascii { IfSome result (λ _. IsAscii self.new → IsAscii self.old) }
    {
        let bytes = self.text;
        if byte_at(bytes, self.place) != b'"' {
            return None;
        }
        let start = self.place + 1;
        let end = plain_end(bytes, start);
        if byte_at(bytes, end) != b'"' {
            return None;
        }
        self.place = end + 1;
        Some(&bytes[start..end])
    }

    /// A number of few digits, which begins with 0 only where it is 0.
    #[inline(always)]
    fn digits(&mut self) -> Option<u64>
        ensures text { IfSome result (λ number. self.old ≡ decimal number ++ self.new) }
        ensures fit { IfSome result (λ number. IsFit 0 (number_json (decimal number))) }
    {
        let bytes = self.text;
        let start = self.place;
        let (end, number) = digits_from(bytes, start);
        let count = end - start;
        if count == 0 || MOST_DIGITS < count {
            return None;
        }
        if bytes[start] == b'0' && count != 1 {
            return None;
        }
        self.place = end;
        Some(number)
    }

    /// Takes the comma that stands before each item or member but the first, and says whether that could be done.
    #[inline(always)]
    fn takes_comma(&mut self, is_first: bool) -> bool
        ensures { OnTrue result (self.old ≡ cond is_first [] (44 ∷ []) ++ self.new) }
    {
        is_first || self.takes(b',')
    }

    /// Takes this byte if it is next, and says whether it was.
    #[inline(always)]
    fn takes(&mut self, byte: u8) -> bool
        ensures { MatchBool result (self.old ≡ byte ∷ self.new) (self.new ≡ self.old) }
    {
        let bytes = self.text;
        let is_next = self.place < bytes.len() && bytes[self.place] == byte;
        if is_next {
            self.place += 1;
        }
        is_next
    }

    /// The next byte, or 0 at the end.
    #[inline(always)]
    fn first(&self) -> u8 {
        byte_at(self.text, self.place)
    }

    fn is_empty(&self) -> bool
        ensures { IsTrue result → self.now ≡ [] }
    {
        self.text.len() <= self.place
    }
}

/// Room for the items that most arrays have. Those further in have fewer.
#[inline(always)]
fn items_room(levels: usize) -> usize {
    match levels {
        0..=4 => 2,
        5 | 6 => 3,
        _ => 8,
    }
}

/// Room for the members that most objects have, in the same way.
#[inline(always)]
fn members_room(levels: usize) -> usize {
    match levels {
        0..=6 => 5,
        _ => 8,
    }
}

/// The byte at a place, or 0 past the end.
#[inline(always)]
fn byte_at(text: &[u8], place: usize) -> u8
    ensures { result ≡ slice_index text.now place }
{
    if place < text.len() { text[place] } else { 0 }
}

/// Where the bytes end that stand for themselves in a string: at a quote, a backslash, a control character, a byte that is no ASCII,
/// or the end.
#[inline(always)]
fn plain_end(text: &[u8], start: usize) -> usize
    requires { start ≤ length text.now }
    ensures after { start ≤ result }
    ensures plain { CompactBetween text.now start result }
{
    let mut end = start;
    while text.len() - end >= 8 {
        let stops = stops(u8x8::from_slice(&text[end..]));
        if stops != 0 {
            return end + stops.trailing_zeros() as usize;
        }
        end += 8;
    }
    plain_end_slowly(text, end)
}

/// The bytes of eight that end plain text, as bits.
#[inline(always)]
fn stops(bytes: u8x8) -> u64
    ensures { result ≡ mask_l (map ends_plain bytes) }
{
    (bytes.simd_eq(u8x8::splat(b'"'))
        | bytes.simd_eq(u8x8::splat(b'\\'))
        | bytes.simd_lt(u8x8::splat(b' '))
        | bytes.simd_gt(u8x8::splat(LAST_ASCII))).to_bitmask()
}

/// The same as `plain_end`, a byte at a time.
#[inline(always)]
fn plain_end_slowly(text: &[u8], start: usize) -> usize
    ensures after { start ≤ result }
    ensures plain { CompactBetween text.now start result }
{
    let mut end = start;
    while end < text.len() && is_plain(text[end]) {
        end += 1;
    }
    end
}

/// Whether a byte stands for itself in a string.
#[inline(always)]
fn is_plain(byte: u8) -> bool
    ensures { result ≡ not (ends_plain byte) }
{
    byte != b'"' && byte != b'\\' && b' ' <= byte && byte <= LAST_ASCII
}

/// Where the digits end that stand from a place on, or at most 19 of them, and the number that they write.
#[inline(always)]
fn digits_from(text: &[u8], start: usize) -> (usize, u64)
    requires { start ≤ length text.now }
    ensures after { start ≤ result.0 }
    ensures within { result.0 ≤ length text.now }
    ensures digits { (k : ℕ) → start ≤ k → k < result.0 → IsInRange 48 57 (slice_index text.now k) }
    ensures value { result.1 ≡ digits_value 10 (take (result.0 - start) (drop start text.now)) }
{
    let most = text.len().min(start + 19);
    let mut end = start;
    let mut number: u64 = 0;
    while end < most {
        let digit = text[end].wrapping_sub(b'0');
        if 9 < digit {
            return (end, number);
        }
        number = number * 10 + u64::from(digit);
        end += 1;
    }
    (end, number)
}
