ghost use Rattle.std.specs.Prelude.{◌≡◌, ℕ, ◌+◌, ◌-◌, ◌<◌, ◌≤◌, true, List, [], ◌++◌, length, take, drop, slice_index, IfOk, IfSome, IfNone};
ghost use Rattle.boss_model.specs.Limits.{longest_line};
ghost use Rattle.boss_outside.specs.Notes.{Notes, NotesEach};
ghost use Rattle.boss_outside.specs.Streams.{FitsRoom, Reads, ReadCause};
ghost use Rattle.boss_lines.specs.Lines.{ends_line, IsReadFor};
ghost use Rattle.boss_lines.specs.Window.{Adds, NoLineEnd, Shows, IsAtEnd, FoundCause, IsFound};

use boss_model::{LONGEST_LINE, NoMemory};
use boss_outside::{Got, Source};
use memchr::memchr;
use std::alloc::Global;
use std::marker::Model;

/// Room for two lines of that length with their ends: so a line that reaches the end of the room fits in front of its own
/// place.
const ROOM: usize = 2 * (LONGEST_LINE + 1);

/// Where the first line ends.
#[derive(Clone, Copy, Debug, PartialEq, Eq)]
pub enum Found {
    /// At this place among the bytes that are held.
    LineEnd(usize),
    /// Nowhere: the source has come to its end.
    SourceEnd,
    /// Nowhere within the bytes that a line may have.
    TooFar,
    /// Not known: a read failed.
    Fault,
}

/// The bytes that were read and not yet used, in a room that is taken once.
///
/// Each byte is moved once at most: the bytes at the end of the room are moved to its front before a read, and by the
/// time that the room is full again the line that they began is used.
#[derive(Debug, Drop)]
pub struct Window {
    bytes: Vec<u8>,
    start: usize,
    count: usize,
}

impl Model for Window {
    ghost use Rattle.std.specs.Prelude.{◌≡◌, ◌≤◌, ◌+◌, ℕ, List, length, take, drop};
    ghost use Rattle.boss_lines.specs.declared.window.TheConstants.{ROOM};

    ghost Value = { List ℕ };

    ghost view = { λ w. take w.count (drop w.start w.bytes.items) };

    ghost invariant = { λ w. (w.start + w.count ≤ length w.bytes.items) × (length w.bytes.items ≡ ROOM) };
}

impl Window {
    /// A window that holds nothing.
    pub fn new(alloc: Global) -> Result<Window, NoMemory>
        ensures { IfOk result (λ window. window ≡ []) }
    {
        Ok(Window {
            bytes: vec![in alloc; 0; ROOM]?,
            start: 0,
            count: 0,
        })
    }

    /// The bytes that are held.
    pub fn bytes(&self) -> &[u8]
        ensures { result.now ≡ self.now }
    {
        &self.bytes[self.start..self.start + self.count]
    }

    /// Lets the first bytes go, this many.
    pub fn consume(&mut self, count: usize)
        requires { count ≤ length self.old }
        ensures { self.new ≡ drop count self.old }
    {
        self.start += count;
        self.count -= count;
    }

    /// Whether a line ends among the bytes behind the first ones, this many.
    pub fn ends_line_behind(&self, count: usize) -> bool
        requires { count ≤ length self.now }
        ensures { result ≡ ends_line (drop count self.now) }
    {
        match line_end_from(&self.bytes()[count..], 0) {
            Some(place) => place <= LONGEST_LINE,
            None => false,
        }
    }

    /// Reads some bytes behind those that are held.
    fn fill<S: Source>(&mut self, source: &mut S) -> Got
        requires { length self.old ≤ longest_line }
        ensures adds { Adds self.old self.new result }
        ensures bytes { S.tells → self.new ++ S.left source.new ≡ self.old ++ S.left source.old }
        ensures finish { S.tells → result ≡ Got.Finish → S.left source.new ≡ [] }
        ensures stays { S.tells → S.held source.new ≡ S.held source.old }
        ensures noted { S.tells → Notes (S.reads source.old) (S.reads source.new) (record { left = length (S.left source.old); told = S.told source.old }) }
        ensures shown { S.told source.new ≡ S.told source.old }
        ensures cause { ReadCause (S.faults source.old) (S.faults source.new) result }
    {
        let bytes = self.bytes.as_mut_slice();
        self.start = make_room(bytes, self.start, self.count);
        let got = read_behind(source, bytes, self.start + self.count);
        self.count += got.count();
        got
    }

    /// Seeks the first line end, and reads on until it has come.
    pub fn find_line_end<S: Source>(&mut self, source: &mut S) -> Found
        ensures shows { Shows self.new result }
        ensures bytes { S.tells → self.new ++ S.left source.new ≡ self.old ++ S.left source.old }
        ensures finish { S.tells → IsAtEnd (S.left source.new) result }
        ensures stays { S.tells → S.held source.new ≡ S.held source.old }
        ensures reads { S.tells → NotesEach (IsReadFor (self.old ++ S.left source.old) (S.told source.old)) (S.reads source.old) (S.reads source.new) }
        ensures shown { S.told source.new ≡ S.told source.old }
        ensures at_hand { ends_line self.old ≡ true → IsFound result × (source.new ≡ source.old) }
        ensures cause { FoundCause (S.faults source.old) (S.faults source.new) result }
    {
        let mut sought = 0;
        loop {
            let held = self.bytes();
            if let Some(place) = line_end_from(held, sought) {
                return if place <= LONGEST_LINE {
                    Found::LineEnd(place)
                } else {
                    Found::TooFar
                };
            }
            sought = held.len();
            if sought > LONGEST_LINE {
                return Found::TooFar;
            }
            match self.fill(source) {
                Got::Bytes(_) => {}
                Got::Finish => return Found::SourceEnd,
                Got::Failed => return Found::Fault,
            }
        }
    }
}

/// The first place where a line ends. The bytes before `from` are passed over: no line ends there.
fn line_end_from(bytes: &[u8], from: usize) -> Option<usize>
    requires within { from ≤ length bytes.now }
    requires passed { NoLineEnd from bytes.now }
    ensures found { IfSome result (λ place. NoLineEnd place bytes.now × (place < length bytes.now)
        × (slice_index bytes.now place ≡ 10)) }
    ensures none { IfNone result (NoLineEnd (length bytes.now) bytes.now) }
{
    let place = memchr(b'\n', &bytes[from..])?;
    Some(from + place)
}

/// Moves these bytes to the front where there is no room behind them, and says where they start then. Where there are
/// none they start at the front.
fn make_room(bytes: &mut [u8], start: usize, count: usize) -> usize
    requires within { start + count ≤ length bytes.old }
    requires few { count ≤ longest_line }
    requires room { length bytes.old ≡ ROOM }
    ensures kept { take count (drop result bytes.new) ≡ take count (drop start bytes.old) }
    ensures room { result + count < length bytes.new }
{
    if 0 < count && start + count < bytes.len() {
        return start;
    }
    let (front, back) = bytes.split_at_mut(start);
    front[..count].copy_from_slice(&back[..count]);
    0
}

/// Reads behind the first bytes, this many, which stay as they are.
fn read_behind<S: Source>(source: &mut S, bytes: &mut [u8], place: usize) -> Got
    requires { place < length bytes.old }
    ensures before { take place bytes.new ≡ take place bytes.old }
    ensures count { FitsRoom (length bytes.old - place) result }
    ensures bytes { S.tells → Reads (S.left source.old) (S.left source.new) (drop place bytes.new) result }
    ensures stays { S.tells → S.held source.new ≡ S.held source.old }
    ensures noted { S.tells → Notes (S.reads source.old) (S.reads source.new) (record { left = length (S.left source.old); told = S.told source.old }) }
    ensures shown { S.told source.new ≡ S.told source.old }
    ensures cause { ReadCause (S.faults source.old) (S.faults source.new) result }
{
    source.read(&mut bytes[place..])
}
