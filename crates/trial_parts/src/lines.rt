use boss_lines::{Lines, Next, read_lines};
use boss_model::Items;
use boss_outside::{BytesSource, Got, Source};
use std::alloc::Global;
use std::process::Abort;

/// A source that is cut: a read gives at most so many bytes, and none on both sides of a place.
#[derive(Drop)]
struct Pieces<'a> {
    text: &'a [u8],
    given: usize,
    most: usize,
    cut: usize,
    /// The number of the read that fails, from 1.
    fails: u64,
    reads: u64,
    faults: u64,
}

impl<'a> Pieces<'a> {
    fn new(text: &'a [u8], most: usize, cut: usize, fails: u64) -> Self {
        Pieces {
            text,
            given: 0,
            most,
            cut,
            fails,
            reads: 0,
            faults: 0,
        }
    }
}

impl Source for Pieces<'_> {
    ghost use Rattle.std.specs.Prelude.{[]};

    ghost tells = { ⊥ };

    ghost left = { λ source. [] };

    ghost held = { λ source. [] };

    ghost faults = { λ source. source.faults };

    fn read(&mut self, into: &mut [u8]) -> Got {
        self.reads = self.reads.saturating_add(1);
        if self.reads == self.fails {
            self.faults = self.faults.saturating_add(1);
            return Got::Failed;
        }
        let end = if self.given < self.cut {
            self.cut
        } else {
            self.text.len()
        };
        let left = self.text.get(self.given..end).unwrap_or(&self.text[..0]);
        let count = left.len().min(self.most).min(into.len());
        if count == 0 {
            return Got::Finish;
        }
        into[..count].copy_from_slice(&left[..count]);
        self.given = self.given.saturating_add(count);
        Got::Bytes(count)
    }

    ghost suffix = { λ source tells. absurd tells };
}

/// One byte more than the longest line has.
static LONG: [u8; 65_536] = [b'x'; 65_536];

/// The text that a row means: `$` is the end of a line, and `~` stands for the bytes of a longest line.
fn meant(rt: &impl Abort, alloc: Global, row: &str) -> Vec<u8> {
    let mut text = Vec::new(alloc);
    for byte in row.as_bytes() {
        match byte {
            b'$' => text.push(b'\n').expect(rt, "memory"),
            b'~' => text.extend_from_slice(&LONG[..65_535]).expect(rt, "memory"),
            byte => text.push(*byte).expect(rt, "memory"),
        }
    }
    text
}

/// Puts the lines that a reader gives behind these bytes, each with an end behind it; the answer behind them.
fn read_all(rt: &impl Abort, reader: &mut Lines, source: &mut Pieces, read: &mut Vec<u8>) -> Next {
    for _ in 0..=source.text.len() {
        let answer = reader.next(source);
        if answer != Next::Line {
            return answer;
        }
        put_line(rt, read, reader.line());
    }
    Next::Line
}

/// Puts a line behind these bytes, with an end behind it.
fn put_line(rt: &impl Abort, into: &mut Vec<u8>, line: &[u8]) {
    into.extend_from_slice(line).expect(rt, "memory");
    into.push(b'\n').expect(rt, "memory");
}

/// Whether a reader that gave its last answer has no line, and gives the same answer again without one more read.
fn stays(reader: &mut Lines, source: &mut Pieces, end: Next) -> bool {
    let reads = source.reads;
    reader.line().is_empty() && reader.next(source) == end && source.reads == reads
}

/// Whether a reader gives these lines, each with an end behind it, then this answer, and then the same answer again, without
/// one more read.
fn expect(rt: &impl Abort, alloc: Global, mut source: Pieces, lines: &[u8], end: Next) {
    let mut reader = Lines::new(alloc).expect(rt, "memory");
    let mut read = Vec::new(alloc);
    let answer = read_all(rt, &mut reader, &mut source, &mut read);
    let same = answer == end && read.as_slice() == lines;
    assert!(rt; same && stays(&mut reader, &mut source, end));
}

/// Whether a place is near one of the ends of a text, or beside the end of a line.
fn is_near_an_end(text: &[u8], place: usize) -> bool {
    place < 8
        || text.get(place.saturating_add(8)).is_none()
        || text.get(place) == Some(&b'\n')
        || text.get(place.saturating_sub(1)) == Some(&b'\n')
}

/// A text, its lines, and the answer behind them.
const TEXTS: &[(&str, &str, Next)] = &[
    ("", "", Next::Finish),
    ("a", "a$", Next::Finish),
    ("$", "$", Next::Finish),
    ("$$", "$$", Next::Finish),
    ("ab$", "ab$", Next::Finish),
    ("ab$c", "ab$c$", Next::Finish),
    ("$ab$$$c$", "$ab$$$c$", Next::Finish),
    ("ab\r$c\r$\r", "ab\r$c\r$\r$", Next::Finish),
    ("~", "~$", Next::Finish),
    ("~$", "~$", Next::Finish),
    ("~$$~$a", "~$$~$a$", Next::Finish),
    ("~x", "", Next::TooLong),
    ("~x$", "", Next::TooLong),
    ("a$$~x$b$", "a$$", Next::TooLong),
    ("~$~~~xxx", "~$", Next::TooLong),
];

#[test]
fn lines_are_the_same_however_the_text_is_cut(rt: HostRuntime) {
    expect_texts(&rt, rt.alloc(), TEXTS);
}

fn expect_texts(rt: &impl Abort, alloc: Global, texts: &[(&str, &str, Next)]) {
    for text in texts {
        expect_lines(rt, alloc, text.0, text.1, text.2);
    }
}

/// The most bytes of a read.
const MOST: &[usize] = &[usize::MAX, 1, 1_000];

fn expect_in_pieces(rt: &impl Abort, alloc: Global, text: &[u8], lines: &[u8], end: Next) {
    for most in MOST {
        expect(rt, alloc, Pieces::new(text, *most, 0, 0), lines, end);
    }
}

fn expect_cut(rt: &impl Abort, alloc: Global, text: &[u8], lines: &[u8], end: Next) {
    for place in 0..text.len() {
        if is_near_an_end(text, place) {
            let source = Pieces::new(text, usize::MAX, place, 0);
            expect(rt, alloc, source, lines, end);
        }
    }
}

/// Compares the lines of a text, however it is cut.
fn expect_lines(rt: &impl Abort, alloc: Global, text: &str, lines: &str, end: Next) {
    let text = meant(rt, alloc, text);
    let lines = meant(rt, alloc, lines);
    expect_in_pieces(rt, alloc, &text, &lines, end);
    expect_cut(rt, alloc, &text, &lines, end);
}

type Fault = (&'static str, usize, u64, &'static str, Next);

/// Texts that are read in pieces of at most so many bytes, where a read fails: the lines that ended before, and the answer.
/// Behind the end of the source no read is made, so none can fail there.
const FAULTS: &[Fault] = &[
    ("ab$$c$d", 1, 1, "", Next::ReadFault),
    ("ab$$c$d", 1, 2, "", Next::ReadFault),
    ("ab$$c$d", 1, 3, "", Next::ReadFault),
    ("ab$$c$d", 1, 4, "ab$", Next::ReadFault),
    ("ab$$c$d", 1, 5, "ab$$", Next::ReadFault),
    ("ab$$c$d", 1, 6, "ab$$", Next::ReadFault),
    ("ab$$c$d", 1, 7, "ab$$c$", Next::ReadFault),
    ("ab$$c$d", 1, 8, "ab$$c$", Next::ReadFault),
    ("ab$$c$d", usize::MAX, 1, "", Next::ReadFault),
    ("ab$$c$d", usize::MAX, 2, "ab$$c$", Next::ReadFault),
    ("ab$c", usize::MAX, 3, "ab$c$", Next::Finish),
    ("ab$", usize::MAX, 3, "ab$", Next::Finish),
];

#[test]
fn a_fault_comes_behind_the_lines_that_ended(rt: HostRuntime) {
    expect_faults(&rt, rt.alloc(), FAULTS);
}

fn expect_faults(rt: &impl Abort, alloc: Global, faults: &[Fault]) {
    for fault in faults {
        expect_fault(rt, alloc, fault);
    }
}

fn expect_fault(rt: &impl Abort, alloc: Global, fault: &Fault) {
    let (text, most, fails, lines, end) = *fault;
    let text = meant(rt, alloc, text);
    let lines = meant(rt, alloc, lines);
    expect(rt, alloc, Pieces::new(&text, most, 0, fails), &lines, end);
}

#[test]
fn a_long_line_is_told_without_one_more_read(rt: HostRuntime) {
    let mut source = Pieces::new(&LONG, 1, 0, 0);
    let mut reader = Lines::new(rt.alloc()).expect(&rt, "memory");
    let answer = reader.next(&mut source);
    assert!(&rt; answer == Next::TooLong && source.reads == 65_536);
}

/// Limits, the lines of one text that are read, and what came behind them.
const LIMITS: &[(u64, &str, Next)] = &[
    (9, "a$$bc$", Next::Finish),
    (3, "a$$bc$", Next::Finish),
    (2, "a$$", Next::Line),
];

#[test]
fn lines_are_read_up_to_a_limit(rt: HostRuntime) {
    for limit in LIMITS {
        expect_limit(&rt, rt.alloc(), limit.0, limit.1, limit.2);
    }
}

fn expect_limit(rt: &impl Abort, alloc: Global, limit: u64, lines: &str, end: Next) {
    let text = Items::from_vec(meant(rt, alloc, "a$$bc"));
    let mut source = BytesSource::new(alloc, text, Items::new(alloc)).expect(rt, "memory");
    let read = read_lines(alloc, &mut source, limit).expect(rt, "memory");
    let lines = meant(rt, alloc, lines);
    assert!(rt; read.end == end && are_same(rt, alloc, read.lines.slice(), &lines));
}

/// Whether these lines, each with an end behind it, are this text.
fn are_same(rt: &impl Abort, alloc: Global, lines: &[Items<u8>], text: &[u8]) -> bool {
    let mut told = Vec::new(alloc);
    for line in lines {
        put_line(rt, &mut told, line.slice());
    }
    told.as_slice() == text
}
