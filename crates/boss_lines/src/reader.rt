ghost use Rattle.std.specs.Prelude.{◌≡◌, ◌≢◌, ◌≤◌, ℕ, true, [], ◌++◌, length, Some, None, IfOk, IfSome};
ghost use Rattle.boss_model.specs.Limits.{longest_line};
ghost use Rattle.boss_outside.specs.Notes.{NotesEach};
ghost use Rattle.boss_lines.specs.Lines.{Answers, EndsLine, IsReadFor, is_at_hand, Leaves, NextCause, StopsAt};

use crate::window::{Found, Window};
use boss_model::NoMemory;
use boss_outside::Source;
use std::alloc::Global;
use std::marker::Model;

/// What a reader of lines came to.
#[derive(Clone, Copy, Debug, PartialEq, Eq)]
pub enum Next {
    /// A line, which `Lines::line` gives.
    Line,
    /// The end: a read gave nothing, and no byte is left over.
    Finish,
    /// More than `LONGEST_LINE` bytes in a row without a line end.
    TooLong,
    /// A read that failed.
    ReadFault,
}

/// Reads the lines of a source. A line ends at byte 10, which is no part of it, and has at most `LONGEST_LINE` bytes. What
/// stands behind the last line end is a line where it is not empty.
#[derive(Debug, Drop)]
pub struct Lines {
    window: Window,
    /// How many bytes at the front of the window are the last line.
    line: usize,
    /// The same with its line end, if it has one.
    used: usize,
    /// The answer that it stays at. Behind the last line this is the end, where the source has told it.
    stopped: Option<Next>,
}

impl Model for Lines {
    ghost use Rattle.std.specs.Prelude.{take, drop};
    ghost use Rattle.boss_lines.specs.Lines.{Progress};
    ghost use Rattle.boss_lines.specs.Inside.{IsSound};

    ghost Value = { Progress };

    ghost view = { λ l. record { line = take l.line l.window; ahead = drop l.used l.window; stopped = l.stopped } };

    ghost invariant = { λ l. IsSound l.window l.line l.used l.stopped };
}

impl Lines {
    /// A reader that has not read yet. Its room is the only memory that it takes.
    pub fn new(alloc: Global) -> Result<Lines, NoMemory>
        ensures { IfOk result (λ reader. reader ≡ record { line = []; ahead = []; stopped = None }) }
    {
        Ok(Lines {
            window: Window::new(alloc)?,
            line: 0,
            used: 0,
            stopped: None,
        })
    }

    /// The line that the last call of `next` came to, and nothing where it came to none.
    pub fn line(&self) -> &[u8]
        ensures value { result.now ≡ self.now.line }
        ensures within { length self.now.line ≤ longest_line }
    {
        &self.window.bytes()[..self.line]
    }

    /// Whether the next call of `next` gives a line without reading: all of it was read ahead, with its end.
    pub fn whole(&self) -> bool
        ensures { result ≡ is_at_hand self.now.stopped self.now.ahead }
    {
        self.stopped.is_none() && self.window.ends_line_behind(self.used)
    }

    /// Goes on to the next line. It takes no memory. Once it came to the end of the source, to a line that is too long or to
    /// a read that failed, it stays there and reads no more.
    pub fn next<S: Source>(&mut self, source: &mut S) -> Next
        // Of a source that tells its bytes, and that has none left once it told its end: those that are ahead are those that
        // were read ahead and those that are left.
        ensures bytes { S.tells → (self.old.stopped ≡ Some Next.Finish → S.left source.old ≡ []) →
            Answers (self.old.ahead ++ S.left source.old) (self.new.ahead ++ S.left source.new) self.new.line result }
        ensures ends { S.tells → result ≡ Next.Line →
            EndsLine (self.old.ahead ++ S.left source.old) (self.new.ahead ++ S.left source.new) self.new.line self.new.stopped }
        ensures held { S.tells → S.held source.new ≡ S.held source.old }
        // It reads only as long as no whole line has come.
        ensures reads { S.tells → NotesEach (IsReadFor (self.old.ahead ++ S.left source.old) (S.told source.old)) (S.reads source.old) (S.reads source.new) }

        // Of every source.
        ensures shown { S.told source.new ≡ S.told source.old }
        ensures leaves { Leaves self.new.line self.new.ahead result }
        ensures cause { self.old.stopped ≢ Some Next.ReadFault → NextCause (S.faults source.old) (S.faults source.new) result }
        ensures at_hand { is_at_hand self.old.stopped self.old.ahead ≡ true → (result ≡ Next.Line) × (source.new ≡ source.old) }
        ensures stops { StopsAt result self.new.stopped }
        ensures stays { IfSome self.old.stopped (λ answer. (result ≡ answer) × (source.new ≡ source.old)
            × (self.new ≡ record { line = []; ahead = self.old.ahead; stopped = self.old.stopped })) }
    {
        self.line = 0;
        if let Some(answer) = self.stopped {
            return answer;
        }
        self.window.consume(self.used);
        self.used = 0;
        match self.window.find_line_end(source) {
            Found::LineEnd(place) => {
                self.line = place;
                self.used = place + 1;
                Next::Line
            }
            Found::SourceEnd => {
                self.stopped = Some(Next::Finish);
                match self.window.bytes().len() {
                    0 => Next::Finish,
                    rest => {
                        self.line = rest;
                        self.used = rest;
                        Next::Line
                    }
                }
            }
            Found::TooFar => {
                self.stopped = Some(Next::TooLong);
                Next::TooLong
            }
            Found::Fault => {
                self.stopped = Some(Next::ReadFault);
                Next::ReadFault
            }
        }
    }
}
