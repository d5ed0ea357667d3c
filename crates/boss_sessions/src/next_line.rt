ghost use Rattle.std.specs.Prelude.{◌≡◌, true, ◌∷◌, []};
ghost use Rattle.boss_outside.specs.Notes.{NotesEach};
ghost use Rattle.boss_lines.specs.Lines.{is_at_hand};
ghost use Rattle.boss_sessions.specs.Places.{footing_of, place_of, Advances, IsOpen, IsReadAt, taken_by, StopsFor, SourceStops};

use crate::{Heard, Hearing};
use boss_lines::Next;
use boss_outside::Source;

/// Goes on to the next line, or tells what comes in place of one.
pub(crate) fn next_line<S: Source>(hearing: &mut Hearing, source: &mut S) -> Option<Heard>
    requires ready { IsOpen S.tells (place_of hearing.old (S.left source.old)) }
    ensures advances { Advances S.tells (taken_by hearing.new.reader.line result) (place_of hearing.old (S.left source.old))
        (place_of hearing.new (S.left source.new)) }
    ensures stops { StopsFor S.tells (place_of hearing.new (S.left source.new)) result }
    ensures footing { footing_of hearing.new ≡ footing_of hearing.old }
    ensures held { S.tells → S.held source.new ≡ S.held source.old }
    ensures reads { S.tells → NotesEach (IsReadAt (place_of hearing.old (S.left source.old)) (S.told source.old)) (S.reads source.old) (S.reads source.new) }
    ensures shown { S.told source.new ≡ S.told source.old }
    ensures at_hand { is_at_hand hearing.old.reader.stopped hearing.old.reader.ahead ≡ true → source.new ≡ source.old }
    ensures cause { SourceStops (S.faults source.old) (S.faults source.new) result }
{
    if hearing.lines == 0 {
        return Some(Heard::Limit);
    }
    match hearing.reader.next(source) {
        Next::Line => {
            hearing.lines -= 1;
            None
        }
        Next::Finish => Some(Heard::Finish),
        Next::TooLong => Some(Heard::TooLong),
        Next::ReadFault => Some(Heard::ReadFault),
    }
}
