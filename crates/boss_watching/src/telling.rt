ghost use Rattle.std.specs.Prelude.{◌≡◌, ◌≤◌, true, OnErr};
ghost use Rattle.boss_model.specs.Limits.{answer_room};
ghost use Rattle.std.specs.List.{flat_map, AllByRecursion};
ghost use Rattle.boss_model.specs.Tellable.{IsTellableNotice};
ghost use Rattle.boss_outside.specs.Counts.{HasCause};
ghost use Rattle.boss_outside.specs.Streams.{Writes};
ghost use Rattle.def_connection.specs.Watching.{is_some_list};
ghost use Rattle.boss_watching.specs.Notes.{note_line};

use boss_answers::write_notice;
use boss_model::{Buffer, Notice};
use boss_outside::{Failed, Sink};
use boss_points::Catalogue;

/// Tells notices, each as a line.
pub fn tell_notices<K: Sink>(
    catalogue: &Catalogue,
    notices: &[Notice],
    text: &mut Buffer,
    sink: &mut K,
) -> Result<(), Failed>
    requires room { answer_room ≤ text.old.capacity }
    requires tellable { AllByRecursion (IsTellableNotice catalogue.now) notices.now }
    ensures room { text.new.capacity ≡ text.old.capacity }
    ensures bytes { K.tells → Writes (K.taken sink.old) (K.taken sink.new) (flat_map (note_line catalogue.now) notices.now) result }
    ensures some { OnErr result (is_some_list notices.now ≡ true) }
    ensures cause { HasCause (K.faults sink.old) (K.faults sink.new) result }
{
    for notice in notices {
        match tell_notice(catalogue, notice, text, sink) {
            Ok(()) => {}
            Err(failed) => return Err(failed),
        }
    }
    Ok(())
}

fn tell_notice<K: Sink>(
    catalogue: &Catalogue,
    notice: &Notice,
    text: &mut Buffer,
    sink: &mut K,
) -> Result<(), Failed>
    requires room { answer_room ≤ text.old.capacity }
    requires tellable { IsTellableNotice catalogue.now notice.now }
    ensures room { text.new.capacity ≡ text.old.capacity }
    ensures bytes { K.tells → Writes (K.taken sink.old) (K.taken sink.new) (note_line catalogue.now notice.now) result }
    ensures cause { HasCause (K.faults sink.old) (K.faults sink.new) result }
{
    text.clear();
    write_notice(text, catalogue, notice);
    text.push(b'\n');
    sink.write(text.bytes())
}
