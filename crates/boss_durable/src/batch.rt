ghost use Rattle.std.specs.Prelude.{◌≡◌, ◌≢◌, ◌+◌, ◌≤◌, ◌<◌, true, [], ◌++◌, length, Some};
ghost use Rattle.boss_model.specs.Limits.{most_held};
ghost use Rattle.def_bytes.specs.Batches.{batch_text};
ghost use Rattle.def_bytes.specs.Events.{event};
ghost use Rattle.def_history.specs.History.{if_event};
ghost use Rattle.boss_model.specs.declared.event.Effect.TheVariants.{Unchanged};
ghost use Rattle.boss_model.specs.declared.event.Event.{Event};
ghost use Rattle.boss_model.specs.Effects.{event_of};

use boss_model::{Buffer, Command, Effect};
use boss_writing::write_event;

/// The events of one call, as the bytes of the record that they become.
#[derive(Drop)]
pub struct Batch {
    pub(crate) bytes: Buffer,
    pub(crate) events: u64,
}

impl Batch {
    /// Takes all events out. The room stays.
    pub fn clear(&mut self)
        ensures { self.new ≡ record self.old { bytes = record self.old.bytes { bytes = [] }; events = 0 } }
    {
        self.bytes.clear();
        self.events = 0;
    }

    /// Puts the event of a step behind the others. A step that changed nothing that outlasts a stop has none.
    pub fn put(&mut self, command: &Command, effect: &Effect)
        requires fits { (e : Event) → event_of command.now effect.now ≡ Some e → event.fits e ≡ true }
        requires room { length self.old.bytes.bytes + 4096 ≤ self.old.bytes.capacity }
        requires few { self.old.events < most_held }
        ensures bytes { self.new.bytes ≡ record self.old.bytes { bytes = self.old.bytes.bytes ++ batch_text (if_event (event_of command.now effect.now) []) } }
        ensures events { self.new.events ≡ self.old.events + length (if_event (event_of command.now effect.now) []) }
    {
        if *effect != Effect::Unchanged {
            self.put_event(command, effect);
        }
    }

    /// The same of a step that has an event.
    fn put_event(&mut self, command: &Command, effect: &Effect)
        requires changed { effect.now ≢ Unchanged }
        requires fits { (e : Event) → event_of command.now effect.now ≡ Some e → event.fits e ≡ true }
        requires room { length self.old.bytes.bytes + 4096 ≤ self.old.bytes.capacity }
        requires few { self.old.events < most_held }
        ensures bytes { self.new.bytes ≡ record self.old.bytes { bytes = self.old.bytes.bytes ++ batch_text (if_event (event_of command.now effect.now) []) } }
        ensures events { self.new.events ≡ self.old.events + length (if_event (event_of command.now effect.now) []) }
    {
        write_event(&mut self.bytes, command, effect);
        self.events += 1;
    }
}
