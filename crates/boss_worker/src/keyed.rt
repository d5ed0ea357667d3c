ghost use Rattle.std.specs.Prelude.{List, Some};
ghost use Rattle.boss_keys.specs.declared.entry.Entry.{Entry as KeyEntry};
ghost use Rattle.boss_model.specs.Catalogue.{Catalogue, actuators};
ghost use Rattle.boss_shared.specs.Gates.{Gate};
ghost use Rattle.boss_worker.specs.Keyed.{AreByKeys};
ghost use Rattle.boss_worker.specs.Saying.{says};
ghost use Rattle.def_history.specs.declared.entry.Entry.{Entry};
ghost use Rattle.def_lanes.specs.Parts.{Agreed};
ghost use Rattle.def_lanes.specs.Works.{Work};

use boss_outside_server::{Host, Waiter};

/// Where there are keys, and the inputs of connections tell their bytes, whoever attaches has shown its key: on each connection all
/// attaches are of one name, and a line of its input shows the key of that name. Where no key was shown, nothing was done.
pub fn whoever_attaches_has_shown_its_key<H: Host, W: Waiter>()
    ensures { (catalogue : Catalogue) (gates : List Gate) (keys : List KeyEntry) (log : List Entry) (works : List Work) → H.In.tells →
        Agreed (actuators catalogue) (says catalogue gates (Some keys) H.In.tells H.Out.tells W.tells) log works → AreByKeys (actuators catalogue) keys log works }
{}
