ghost use Rattle.std.specs.Prelude.{◌≡◌, map, option_copied, option_map};
ghost use Rattle.serde_json.specs.Data.{Data};
ghost use Rattle.serde_json.specs.Find.{as_str, get};
ghost use Rattle.def_wire.specs.Keys.{list, whole};

/// A value of JSON, as far as requests look into one. What it means is the value that serde_json reads.
pub trait JsonValue: Sized {
    ghost meaning: { Self → Data };

    /// What stands under a key of an object; of equal keys the last counts.
    fn under(&self, key: &str) -> Option<&Self>
        ensures { option_map (λ value. meaning value.now) result ≡ get key.now (meaning self.now) };

    /// The bytes of the text, if this is one.
    fn text(&self) -> Option<&[u8]>
        ensures { option_copied result ≡ as_str (meaning self.now) };

    /// The number, if this is a whole one that fits 64 bits with a sign; a fraction, an exponent and `-0` are none.
    fn whole(&self) -> Option<i64>
        ensures { result ≡ whole (meaning self.now) };

    /// The items of an array.
    fn list(&self) -> Option<&[Self]>
        ensures { option_map (λ items. map meaning items.now) result ≡ list (meaning self.now) };
}
