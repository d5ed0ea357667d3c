ghost use Rattle.std.specs.Prelude.{◌≡◌, ℕ, Bool, true, List, ◌++◌, Option};
ghost use Rattle.std.specs.Int.{w16, w32, w64};
ghost use Rattle.def_bytes.specs.Exact.{IsExact, IsExactKinds, Undoes};
ghost use Rattle.def_bytes.specs.Fields.{Field, Variants, both, byte, counted, made_of, number, only, tagged};

/// What is exact has one spelling, and no spelling begins another: so what was written is read again, whatever follows it.
pub fn a_field_has_one_spelling<X>()
    ensures { (f : Field X) → IsExact f → (x y : X) (a b : List ℕ) → f.fits x ≡ true → f.fits y ≡ true →
        f.text x ++ a ≡ f.text y ++ b → (x ≡ y) × (a ≡ b) }
{}

/// Numbers and bytes are exact, and what is put together from exact fields is exact.
pub fn fields_are_exact<X, Y>()
    ensures numbers { IsExact (number w16) × IsExact (number w32) × IsExact (number w64) × IsExact byte }
    ensures both { (f : Field X) (g : Field Y) → IsExact f → IsExact g → IsExact (both f g) }
    ensures only { (test : X → Bool) (f : Field X) → IsExact f → IsExact (only test f) }
    ensures made { (parts : X → Option Y) (made : Y → X) (f : Field Y) → Undoes parts made f → IsExact f →
        IsExact (made_of parts made f) }
    ensures counted { (count : Field ℕ) (limit : ℕ) (f : Field X) → IsExact count → IsExact f →
        IsExact (counted count limit f) }
    ensures tagged { (v : Variants X) → IsExactKinds v → IsExact (tagged v) }
{}
