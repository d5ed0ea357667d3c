ghost use Rattle.std.specs.Prelude.{◌↔◌, IsTrue};
ghost use Rattle.def_log.specs.Versions.{IsKnown};

/// The version of a new journal; 1 has no request numbers, and 2 no sums.
pub const NEWEST_VERSION: u8 = 3;

/// Whether a disk of this version is known.
pub fn is_known(version: u8) -> bool
    ensures { IsTrue result ↔ IsKnown version }
{
    1 <= version && version <= NEWEST_VERSION
}
