ghost use Rattle.std.specs.Prelude.{◌≡◌};
ghost use Rattle.boss_model.specs.Lines.{is_blank};

/// Whether a line has nothing but tabs, carriage returns and spaces.
pub fn is_blank(line: &[u8]) -> bool
    ensures { result ≡ is_blank line.now }
{
    line.iter().all(|byte| matches!(byte, b'\t' | b'\r' | b' '))
}
