ghost use Rattle.std.specs.Prelude.{◌≡◌};
ghost use Rattle.boss_modbus.specs.Fates.{goes_on};

/// What came of what a device was asked last.
#[derive(Clone, Copy, Debug, PartialEq, Eq)]
pub enum Fate {
    /// Nothing was asked yet.
    None,
    /// The device answered that it wrote the value.
    Taken,
    /// The device has the value that it was to have.
    Has,
    /// It has another one.
    HasOther,
    /// The device refused, with this code (MODBUS Application Protocol 1.1b3, section 7).
    Exception { code: u8 },
    /// What was received is no response to what was asked.
    Wrong,
    /// The connection ended before a whole response.
    Ended,
    /// The host could not be reached, or the link failed before a whole response.
    LinkFault,
    /// The point has no place in the device, or the value no form there. Nothing was sent.
    NoPlace,
}

/// Whether the connection is kept for what is asked next.
pub(crate) fn goes_on(fate: Fate) -> bool
    ensures { result ≡ goes_on fate }
{
    match fate {
        Fate::Taken | Fate::Has | Fate::HasOther | Fate::Exception { .. } => true,
        Fate::None | Fate::Wrong | Fate::Ended | Fate::LinkFault | Fate::NoPlace => false,
    }
}
