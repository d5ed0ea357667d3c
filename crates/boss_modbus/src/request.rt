ghost use Rattle.std.specs.Prelude.{◌≡◌, ◌≤◌};
ghost use Rattle.boss_modbus.specs.Frames.{count, function_code, is_check};

use boss_numbers::Words;

/// What a unit is asked (MODBUS Application Protocol 1.1b3, sections 6.1, 6.3, 6.5, 6.6, 6.11 and 6.12): to write, or what it has, which is
/// then compared with what it is to have.
#[derive(Clone, Copy, Debug, PartialEq, Eq)]
pub enum Request {
    WriteCoil { address: u16, on: bool },
    WriteRegister { address: u16, word: u16 },
    /// One coil, by the function that writes several.
    WriteCoils { address: u16, on: bool },
    WriteRegisters { address: u16, words: Words },
    CheckCoil { address: u16, on: bool },
    CheckRegisters { address: u16, words: Words },
}

/// A request, and the unit that it is for.
#[derive(Clone, Copy, Debug, PartialEq, Eq)]
pub struct Asked {
    pub unit: u8,
    pub request: Request,
}

/// The number of the function.
pub(crate) fn function_code(request: Request) -> u8
    ensures number { result ≡ function_code request }
    ensures small { result ≤ 16 }
{
    match request {
        Request::WriteCoil { .. } => 5,
        Request::WriteRegister { .. } => 6,
        Request::WriteCoils { .. } => 15,
        Request::WriteRegisters { .. } => 16,
        Request::CheckCoil { .. } => 1,
        Request::CheckRegisters { .. } => 3,
    }
}

/// Whether it is asked what it has.
pub(crate) fn is_check(request: Request) -> bool
    ensures { result ≡ is_check request }
{
    match request {
        Request::CheckCoil { .. } | Request::CheckRegisters { .. } => true,
        Request::WriteCoil { .. }
        | Request::WriteRegister { .. }
        | Request::WriteCoils { .. }
        | Request::WriteRegisters { .. } => false,
    }
}

/// How many registers there are.
pub(crate) fn count(words: Words) -> u8
    ensures value { result ≡ count words }
    ensures small { result ≤ 2 }
{
    match words {
        Words::One { .. } => 1,
        Words::Two { .. } => 2,
    }
}
