ghost use Rattle.std.specs.Prelude.{◌≡◌, ◌≤◌, true, length};
ghost use Rattle.std.specs.Char.{is_ascii_digit};
ghost use Rattle.std.specs.List.{list_all};
ghost use Rattle.std.specs.Str.Parse.{digits_value};
ghost use Rattle.boss_places.specs.Words.{is_number, is_port};

use std::str;

/// Whether these bytes are a port: 1 to 65,535 in decimal, with no zero in front.
pub fn is_port(text: &[u8]) -> bool
    ensures { result ≡ is_port text.now }
{
    if !is_number(text) {
        return false;
    }
    is_low(text)
}

/// Whether these bytes are 1 to 5 decimal digits, of which the first is no zero.
fn is_number(text: &[u8]) -> bool
    ensures { result ≡ is_number text.now }
{
    match text.len() {
        1..=5 => text[0] != b'0' && all_digits(text),
        _ => false,
    }
}

/// Whether these bytes are decimal digits alone.
fn all_digits(text: &[u8]) -> bool
    ensures { result ≡ list_all is_ascii_digit text.now }
{
    text.iter().all(|byte| byte.is_ascii_digit())
}

/// Whether these digits are at most 65,535.
fn is_low(digits: &[u8]) -> bool
    requires { is_number digits.now ≡ true }
    ensures { result ≡ is_port digits.now }
{
    let Ok(text) = str::from_utf8(digits) else {
        return false;
    };
    text.parse::<u16>().is_ok()
}
