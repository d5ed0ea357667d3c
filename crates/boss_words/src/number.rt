ghost use Rattle.std.specs.Prelude.{◌≡◌, ◌≤◌, IfSome};
ghost use Rattle.std.specs.Char.{is_ascii_digit};
ghost use Rattle.std.specs.List.{list_all};
ghost use Rattle.boss_words.specs.Words.{event_number_of, is_event_number, is_number, number_of};

/// Numbers of events are below this.
const EVENT_NUMBERS: u64 = 1 << 62;

/// The number that 1 to 10 decimal digits spell, if it lies within these bounds. A sign is no digit.
pub(crate) fn number(text: &str, least: u32, most: u32) -> Option<u32>
    ensures number { result ≡ number_of least most text.now }
    ensures bounds { IfSome result (λ number. (least ≤ number) × (number ≤ most)) }
{
    if !is_number(text) {
        return None;
    }
    match text.parse::<u32>() {
        Ok(number) if least <= number && number <= most => Some(number),
        Ok(_) => None,
        Err(_) => None,
    }
}

/// Whether the text is 1 to 10 decimal digits.
fn is_number(text: &str) -> bool
    ensures { result ≡ is_number text.now }
{
    match text.len() {
        1..=10 => all_digits(text),
        _ => false,
    }
}

/// The number of an event that 1 to 19 decimal digits spell, if it is below 2^62. A sign is no digit.
pub(crate) fn event_number(text: &str) -> Option<u64>
    ensures { result ≡ event_number_of text.now }
{
    if !is_event_number(text) {
        return None;
    }
    match text.parse::<u64>() {
        Ok(number) if number < EVENT_NUMBERS => Some(number),
        Ok(_) => None,
        Err(_) => None,
    }
}

/// Whether the text is 1 to 19 decimal digits.
fn is_event_number(text: &str) -> bool
    ensures { result ≡ is_event_number text.now }
{
    match text.len() {
        1..=19 => all_digits(text),
        _ => false,
    }
}

/// Whether the text is decimal digits alone.
fn all_digits(text: &str) -> bool
    ensures { result ≡ list_all is_ascii_digit text.now }
{
    text.as_bytes().iter().all(|byte| byte.is_ascii_digit())
}
