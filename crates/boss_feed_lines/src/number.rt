ghost use Rattle.boss_feed_lines.specs.Told.{TellsNumber};

use itoa::Buffer;

/// The number that these bytes are in decimal: no sign, no zero before it, and below 2^64. None exactly where they are no such
/// number's.
pub(crate) fn number_of(text: &[u8]) -> Option<u64>
    ensures { TellsNumber text.now result }
{
    match str::from_utf8(text) {
        Ok(text) => number_in(text),
        Err(_) => None,
    }
}

/// The same of a text. What the text reads as is written again, and compared with it.
fn number_in(text: &str) -> Option<u64>
    ensures { TellsNumber text.now result }
{
    match text.parse::<u64>() {
        Ok(number) => {
            if Buffer::new().format(number) == text {
                Some(number)
            } else {
                None
            }
        }
        Err(_) => None,
    }
}
