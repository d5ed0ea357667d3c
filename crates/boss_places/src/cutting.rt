ghost use Rattle.std.specs.Prelude.{◌≡◌, ◌<◌, length, nat_eq, position, option_map, IfSome};
ghost use Rattle.boss_places.specs.Words.{cut_at};

/// What stands before and behind the first of these bytes.
pub fn cut_at(text: &[u8], byte: u8) -> Option<(&[u8], &[u8])>
    ensures { option_map (λ parts. (parts.0.now, parts.1.now)) result ≡ cut_at byte text.now }
{
    match place_of(text, byte) {
        Some(place) => Some((&text[..place], &text[place + 1..])),
        None => None,
    }
}

/// The place of the first of these bytes.
fn place_of(text: &[u8], byte: u8) -> Option<usize>
    ensures place { result ≡ position (λ other. nat_eq other byte) text.now }
    ensures inside { IfSome result (λ place. place < length text.now) }
{
    text.iter().position(|other| *other == byte)
}
