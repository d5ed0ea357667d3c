//! What is told of a server, as lines.

use boss_model::SessionId;
use std::process::Abort;

/// Puts these bytes at the end of a text; where they are none, that they are not.
pub fn put(rt: &impl Abort, text: &mut String, bytes: &[u8]) {
    let bytes = str::from_utf8(bytes).unwrap_or("not a text");
    text.push_str(bytes).expect(rt, "memory");
}

/// Compares texts.
pub fn expect_text(rt: &impl Abort, told: &str, wanted: &str, shows: &str) {
    assert_eq!(rt; told, wanted, "{shows}");
}

/// Puts a number behind a word.
pub fn put_number(rt: &impl Abort, text: &mut String, word: &str, number: u64) {
    text.push_str(word).expect(rt, "memory");
    let mut digits = itoa::Buffer::new();
    text.push_str(digits.format(number)).expect(rt, "memory");
}

/// Tells what went out on the connection of this session.
pub fn tell_talk(rt: &impl Abort, text: &mut String, session: SessionId, taken: &[u8]) {
    put_number(rt, text, "session ", session.0);
    put(rt, text, b"\n");
    put(rt, text, taken);
}

/// Tells what a server put out, and its status.
pub fn tell_end(rt: &impl Abort, text: &mut String, taken: &[u8], status: u8) {
    put(rt, text, taken);
    put_number(rt, text, "status ", u64::from(status));
    put(rt, text, b"\n");
}
