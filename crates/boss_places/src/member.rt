ghost use Rattle.std.specs.Prelude.{◌≡◌};
ghost use Rattle.std.specs.List.{list_all};
ghost use Rattle.boss_places.specs.Words.{is_address, is_address_byte, is_behind, is_bracketed, is_host, is_host_byte, is_member, is_plain};

use crate::cutting::cut_at;
use crate::port::is_port;

/// Whether these bytes are a member: a host and a port.
pub fn is_member(text: &[u8]) -> bool
    ensures { result ≡ is_member text.now }
{
    match text {
        [b'[', address @ ..] => is_bracketed(address),
        _ => is_plain(text),
    }
}

/// Whether these bytes are a name or an address of version 4, and behind a colon a port.
fn is_plain(text: &[u8]) -> bool
    ensures { result ≡ is_plain text.now }
{
    match cut_at(text, b':') {
        Some((host, port)) => is_host(host) && is_port(port),
        None => false,
    }
}

/// Whether these bytes are an address of version 6, and behind a bracket and a colon a port.
fn is_bracketed(text: &[u8]) -> bool
    ensures { result ≡ is_bracketed text.now }
{
    match cut_at(text, b']') {
        Some((address, behind)) => is_address(address) && is_behind(behind),
        None => false,
    }
}

/// Whether these bytes are a colon and a port.
fn is_behind(text: &[u8]) -> bool
    ensures { result ≡ is_behind text.now }
{
    match text {
        [b':', port @ ..] => is_port(port),
        _ => false,
    }
}

/// Whether these bytes are 1 to 253 of `A-Z a-z 0-9 . _ -`.
fn is_host(text: &[u8]) -> bool
    ensures { result ≡ is_host text.now }
{
    match text.len() {
        1..=253 => all_host_bytes(text),
        _ => false,
    }
}

/// Whether these bytes are 1 to 45 of `0-9 A-F a-f : .`.
fn is_address(text: &[u8]) -> bool
    ensures { result ≡ is_address text.now }
{
    match text.len() {
        1..=45 => all_address_bytes(text),
        _ => false,
    }
}

/// Whether each of these bytes is a letter, a digit, or one of `. _ -`.
pub fn all_host_bytes(text: &[u8]) -> bool
    ensures { result ≡ list_all is_host_byte text.now }
{
    text.iter().all(|byte| is_host_byte(*byte))
}

/// Whether each of these bytes is a digit in base 16, or one of `: .`.
fn all_address_bytes(text: &[u8]) -> bool
    ensures { result ≡ list_all is_address_byte text.now }
{
    text.iter().all(|byte| is_address_byte(*byte))
}

/// A letter, a digit, or one of `. _ -`.
fn is_host_byte(byte: u8) -> bool
    ensures { result ≡ is_host_byte byte }
{
    byte.is_ascii_alphanumeric() || byte == b'.' || byte == b'_' || byte == b'-'
}

/// A digit in base 16, or one of `: .`.
fn is_address_byte(byte: u8) -> bool
    ensures { result ≡ is_address_byte byte }
{
    byte.is_ascii_hexdigit() || byte == b':' || byte == b'.'
}
