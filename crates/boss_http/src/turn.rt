ghost use Rattle.std.specs.Prelude.{◌≡◌, ◌<◌, ◌≤◌, length, drop};
ghost use Rattle.boss_http.specs.Turns.{Turned};

use http1::decode::{Decoded, Decoder};
use httparse::spans::EMPTY_HEADER_SPAN;

/// What is to be done next while a body is read.
#[derive(Clone, Copy, Debug, PartialEq, Eq)]
pub enum Turn {
    /// To go on with the bytes that are left.
    Again,
    /// To receive more bytes.
    More,
    /// Nothing: the body ends with the last byte.
    Whole,
    /// Nothing: this is no body, or bytes are left behind it, or there is no memory for its content.
    Wrong,
}

/// How many fields a section of trailers may have.
const MOST_TRAILERS: usize = 16;

/// Reads a piece of a body, from this place on, and keeps its content.
#[tactic(auto, using(crate::proofs::Bodies::goes_on, crate::proofs::Bodies::goes_on_bare, crate::proofs::Bodies::over))]
pub fn read_piece(
    decoder: &mut Decoder,
    bytes: &[u8],
    at: &mut usize,
    content: &mut Vec<u8>,
) -> Turn
    requires { at.old ≤ length bytes.now }
    ensures within { at.new ≤ length bytes.now }
    ensures on { at.old ≤ at.new }
    ensures again { result ≡ Turn.Again → at.old < at.new }
    ensures turned { Turned result decoder.old (drop at.old bytes.now) content.old.items decoder.new (drop at.new bytes.now) content.new.items }
{
    let mut trailers = [EMPTY_HEADER_SPAN; MOST_TRAILERS];
    let rest = &bytes[*at..];
    match decoder.decode(rest, &mut trailers) {
        Ok(Decoded::NeedMore(len)) => {
            *at += len;
            Turn::More
        }
        Ok(Decoded::Data(piece)) => {
            let Ok(()) = content.extend_from_slice(piece.of(rest)) else {
                return Turn::Wrong;
            };
            *at += piece.end;
            Turn::Again
        }
        Ok(Decoded::End { len, .. }) => {
            if len == rest.len() {
                Turn::Whole
            } else {
                Turn::Wrong
            }
        }
        Err(_) => Turn::Wrong,
    }
}
