ghost use Rattle.std.specs.Prelude.{◌≡◌, ◌+◌, ◌≤◌, ◌++◌, [], length};
ghost use Rattle.boss_modbus.specs.Frames.{answer, answer_size, answered_bytes, asked_bytes, exception, frame, header, words_bytes};

use crate::request::{Asked, Request, count, function_code};
use arrayvec::ArrayVec;
use boss_numbers::Words;

/// The bytes of a frame, of which there are at most 17.
pub type Frame = ArrayVec<u8, 17>;

/// The frame that asks, under the number of its transaction.
pub fn frame(number: u16, asked: &Asked) -> Frame
    ensures { result.items ≡ frame number asked.now }
{
    let mut body = Frame::new();
    put_asked(&mut body, asked.request);
    let size = 2 + body.len() as u8;
    let mut frame = Frame::new();
    put(&mut frame, &header(number, size));
    put(&mut frame, &[asked.unit, function_code(asked.request)]);
    put(&mut frame, body.as_slice());
    frame
}

/// The one that answers where the value was written, or where the unit has it.
pub fn answer(number: u16, asked: &Asked) -> Frame
    ensures { result.items ≡ answer number asked.now }
{
    let mut body = Frame::new();
    put_answered(&mut body, asked.request);
    let mut frame = Frame::new();
    put(&mut frame, &header(number, answer_size(asked.request)));
    put(&mut frame, &[asked.unit, function_code(asked.request)]);
    put(&mut frame, body.as_slice());
    frame
}

/// The one that refuses.
pub fn exception(number: u16, asked: &Asked, code: u8) -> [u8; 9]
    ensures { result ≡ exception number asked.now code }
{
    let [n1, n0] = number.to_be_bytes();
    let function = function_code(asked.request) + 128;
    [n1, n0, 0, 0, 0, 3, asked.unit, function, code]
}

/// What a frame begins with: the number of its transaction, and how many bytes follow.
pub fn header(number: u16, size: u8) -> [u8; 6]
    ensures { result ≡ header number size }
{
    let [n1, n0] = number.to_be_bytes();
    [n1, n0, 0, 0, 0, size]
}

/// How many bytes of the answer follow its header.
pub fn answer_size(request: Request) -> u8
    ensures size { result ≡ answer_size request }
    ensures least { 4 ≤ result }
    ensures most { result ≤ 7 }
{
    match request {
        Request::WriteCoil { .. }
        | Request::WriteRegister { .. }
        | Request::WriteCoils { .. }
        | Request::WriteRegisters { .. } => 6,
        Request::CheckCoil { .. } => 4,
        Request::CheckRegisters { words, .. } => 3 + 2 * count(words),
    }
}

/// Behind the unit and the function: what is answered.
fn put_answered(frame: &mut Frame, request: Request)
    requires { frame.old.items ≡ [] }
    ensures bytes { frame.new.items ≡ answered_bytes request }
    ensures short { length frame.new.items ≤ 5 }
{
    match request {
        Request::WriteCoil { address, on } => {
            put(frame, &address.to_be_bytes());
            put(frame, &[if on { 255 } else { 0 }, 0]);
        }
        Request::WriteRegister { address, word } => {
            put(frame, &address.to_be_bytes());
            put(frame, &word.to_be_bytes());
        }
        Request::WriteCoils { address, .. } => {
            put(frame, &address.to_be_bytes());
            put(frame, &[0, 1]);
        }
        Request::WriteRegisters { address, words } => {
            put(frame, &address.to_be_bytes());
            put(frame, &[0, count(words)]);
        }
        Request::CheckCoil { on, .. } => put(frame, &[1, if on { 1 } else { 0 }]),
        Request::CheckRegisters { words, .. } => {
            put(frame, &[2 * count(words)]);
            put_words(frame, words);
        }
    }
}

/// Behind the unit and the function: what is asked.
fn put_asked(frame: &mut Frame, request: Request)
    requires { frame.old.items ≡ [] }
    ensures bytes { frame.new.items ≡ asked_bytes request }
    ensures short { length frame.new.items ≤ 9 }
{
    match request {
        Request::WriteCoil { address, on } => {
            put(frame, &address.to_be_bytes());
            put(frame, &[if on { 255 } else { 0 }, 0]);
        }
        Request::WriteRegister { address, word } => {
            put(frame, &address.to_be_bytes());
            put(frame, &word.to_be_bytes());
        }
        Request::WriteCoils { address, on } => {
            put(frame, &address.to_be_bytes());
            put(frame, &[0, 1, 1, if on { 1 } else { 0 }]);
        }
        Request::WriteRegisters { address, words } => {
            put(frame, &address.to_be_bytes());
            put(frame, &[0, count(words), 2 * count(words)]);
            put_words(frame, words);
        }
        Request::CheckCoil { address, .. } => {
            put(frame, &address.to_be_bytes());
            put(frame, &[0, 1]);
        }
        Request::CheckRegisters { address, words } => {
            put(frame, &address.to_be_bytes());
            put(frame, &[0, count(words)]);
        }
    }
}

fn put_words(frame: &mut Frame, words: Words)
    requires { length frame.old.items ≤ 5 }
    ensures bytes { frame.new.items ≡ frame.old.items ++ words_bytes words }
    ensures short { length frame.new.items ≤ length frame.old.items + 4 }
{
    match words {
        Words::One { word } => put(frame, &word.to_be_bytes()),
        Words::Two { first, second } => {
            put(frame, &first.to_be_bytes());
            put(frame, &second.to_be_bytes());
        }
    }
}

/// Puts bytes, for which there is room.
fn put(frame: &mut Frame, bytes: &[u8])
    requires { length frame.old.items + length bytes.now ≤ 17 }
    ensures { frame.new.items ≡ frame.old.items ++ bytes.now }
{
    let put = frame.try_extend_from_slice(bytes);
    let Ok(()) = put else { unreachable!() };
}
