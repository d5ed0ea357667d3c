ghost use Rattle.std.specs.Prelude.{◌≡◌, ◌+◌, ◌≤◌, ◌++◌, ◌∷◌, [], length};
ghost use Rattle.boss_bacnet.specs.Frames.{address, datagram, frame, from_whom, kind_code, parameters, property_bytes, read_ack, read_head, request, service, simple_ack, to_whom, valued, value_bytes};

use crate::asked::{Asked, Value, What};
use arrayvec::ArrayVec;
use boss_model::{Object, ObjectKind, Station};

/// The bytes of a datagram that is sent, of which there are at most 31, or those of an answer that is expected.
pub type Frame = ArrayVec<u8, 32>;

/// The greatest instance of an object.
pub const LAST_INSTANCE: u32 = 4_194_302;

/// The number of a type of object.
fn kind_code(kind: ObjectKind) -> u32
    ensures number { result ≡ kind_code kind }
    ensures small { result ≤ 19 }
{
    match kind {
        ObjectKind::AnalogOutput => 1,
        ObjectKind::AnalogValue => 2,
        ObjectKind::BinaryOutput => 4,
        ObjectKind::BinaryValue => 5,
        ObjectKind::MultiStateOutput => 14,
        ObjectKind::MultiStateValue => 19,
    }
}

/// The datagram that asks, under an invoke id.
pub fn frame(id: u8, asked: &Asked) -> Frame
    requires { asked.now.object.instance ≤ 4194302 }
    ensures { result.items ≡ frame id asked.now }
{
    let mut message = Frame::new();
    put_receiver(&mut message, asked.remote);
    put_request(&mut message, id, asked);
    let size = 4 + message.len() as u16;
    let mut frame = Frame::new();
    put(&mut frame, &[0x81, 0x0a]);
    put(&mut frame, &size.to_be_bytes());
    put(&mut frame, message.as_slice());
    frame
}

/// Puts bytes behind those of a frame, for which there is room.
pub fn put(frame: &mut Frame, bytes: &[u8])
    requires { length frame.old.items + length bytes.now ≤ 32 }
    ensures { frame.new.items ≡ frame.old.items ++ bytes.now }
{
    let put = frame.try_extend_from_slice(bytes);
    let Ok(()) = put else { unreachable!() };
}

/// The network layer of a request.
fn put_receiver(frame: &mut Frame, remote: Option<Station>)
    requires { frame.old.items ≡ [] }
    ensures bytes { frame.new.items ≡ to_whom remote }
    ensures short { length frame.new.items ≤ 7 }
{
    match remote {
        None => put(frame, &[1, 0x04]),
        Some(Station { network, address }) => {
            let [high, low] = network.to_be_bytes();
            put(frame, &[1, 0x24, high, low, 1, address, 0xff]);
        }
    }
}

/// The application layer of a request.
fn put_request(frame: &mut Frame, id: u8, asked: &Asked)
    requires instance { asked.now.object.instance ≤ 4194302 }
    requires room { length frame.old.items ≤ 7 }
    ensures bytes { frame.new.items ≡ frame.old.items ++ request id asked.now }
    ensures short { length frame.new.items ≤ 28 }
{
    match asked.what {
        What::Write { value, level } => {
            put(frame, &[0, 3, id, 15]);
            put_property(frame, &asked.object);
            put_value(frame, value);
            put(frame, &[0x49, level]);
        }
        What::Check { .. } => {
            put(frame, &[0, 3, id, 12]);
            put_property(frame, &asked.object);
        }
    }
}

/// Present_Value of an object.
fn put_property(frame: &mut Frame, object: &Object)
    requires instance { object.now.instance ≤ 4194302 }
    requires room { length frame.old.items ≤ 20 }
    ensures bytes { frame.new.items ≡ frame.old.items ++ property_bytes object.now }
    ensures long { length frame.new.items ≡ length frame.old.items + 7 }
{
    let number = kind_code(object.kind) * 0x40_0000 + object.instance;
    let [b3, b2, b1, b0] = number.to_be_bytes();
    put(frame, &[0x0c, b3, b2, b1, b0, 0x19, 85]);
}

/// A value between its tags.
fn put_value(frame: &mut Frame, value: Value)
    requires room { length frame.old.items ≤ 20 }
    ensures bytes { frame.new.items ≡ frame.old.items ++ valued value }
    ensures short { length frame.new.items ≤ length frame.old.items + 7 }
{
    match value {
        Value::Real { bits } => {
            let [b3, b2, b1, b0] = bits.to_be_bytes();
            put(frame, &[0x3e, 0x44, b3, b2, b1, b0, 0x3f]);
        }
        Value::Enumerated { state } => put(frame, &[0x3e, 0x91, state, 0x3f]),
        Value::Unsigned { state } => put(frame, &[0x3e, 0x21, state, 0x3f]),
    }
}

/// The application layer of an answer that has this value.
pub fn read_ack(id: u8, object: &Object, value: Value) -> Frame
    requires { object.now.instance ≤ 4194302 }
    ensures { result.items ≡ read_ack id object.now value }
{
    let mut frame = read_head(id, object);
    put_value(&mut frame, value);
    frame
}

/// That of one that has some value, up to it.
pub fn read_head(id: u8, object: &Object) -> Frame
    requires { object.now.instance ≤ 4194302 }
    ensures bytes { result.items ≡ read_head id object.now }
    ensures short { length result.items ≤ 10 }
{
    let mut frame = Frame::new();
    put(&mut frame, &[0x30, id, 12]);
    put_property(&mut frame, object);
    frame
}
