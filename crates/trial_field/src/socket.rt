//! Devices over a socket of this machine. Their host is a stub in a second thread.

use crate::datagrams::part_over_bacnet;
use crate::plant::{DAMPER, LAMP, part, part_of_two_units};
use boss_field::{FieldDevices, RealLink};
use boss_modbus::{Fate, ModbusDevice};
use boss_model::PointId;
use boss_outside::Actuators;
use std::alloc::Global;
use std::io::{self, Read, Write};
use std::net::{Net, TcpListener, TcpStream, UdpSocket};
use std::test::Fail;
use std::thread::{self, Threads};

/// Takes a connection, sends back the frame that it reads, and ends the connection.
fn echo_once(listener: &TcpListener) -> io::Result<()> {
    let (mut stream, _) = listener.accept()?;
    let mut frame = [0; 12];
    stream.read_exact(&mut frame)?;
    stream.write_all(&frame)
}

/// Whether the lamp was turned on while the stub echoed one frame.
fn turn_on<R: Threads, A: Actuators>(rt: &R, listener: &TcpListener, devices: &mut A) -> bool {
    let (echoed, answer) = thread::join(
        rt,
        move || echo_once(listener),
        move || devices.write(LAMP, 1),
    );
    echoed.is_ok() && answer.is_ok()
}

/// Assigns the devices their points at this listener.
fn assign_to<A: Actuators>(
    alloc: Global,
    listener: &TcpListener,
    devices: &mut A,
) -> Result<(), Fail> {
    let host = format!(in alloc; "{}", listener.local_addr()?)?;
    devices.assign(part(alloc, host.as_bytes())?);
    Ok(())
}

#[test]
fn a_device_on_a_socket_takes_writes(rt: HostRuntime) -> Result<(), Fail> {
    let listener = TcpListener::bind(&rt, "127.0.0.1:0")?;
    let mut device = ModbusDevice::new(rt.alloc(), RealLink::new(&rt, 5_000));
    assign_to(rt.alloc(), &listener, &mut device)?;
    assert!(&rt; turn_on(&rt, &listener, &mut device));
    assert_eq!(rt; device.fate(), Fate::Taken);
    // The stub has ended that connection by now. The second write is made by a new one.
    assert!(&rt; turn_on(&rt, &listener, &mut device));
    assert_eq!(rt; device.fate(), Fate::Taken);
    Ok(())
}

#[test]
fn devices_are_simulated_until_they_are_assigned(rt: HostRuntime) -> Result<(), Fail> {
    let listener = TcpListener::bind(&rt, "127.0.0.1:0")?;
    let mut devices = FieldDevices::new(rt.alloc(), &rt).expect(&rt, "memory");
    assert!(&rt; devices.write(LAMP, 1).is_ok());
    assign_to(rt.alloc(), &listener, &mut devices)?;
    assert!(&rt; turn_on(&rt, &listener, &mut devices));
    // Nothing listens there any more.
    drop(listener);
    assert!(&rt; devices.write(LAMP, 1).is_err());
    Ok(())
}

/// Hears a datagram, and acknowledges its exchange behind two datagrams that are no answer to it.
fn acknowledge_once(socket: &UdpSocket) -> io::Result<()> {
    let mut request = [0; 64];
    let (_, from) = socket.recv_from(&mut request)?;
    let id = request[8];
    socket.send_to(b"hello", from)?;
    socket.send_to(
        &[0x81, 0x0a, 0, 9, 1, 0, 0x20, id.wrapping_sub(1), 0x0f],
        from,
    )?;
    socket.send_to(&[0x81, 0x0a, 0, 9, 1, 0, 0x20, id, 0x0f], from)?;
    Ok(())
}

/// Whether the damper was set while the stub acknowledged one datagram.
fn set_damper<R: Threads, A: Actuators>(rt: &R, socket: &UdpSocket, devices: &mut A) -> bool {
    let (heard, answer) = thread::join(
        rt,
        move || acknowledge_once(socket),
        move || devices.write(DAMPER, 45_000),
    );
    heard.is_ok() && answer.is_ok()
}

#[test]
fn devices_behind_a_socket_for_datagrams_take_writes(rt: HostRuntime) -> Result<(), Fail> {
    let alloc = rt.alloc();
    let socket = UdpSocket::bind(&rt, "127.0.0.1:0")?;
    let host = format!(in alloc; "{}", socket.local_addr()?)?;
    let mut devices = FieldDevices::new(alloc, &rt).expect(&rt, "memory");
    devices.assign(part_over_bacnet(alloc, host.as_bytes())?);
    assert!(&rt; set_damper(&rt, &socket, &mut devices));
    assert!(&rt; set_damper(&rt, &socket, &mut devices));
    // Nobody hears what is sent there, and then nobody is there.
    assert!(&rt; devices.write(DAMPER, 45_000).is_err());
    drop(socket);
    assert!(&rt; devices.write(DAMPER, 45_000).is_err());
    Ok(())
}

/// Echoes what unit 1 is asked over one connection, and nothing else. How many frames came, at most eight.
fn echo_unit_one(stream: &mut TcpStream) -> u32 {
    let mut frame = [0; 12];
    for count in 0..8 {
        if stream.read_exact(&mut frame).is_err() {
            return count;
        }
        if frame[6] == 1 {
            let _ = stream.write_all(&frame);
        }
    }
    8
}

/// Serves two connections, one after another. How many frames came over each.
fn serve_two(listener: &TcpListener) -> io::Result<(u32, u32)> {
    let (mut first, _) = listener.accept()?;
    let before = echo_unit_one(&mut first);
    let (mut second, _) = listener.accept()?;
    Ok((before, echo_unit_one(&mut second)))
}

/// Whether each write of these points came to what is said beside it.
fn write_each<A: Actuators>(devices: &mut A, writes: &[(PointId, bool)]) -> bool {
    writes.iter().all(|(point, is_taken)| devices.write(*point, 1).is_ok() == *is_taken)
}

#[test]
fn a_silent_unit_is_left_alone_and_the_connection_kept(rt: HostRuntime) -> Result<(), Fail> {
    let listener = TcpListener::bind(&rt, "127.0.0.1:0")?;
    let alloc = rt.alloc();
    let host = format!(in alloc; "{}", listener.local_addr()?)?;
    let mut devices = FieldDevices::new(alloc, &rt).expect(&rt, "memory");
    devices.assign(part_of_two_units(alloc, host.as_bytes())?);
    // Unit 2 is asked once, and that ends the connection. It is not asked the second time, and the next write goes over the same one.
    let writes = [
        (LAMP, true),
        (DAMPER, false),
        (LAMP, true),
        (DAMPER, false),
        (LAMP, true),
    ];
    let (frames, as_told) = thread::join(
        &rt,
        || serve_two(&listener),
        move || write_each(&mut devices, &writes),
    );
    assert!(&rt; as_told);
    assert_eq!(rt; frames?, (2, 2));
    Ok(())
}
