//! How the system finds out that a peer of a connection is gone.

ghost use Rattle.libc.specs.Net.{SockOption};

use std::net::TcpListener;
use std::os::fd::AsRawFd;

// Levels and options of sockets, by Linux's numbers.
const SOL_SOCKET: i32 = 1;

const SO_KEEPALIVE: i32 = 9;

const IPPROTO_TCP: i32 = 6;

const TCP_KEEPIDLE: i32 = 4;

const TCP_KEEPINTVL: i32 = 5;

const TCP_KEEPCNT: i32 = 6;

const TCP_USER_TIMEOUT: i32 = 18;

/// How long a connection is silent before its peer is asked whether it is there, in seconds.
const IDLE: u32 = 60;

/// How long it is waited for the answer, in seconds.
const INTERVAL: u32 = 20;

/// How often a peer is asked before it counts as gone.
const PROBES: u32 = 3;

/// How long bytes may be under way before a peer that confirms none counts as gone, in milliseconds.
const UNCONFIRMED: u32 = 120_000;

/// Has the system find out when the peer of a connection is gone, as by a loss of its power or a cut cable: after two minutes, whether it
/// was silent or a reply was on its way to it. What the listener accepts from now on has this from it. Where the system does not take an
/// option, peers are found gone later, or not.
pub fn keep_alive(listener: &TcpListener) {
    set(listener, SOL_SOCKET, SO_KEEPALIVE, 1);
    set(listener, IPPROTO_TCP, TCP_KEEPIDLE, IDLE);
    set(listener, IPPROTO_TCP, TCP_KEEPINTVL, INTERVAL);
    set(listener, IPPROTO_TCP, TCP_KEEPCNT, PROBES);
    set(listener, IPPROTO_TCP, TCP_USER_TIMEOUT, UNCONFIRMED);
}

/// Sets an option of a listener.
fn set(listener: &TcpListener, level: i32, option: i32, number: u32)
    requires { SockOption level option }
{
    // What the call asks for is proved here as everywhere.
    unsafe { libc::net::setsockopt(listener.as_raw_fd(), level, option, &value(number), 4) };
}

/// A number as the system takes it.
fn value(number: u32) -> [u8; 16] {
    let mut bytes = [0; 16];
    for (place, byte) in number.to_le_bytes().iter().enumerate() {
        bytes[place] = *byte;
    }
    bytes
}
