//! A task that talks to a server as several clients, one after another.

use boss_outside_server::Task;
use std::io;
use std::io::{Read, Write};
use std::net::{Net, Shutdown, SocketAddr, TcpListener, TcpStream};

/// Five clients, each of which sends a text of its own and reads until the server closes.
#[derive(Drop)]
pub struct Clients<R> {
    pub net: R,
    pub address: SocketAddr,
    /// How many of them read what they had sent.
    pub answered: u32,
}

/// Whether the server writes back what it is sent.
fn is_answered<R: Net<Listener = TcpListener, Stream = TcpStream>>(
    net: &R,
    address: SocketAddr,
    number: u8,
) -> io::Result<bool> {
    let text = [number; 40];
    let mut stream = TcpStream::connect(net, address)?;
    stream.write_all(&text)?;
    stream.shutdown(Shutdown::Write)?;
    let mut answer = [0; 40];
    stream.read_exact(&mut answer)?;
    let mut more = [0; 1];
    Ok(answer == text && stream.read(&mut more)? == 0)
}

impl<R: Net<Listener = TcpListener, Stream = TcpStream> + Drop> Task for Clients<R> {
    ghost ready = { λ task. Unit {0} };

    ghost ran = { λ old new. Unit {0} };

    ghost abandoned = { λ old new. Unit {0} };

    fn run(&mut self) {
        for number in 0..5 {
            if is_answered(&self.net, self.address, number).unwrap_or(false) {
                self.answered = self.answered.saturating_add(1);
            }
        }
    }

    fn abandon(&mut self) {}
}
