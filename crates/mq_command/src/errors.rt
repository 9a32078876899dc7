//! Where it is said why something isn't done.

use std::io;
use std::io::Write;
use std::net::SocketAddr;

/// Where it is said why something isn't done, and of which server.
pub trait Errors: Write {
    /// The server that is asked, where one is named.
    fn server(&self) -> Option<SocketAddr> {
        None
    }
}

impl Errors for Vec<u8> {}

/// Where it is said why a server didn't do something.
#[derive(Drop)]
pub struct ServerErrors<'a, E> {
    errors: &'a mut E,
    server: SocketAddr,
}

impl<'a, E: Write> ServerErrors<'a, E> {
    /// What is said of this server goes to `errors`.
    pub fn new(errors: &'a mut E, server: SocketAddr) -> ServerErrors<'a, E> {
        ServerErrors { errors, server }
    }
}

impl<E: Write> Write for ServerErrors<'_, E> {
    fn write(&mut self, buf: &[u8]) -> io::Result<usize> {
        self.errors.write(buf)
    }

    fn flush(&mut self) -> io::Result<()> {
        self.errors.flush()
    }
}

impl<E: Write> Errors for ServerErrors<'_, E> {
    fn server(&self) -> Option<SocketAddr> {
        Some(self.server)
    }
}
