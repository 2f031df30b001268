//! One socket, held by who reads it and by who writes it.

use std::alloc::Global;
use std::io::{self, ErrorKind, Read, Write};
use std::net::{OpenStream, Shutdown, TcpStream};
use std::sync::Arc;
use std::time::Duration;

/// How often a call is made that is interrupted: a program that was stopped and goes on finds calls with a limit so.
const MOST_TRIES: u32 = 1_048_576;

/// One of several holders of a socket, which is closed with the last of them.
#[derive(Drop)]
pub struct Half(pub(crate) Arc<TcpStream, Global>);

impl Read for Half {
    fn read(&mut self, buf: &mut [u8]) -> io::Result<usize> {
        let mut stream: &TcpStream = &self.0;
        for _ in 0..MOST_TRIES {
            match stream.read(buf) {
                Ok(n) => return Ok(n),
                Err(error) => if error.kind() != ErrorKind::Interrupted {
                    return Err(error);
                },
            }
        }
        Err(io::Error::from(ErrorKind::Interrupted))
    }
}

impl Write for Half {
    fn write(&mut self, buf: &[u8]) -> io::Result<usize> {
        let mut stream: &TcpStream = &self.0;
        for _ in 0..MOST_TRIES {
            match stream.write(buf) {
                Ok(n) => return Ok(n),
                Err(error) => if error.kind() != ErrorKind::Interrupted {
                    return Err(error);
                },
            }
        }
        Err(io::Error::from(ErrorKind::Interrupted))
    }

    fn flush(&mut self) -> io::Result<()> {
        Ok(())
    }
}

impl OpenStream for Half {
    fn shutdown(&self, how: Shutdown) -> io::Result<()> {
        self.0.shutdown(how)
    }

    fn set_read_timeout(&self, limit: Option<Duration>) -> io::Result<()> {
        self.0.set_read_timeout(limit)
    }
}
