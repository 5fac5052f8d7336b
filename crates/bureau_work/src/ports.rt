//! Clients that connect to a port, and cannot hold a connection open for as long as they like.

ghost use Rattle.bureau_work.specs.Visits.{AreUnknown, IsMissed, IsUnknown};

use crate::clients::{Clients, Visit};
use std::io;
use std::io::{ErrorKind, Read, Write};
use std::net::{Ipv4Addr, Net, Shutdown, SocketAddrV4, TcpListener, TcpStream};
use std::time::{Duration, Instant};

/// The number of seconds within which a request has to come, whole.
const REQUEST: u64 = 30;

/// The number of seconds within which a client has to take its answer, whole.
const ANSWER: u64 = 30;

/// The number of seconds for which what a client sends after its request is read.
const REST: u64 = 1;

/// The number of seconds for which a client may send or take nothing.
const PATIENCE: u64 = 10;

/// The shortest time to wait, in milliseconds: what is shorter is over.
const SHORTEST: u64 = 1;

/// A connection that can be read and written for a time. After it each call fails.
#[derive(Drop)]
pub struct Timed<'a> {
    rt: &'a HostRuntime,
    stream: TcpStream,
    end: Instant,
}

impl<'a> Timed<'a> {
    /// The connection, for this number of seconds from now on.
    fn new(rt: &'a HostRuntime, stream: TcpStream, seconds: u64) -> io::Result<Timed<'a>> {
        match Instant::now(rt)?.checked_add(Duration::from_secs(seconds)) {
            Some(end) => Ok(Timed { rt, stream, end }),
            None => Err(ErrorKind::TimedOut.into()),
        }
    }

    /// How long the next call may wait.
    fn patience(&self) -> io::Result<Option<Duration>> {
        let left = self.end.duration_since(Instant::now(self.rt)?);
        if left < Duration::from_millis(SHORTEST) {
            return Err(ErrorKind::TimedOut.into());
        }
        Ok(Some(left.min(Duration::from_secs(PATIENCE))))
    }
}

impl Read for Timed<'_> {
    fn read(&mut self, buf: &mut [u8]) -> io::Result<usize> {
        self.stream.set_read_timeout(self.patience()?)?;
        (&mut &self.stream).read(buf)
    }
}

impl Write for Timed<'_> {
    fn write(&mut self, buf: &[u8]) -> io::Result<usize> {
        self.stream.set_write_timeout(self.patience()?)?;
        (&mut &self.stream).write(buf)
    }

    fn flush(&mut self) -> io::Result<()> {
        Ok(())
    }
}

/// A port of 127.0.0.1, to which clients connect. A connection that fails is dropped.
#[derive(Drop)]
pub struct Port<'a> {
    rt: &'a HostRuntime,
    listener: TcpListener,
}

impl<'a> Port<'a> {
    /// The port of this number.
    pub fn bind(rt: &'a HostRuntime, number: u16) -> io::Result<Port<'a>> {
        let address = SocketAddrV4::new(Ipv4Addr::LOCALHOST, number);
        let listener = TcpListener::bind(rt, address)?;
        Ok(Port { rt, listener })
    }

    /// The next connection, with the times for a request and its answer.
    fn connection(&self) -> io::Result<Visit<Timed<'a>, Timed<'a>>> {
        let (stream, _address) = self.listener.accept()?;
        Ok(Visit {
            reader: Timed::new(self.rt, stream.try_clone()?, REQUEST)?,
            writer: Timed::new(self.rt, stream, REQUEST + ANSWER)?,
        })
    }

    /// Ends the answer, and reads what the client still sends: a connection that is closed while
    /// bytes are unread may lose its answer.
    fn close(&self, visit: Visit<Timed<'a>, Timed<'a>>) -> io::Result<()> {
        let Visit { reader, writer } = visit;
        writer.stream.shutdown(Shutdown::Write)?;
        let mut rest = Timed::new(self.rt, reader.stream, REST)?;
        io::copy(&mut rest, &mut io::sink())?;
        Ok(())
    }
}

impl<'a> Clients for Port<'a> {
    type Reader = Timed<'a>;

    type Writer = Timed<'a>;

    ghost came = { λ before after asked begun. AreUnknown asked begun };

    ghost missed = { λ before after. IsMissed };

    ghost went = { λ before after told. IsUnknown told };

    fn next(&mut self) -> Option<Visit<Timed<'a>, Timed<'a>>> {
        self.connection().ok()
    }

    fn end(&mut self, visit: Visit<Timed<'a>, Timed<'a>>, is_answered: bool)
        ensures { IsUnknown (⟦<Timed<'a> as Write>⟧.contents visit.entry.writer) }
    {
        if is_answered {
            // Nothing is left to be done for a client that does not hear this.
            let _ = self.close(visit);
        }
    }
}
