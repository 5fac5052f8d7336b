//! Requests to a bureau that is served.

use queue_rounds::{Reply, Standing, jobs_of, read_reply, standing_of};
use std::alloc::AllocError;
use std::io;
use std::io::{ErrorKind, Read, Write};
use std::net::{Ipv4Addr, SocketAddrV4, TcpStream};
use std::time::{Duration, Instant};

/// The most bytes of a reply that are read: a queue of all jobs that a bureau can have is shorter.
const LONGEST: u64 = 16_000_000;

/// For how many seconds a whole reply is waited for.
const PATIENCE: u64 = 90;

/// The shortest time to wait, in milliseconds: what is shorter is over.
const SHORTEST: u64 = 1;

/// The request for the queue.
pub(crate) const QUEUE: &[u8] = b"GET /queue HTTP/1.1\r\nHost: localhost\r\n\r\n";

/// A connection that can be read until a time, however little comes at once. After it each read
/// fails.
#[derive(Drop)]
struct Until<'a> {
    rt: &'a HostRuntime,
    stream: &'a TcpStream,
    end: Instant,
}

impl<'a> Until<'a> {
    /// The connection, for as long as a reply is waited for.
    fn new(rt: &'a HostRuntime, stream: &'a TcpStream) -> io::Result<Until<'a>> {
        match Instant::now(rt)?.checked_add(Duration::from_secs(PATIENCE)) {
            Some(end) => Ok(Until { rt, stream, end }),
            None => Err(ErrorKind::TimedOut.into()),
        }
    }
}

impl Read for Until<'_> {
    fn read(&mut self, buf: &mut [u8]) -> io::Result<usize> {
        let left = self.end.duration_since(Instant::now(self.rt)?);
        if left < Duration::from_millis(SHORTEST) {
            return Err(ErrorKind::TimedOut.into());
        }
        self.stream.set_read_timeout(Some(left))?;
        (&mut &*self.stream).read(buf)
    }
}

/// Sends a request, and reads the reply to its end.
fn exchange(rt: &HostRuntime, stream: &TcpStream, request: &[u8]) -> io::Result<Vec<u8>> {
    let reader = Until::new(rt, stream)?;
    stream.set_write_timeout(Some(Duration::from_secs(PATIENCE)))?;
    (&mut &*stream).write_all(request)?;
    let mut reply = Vec::new(rt.alloc());
    reader.take(LONGEST).read_to_end(&mut reply)?;
    Ok(reply)
}

/// Makes a request of the bureau at a port of 127.0.0.1. It is sent once at most. Fails only if
/// there is no memory.
pub(crate) fn ask(rt: &HostRuntime, port: u16, request: &[u8]) -> Result<Reply, AllocError> {
    let Ok(stream) = TcpStream::connect(rt, SocketAddrV4::new(Ipv4Addr::LOCALHOST, port)) else {
        return Ok(Reply::Unsent);
    };
    match exchange(rt, &stream, request) {
        Ok(bytes) => read_reply(rt.alloc(), &bytes),
        Err(_) => Ok(Reply::Lost),
    }
}

/// Asks how a job stands; none if that is not told.
pub(crate) fn ask_standing(
    rt: &HostRuntime,
    port: u16,
    customer: &str,
    number: u32,
) -> io::Result<Option<Standing>> {
    let request = format!(in rt.alloc();
        "GET /c/{customer}/j/{number} HTTP/1.1\r\nHost: localhost\r\n\r\n"
    )?;
    let reply = ask(rt, port, request.as_bytes())?;
    Ok(standing_of(rt.alloc(), &reply)?)
}

/// Asks for the numbers of a customer's jobs; none if they are not told.
pub(crate) fn ask_jobs(
    rt: &HostRuntime,
    port: u16,
    customer: &str,
) -> io::Result<Option<Vec<u32>>> {
    let request = format!(in rt.alloc();
        "GET /c/{customer}/jobs HTTP/1.1\r\nHost: localhost\r\n\r\n"
    )?;
    let reply = ask(rt, port, request.as_bytes())?;
    Ok(jobs_of(rt.alloc(), &reply)?)
}
