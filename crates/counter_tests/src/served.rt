//! Two connections on loopback, answered one after the other from a bureau's file.

use crate::submissions::PUNCHING;
use counter::{Exchange, Routes, exchange};
use ledger::Bureau;
use ledger_files::{init, open_from};
use machine::Meter;
use sqlite::{Alter, Unknown};
use std::fs;
use std::io::{Read, Write};
use std::net::{Net, Shutdown, SocketAddr, TcpListener, TcpStream};
use std::test::Fail;

/// The bureau's file, and its log.
const FILE: &str = "served.bureau";

const LOG: &str = "served.bureau-wal";

/// The answer to the submission of a job of one card.
const TAKEN: &str = "HTTP/1.1 200 OK\r\n\
    Content-Type: application/json\r\n\
    Content-Length: 27\r\n\
    Connection: close\r\n\
    \r\n\
    {\"cards\":1,\"reply\":\"taken\"}";

/// A query for the standing of that job, and the answer.
const QUERY: &str = "GET /c/ACME/j/9 HTTP/1.1\r\nHost: a\r\n\r\n";

const STANDING: &str = "HTTP/1.1 200 OK\r\n\
    Content-Type: application/json\r\n\
    Content-Length: 104\r\n\
    Connection: close\r\n\
    \r\n\
    {\"cards\":0,\"collected\":false,\"granted\":0,\"held\":false,\"lines\":0,\
    \"reply\":\"standing\",\"standing\":\"running\"}";

/// Connects a client, which sends a whole request.
fn client(rt: &HostRuntime, address: SocketAddr, request: &str) -> Result<TcpStream, Fail> {
    let mut stream = TcpStream::connect(rt, address)?;
    stream.write_all(request.as_bytes())?;
    stream.shutdown(Shutdown::Write)?;
    Ok(stream)
}

/// Reads the whole answer to a client.
fn answer_to(rt: &HostRuntime, mut stream: TcpStream) -> Result<String, Fail> {
    let mut answer = Vec::new(rt.alloc());
    stream.read_to_end(&mut answer)?;
    Ok(String::from_utf8(answer).ok().ok_or("a text")?)
}

/// Answers the request of each of the next two connections, and closes it.
fn answer_two<S: Alter>(
    rt: &HostRuntime,
    listener: &TcpListener,
    bureau: &mut Bureau<S>,
) -> Result<(), Fail> {
    let (routes, mut meter) = (Routes::new(rt.alloc())?, Meter::new());
    for stream in listener.incoming().take(2) {
        let stream = stream?;
        let (mut reader, mut writer) = (&stream, &stream);
        let ended = exchange(
            rt.alloc(),
            &routes,
            &mut reader,
            &mut writer,
            bureau,
            &mut meter,
        );
        let Exchange::Answered { .. } = ended else {
            return Err("not answered")?;
        };
    }
    Ok(())
}

/// Opens the bureau's file, and answers two connections from it.
fn answer_from_file(rt: &HostRuntime, listener: &TcpListener) -> Result<(), Fail> {
    match open_from(rt, FILE, Unknown) {
        Ok(mut bureau) => answer_two(rt, listener, &mut bureau),
        Err(_) => Err("not opened")?,
    }
}

#[test]
fn two_connections_are_answered(rt: HostRuntime) -> Result<(), Fail> {
    let submission = PUNCHING.request(rt.alloc(), "")?;
    assert!(rt; init(&rt, FILE, Unknown).is_ok());
    let listener = TcpListener::bind(&rt, "127.0.0.1:0")?;
    let address = listener.local_addr()?;
    let first = client(&rt, address, submission.as_str())?;
    let second = client(&rt, address, QUERY)?;
    answer_from_file(&rt, &listener)?;
    assert_eq!(rt; answer_to(&rt, first)?.as_str(), TAKEN);
    assert_eq!(rt; answer_to(&rt, second)?.as_str(), STANDING);
    fs::remove_file(&rt, FILE)?;
    fs::remove_file(&rt, LOG)?;
    Ok(())
}
