//! Requests whose reader fails, or whose writer gives and takes little, or fails.

use crate::doors::{Call, request_of, told_by};
use crate::submissions::ENDLESS;
use std::test::Fail;

/// A request, and its answer from a bureau without jobs.
const QUERY: &[u8] = b"GET /c/ACME/j/9 HTTP/1.1\r\nHost: a\r\n\r\n";

const NO_JOB: &str = "HTTP/1.1 404 Not Found\r\n\
    Content-Type: application/json\r\n\
    Content-Length: 14\r\n\
    Connection: close\r\n\
    \r\n\
    {\"refusal\":20}";

/// Each request is read to its end, and nothing is carried out if the reader fails before.
#[test]
fn nothing_is_carried_out_before_a_request_is_whole(rt: HostRuntime) -> Result<(), Fail> {
    let alloc = rt.alloc();
    let submission = ENDLESS.request(alloc, "")?;
    let wanted = format!(in alloc;
        "ReadFailed: , 0 left\n\
        Answered {{ status: 404, sent: 111 }}: {NO_JOB}, 0 left\n0 ticks, broken false"
    )?;
    for request in [QUERY, submission.as_str().as_bytes()] {
        for count in 0..request.len() {
            let torn = Call {
                bytes: &request[..count],
                is_torn: true,
                ..request_of(request)
            };
            let told = told_by(alloc, "", &[torn, request_of(QUERY)])?;
            assert_eq!(rt; told.as_str(), wanted.as_str(), "{count} bytes");
        }
    }
    Ok(())
}

#[test]
fn what_went_out_is_counted(rt: HostRuntime) -> Result<(), Fail> {
    let alloc = rt.alloc();
    for room in 0..=NO_JOB.len() {
        for (most, is_torn) in [(3, false), (3, true), (1, true)] {
            let call = Call {
                is_torn,
                room,
                most,
                is_full: is_torn,
                ..request_of(QUERY)
            };
            let ended = if room < NO_JOB.len() {
                format!(in alloc; "WriteFailed {{ sent: {room} }}")?
            } else {
                format!(in alloc; "Answered {{ status: 404, sent: {room} }}")?
            };
            let taken = NO_JOB.get(..room).ok_or("an answer")?;
            assert_eq!(rt;
                told_by(alloc, "", &[call])?,
                format!(in alloc; "{ended}: {taken}, 0 left\n0 ticks, broken false")?
            );
        }
    }
    Ok(())
}

/// No byte is read after a request, with a body or without one.
#[test]
fn what_comes_after_a_request_is_left(rt: HostRuntime) -> Result<(), Fail> {
    let alloc = rt.alloc();
    let submission = ENDLESS.request(alloc, "MORE")?;
    for (request, left) in [
        (b"GET /queue HTTP/1.1\r\n\r\nGET".as_slice(), "3 left"),
        (
            b"GET /queue HTTP/1.1\r\nContent-Length: 0\r\n\r\nM",
            "1 left",
        ),
        (submission.as_str().as_bytes(), "4 left"),
    ] {
        let told = told_by(alloc, "", &[request_of(request)])?;
        assert!(rt; told.starts_with("Answered { status: 200"), "{told}");
        assert!(rt; told.contains(left), "{told}");
    }
    Ok(())
}
