//! Answers that are fixed, and that the program gives only where memory or the store fails.

use http::StatusCode;
use http_messages::{Fault, refusal_answer};
use std::alloc::Global;
use std::test::Fail;

/// The answer that tells a fault of this number, with this status.
fn answer_of(alloc: Global, status: u16, reason: &str, number: u8) -> Result<String, Fail> {
    Ok(format!(in alloc;
        "HTTP/1.1 {status} {reason}\r\n\
        Content-Type: application/json\r\n\
        Content-Length: 11\r\n\
        Connection: close\r\n\
        \r\n\
        {{\"fault\":{number}}}"
    )?)
}

#[test]
fn faults_of_the_bureau_are_told(rt: HostRuntime) -> Result<(), Fail> {
    for (fault, status, reason, number) in [
        (Fault::NoMemory, 503, "Service Unavailable", 1),
        (Fault::Store, 503, "Service Unavailable", 2),
        (Fault::NoMemoryForReply, 500, "Internal Server Error", 3),
    ] {
        let answer = answer_of(rt.alloc(), status, reason, number)?;
        assert_eq!(rt; fault.status().as_u16(), status);
        assert_eq!(rt; fault.number(), number);
        assert!(rt;
            fault.answer() == answer.as_str().as_bytes(),
            "fault {number}"
        );
    }
    assert!(rt; refusal_answer(StatusCode::OK) == refusal_answer(StatusCode::BAD_REQUEST));
    Ok(())
}
