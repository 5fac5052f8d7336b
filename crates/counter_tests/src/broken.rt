//! Both doors of a bureau whose store fails: what was answered before stands, the command that
//! meets the failure is answered by fault 2, and so is all after it. And what the meter counts.

use crate::doors::{request_of, script_of, told_by};
use crate::submissions::{ENDLESS, OneCard, PRINTING};
use std::test::Fail;

/// The table of printed lines is lost.
const NO_LINES: &str = "DROP TABLE lines";

/// The answer of fault 2.
const FAULT_2: &str = "Answered { status: 503, sent: 118 }: HTTP/1.1 503 Service Unavailable\r\n\
    Content-Type: application/json\r\n\
    Content-Length: 11\r\n\
    Connection: close\r\n\
    \r\n\
    {\"fault\":2}, 0 left\n";

/// A job that sets marks by two instructions and then punches without an end.
const FILLING: OneCard = OneCard {
    size: 1400,
    switches: "-",
    card: ",008015,0150194015",
};

#[test]
fn a_script_that_meets_a_failure_ends_with_fault_2(rt: HostRuntime) -> Result<(), Fail> {
    let alloc = rt.alloc();
    let script = PRINTING.script(alloc, "slice ACME 9 1\nslice ACME 9 2000\nqueue\n")?;
    let calls = [
        script_of(script.as_str().as_bytes()),
        script_of(b"queue\n"),
        request_of(b"GET /queue HTTP/1.1\r\n\r\n"),
    ];
    assert_eq!(rt;
        told_by(alloc, NO_LINES, &calls)?,
        format!(in alloc;
            "Scripted {{ acknowledged: 2, sent: 30, refused: false, ended: Fault(Store) }}: \
            taken 1\nran 1 running\nfault 2\n, 0 left\n\
            Scripted {{ acknowledged: 0, sent: 8, refused: false, ended: Fault(Store) }}: \
            fault 2\n, 0 left\n{FAULT_2}7 ticks, broken true"
        )?
    );
    Ok(())
}

#[test]
fn a_request_that_meets_a_failure_is_answered_503(rt: HostRuntime) -> Result<(), Fail> {
    let alloc = rt.alloc();
    let submission = PRINTING.script(alloc, "")?;
    let calls = [
        script_of(submission.as_str().as_bytes()),
        request_of(b"POST /c/ACME/j/9/slice/2000 HTTP/1.1\r\n\r\n"),
        request_of(b"GET /queue HTTP/1.1\r\n\r\n"),
        script_of(b"queue\n"),
    ];
    assert_eq!(rt;
        told_by(alloc, NO_LINES, &calls)?,
        format!(in alloc;
            "Scripted {{ acknowledged: 1, sent: 8, refused: false, ended: Whole }}: \
            taken 1\n, 0 left\n{FAULT_2}{FAULT_2}\
            Scripted {{ acknowledged: 0, sent: 8, refused: false, ended: Fault(Store) }}: \
            fault 2\n, 0 left\n7 ticks, broken true"
        )?
    );
    Ok(())
}

/// The instructions of a job without an end: in a script 34, and then by a request 2,000.
#[test]
fn slices_of_scripts_and_of_requests_are_counted(rt: HostRuntime) -> Result<(), Fail> {
    let alloc = rt.alloc();
    let script = ENDLESS.script(alloc, "slice ACME 9 34\n")?;
    let calls = [
        script_of(script.as_str().as_bytes()),
        request_of(b"POST /c/ACME/j/9/slice/2000 HTTP/1.1\r\n\r\n"),
    ];
    let told = told_by(alloc, "", &calls)?;
    assert!(rt; told.ends_with("\n2034 ticks, broken false"));
    Ok(())
}

/// The attempt that meets the full punch is one tick, and the slice that is refused is none.
#[test]
fn the_attempt_at_a_full_punch_is_counted(rt: HostRuntime) -> Result<(), Fail> {
    let alloc = rt.alloc();
    let slices = "slice ACME 9 2000\n".repeat(alloc, 7)?;
    let script = FILLING.script(alloc, slices.as_str())?;
    assert_eq!(rt;
        told_by(alloc, "", &[script_of(script.as_str().as_bytes())])?,
        format!(in alloc;
            "Scripted {{ acknowledged: 8, sent: 133, refused: true, ended: Whole }}: \
            taken 1\n{}ran 2 check PUNCH FULL at 15\nrefused 23\n, 0 left\n\
            10003 ticks, broken false",
            "ran 2000 running\n".repeat(alloc, 5)?
        )?
    );
    Ok(())
}
