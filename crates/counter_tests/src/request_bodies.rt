//! Bodies of requests.

use http_messages::{Body, read_body};
use std::alloc::Global;
use std::test::Fail;

/// The body of `count` bytes whose beginning was read with the head, or `short`; and the number of
/// bytes that are left in the reader.
fn read_from(alloc: Global, begun: &str, rest: &str, count: u32) -> Result<String, Fail> {
    let mut reader = rest.as_bytes();
    let body = read_body(alloc, &mut reader, begun.as_bytes(), count);
    match body.ok().ok_or("a body")? {
        Body::Whole(bytes) => {
            let text = str::from_utf8(&bytes).ok().ok_or("a text")?;
            Ok(format!(in alloc; "{text}, {} left", reader.len())?)
        }
        Body::Short => Ok(String::from_str(alloc, "short")?),
    }
}

#[test]
fn no_byte_is_read_after_a_body(rt: HostRuntime) -> Result<(), Fail> {
    for (begun, rest, count, wanted) in [
        ("", "", 0, ", 0 left"),
        ("", "ABC", 0, ", 3 left"),
        ("ABC", "DEF", 2, "AB, 3 left"),
        ("ABC", "DEF", 3, "ABC, 3 left"),
        ("ABC", "DEF", 5, "ABCDE, 1 left"),
        ("", "DEF", 3, "DEF, 0 left"),
        ("ABC", "DEF", 7, "short"),
        ("", "", 1, "short"),
    ] {
        let told = read_from(rt.alloc(), begun, rest, count)?;
        assert_eq!(rt; told.as_str(), wanted);
    }
    Ok(())
}
