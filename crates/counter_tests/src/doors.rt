//! Calls at both doors of a bureau in memory, and what comes of them.
//!
//! `told_by` alone names a store: the proof of a function over any store is shorter.

use crate::devices::{Dripping, Narrow};
use counter::{Routes, exchange, script};
use ledger::Bureau;
use machine::Meter;
use sqlite::{Alter, Connection};
use std::alloc::Global;
use std::test::Fail;

/// A request or a script: the bytes that the reader gives, one a call, and whether it fails then;
/// and of the writer the number of bytes that it takes, at most so many a call, and whether it
/// fails then.
#[derive(Clone, Copy)]
pub(crate) struct Call<'a> {
    pub(crate) is_request: bool,
    pub(crate) bytes: &'a [u8],
    pub(crate) is_torn: bool,
    pub(crate) room: usize,
    pub(crate) most: usize,
    pub(crate) is_full: bool,
}

/// A script whose reader and writer do not fail.
pub(crate) fn script_of(bytes: &[u8]) -> Call<'_> {
    Call {
        is_request: false,
        bytes,
        is_torn: false,
        room: 1000,
        most: 3,
        is_full: false,
    }
}

/// A request whose reader and writer do not fail.
pub(crate) fn request_of(bytes: &[u8]) -> Call<'_> {
    Call {
        is_request: true,
        ..script_of(bytes)
    }
}

/// Makes a call, and tells how it ended, what the writer took, and how many bytes are left unread.
fn tell<S: Alter>(
    alloc: Global,
    bureau: &mut Bureau<S>,
    call: &Call<'_>,
    meter: &mut Meter,
    told: &mut String,
) -> Result<(), Fail> {
    let mut reader = Dripping {
        rest: call.bytes,
        fails: call.is_torn,
    };
    let mut writer = Narrow {
        taken: Vec::new(alloc),
        most: call.most,
        room: call.room,
        fails: call.is_full,
    };
    if call.is_request {
        let routes = Routes::new(alloc)?;
        let ended = exchange(alloc, &routes, &mut reader, &mut writer, bureau, meter);
        write!(told, "{ended:?}: ")?;
    } else {
        let ended = script(alloc, &mut reader, &mut writer, bureau, meter);
        write!(told, "{ended:?}: ")?;
    }
    told.push_str(str::from_utf8(&writer.taken).ok().ok_or("a text")?)?;
    Ok(write!(told, ", {} left\n", reader.rest.len())?)
}

/// Makes calls of a new bureau in turn, and tells of each; and at the end how many instructions
/// were attempted.
fn tell_all<S: Alter + Drop>(
    alloc: Global,
    mut conn: Connection<S>,
    calls: &[Call<'_>],
    sql: &str,
    told: &mut String,
) -> Result<(), Fail> {
    conn = made_over(alloc, conn)?;
    conn.execute_batch(sql)?;
    let Ok(mut bureau) = Bureau::adopt(alloc, conn) else {
        return Err("not opened")?;
    };
    let mut meter = Meter::new();
    for call in calls {
        tell(alloc, &mut bureau, call, &mut meter, told)?;
    }
    Ok(write!(told, "{} ticks, broken {}", meter.ticks(), bureau.broken())?)
}

/// The connection to the tables of a bureau without jobs.
fn made_over<S: Alter + Drop>(alloc: Global, conn: Connection<S>) -> Result<Connection<S>, Fail> {
    match Bureau::create(alloc, conn) {
        Ok(bureau) => Ok(bureau.into_connection()),
        Err(_) => Err("not made")?,
    }
}

/// What comes of calls of a new bureau, whose tables were changed by these statements.
pub(crate) fn told_by(alloc: Global, sql: &str, calls: &[Call<'_>]) -> Result<String, Fail> {
    let mut told = String::new(alloc);
    tell_all(
        alloc,
        Connection::open_in_memory(alloc)?,
        calls,
        sql,
        &mut told,
    )?;
    Ok(told)
}
