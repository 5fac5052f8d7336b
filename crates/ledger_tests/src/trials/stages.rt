//! The stages of a session, over the connection to a bureau's tables.
//!
//! - `create` creates the bureau and `adopt` opens it: each tells `done`, or the fault.
//! - `migrate` tells the version from which it raises the tables, or the fault.
//! - `rows` tells every row of every table, also of tables that only older versions have.
//! - `tables` makes calls of tables that the bureau does not.
//! - `sql` and statements executes these.
//! - All others are commands, in a shift of a bureau that is opened for them: lines of a script,
//!   or words that name a command.
//!
//! In what is told `/` ends a line.

use crate::trials::asking::ask_tables;
use crate::trials::commands::work;
use crate::trials::sessions::Session;
use ledger::{Bureau, migrate};
use sqlite::{Alter, Connection};
use std::alloc::Global;
use std::io::Write;
use std::test::Fail;

/// The stage `create`.
fn created<S: Alter + Drop>(
    alloc: Global,
    conn: Connection<S>,
    session: &mut Session,
) -> Result<Connection<S>, Fail> {
    match Bureau::create(alloc, conn) {
        Ok(bureau) => {
            session.told.extend_from_slice(b"done\n")?;
            Ok(bureau.into_connection())
        }
        Err((fault, conn)) => {
            session.tell_fault(fault.number())?;
            Ok(conn)
        }
    }
}

/// The stages that open the bureau.
fn opened<S: Alter + Drop>(
    alloc: Global,
    conn: Connection<S>,
    stage: &str,
    session: &mut Session,
) -> Result<Connection<S>, Fail> {
    match Bureau::adopt(alloc, conn) {
        Ok(mut bureau) => {
            work(alloc, &mut bureau, stage, session)?;
            Ok(bureau.into_connection())
        }
        Err((fault, conn)) => {
            session.tell_fault(fault.number())?;
            Ok(conn)
        }
    }
}

/// The stage `migrate`.
// It has no clause, so that the proof of a caller does not carry the state of the call.
fn migrated<S: Alter>(
    alloc: Global,
    conn: &mut Connection<S>,
    session: &mut Session,
) -> Result<(), Fail> {
    match migrate(alloc, conn) {
        Ok(version) => Ok(write!(&mut session.told, "version {version}\n")?),
        Err(fault) => session.tell_fault(fault.number()),
    }
}

/// Every table of any version, and the order of its rows.
const TABLES: [&str; 10] = [
    "bureau ORDER BY id",
    "jobs ORDER BY customer, number",
    "stretches ORDER BY customer, number, place",
    "pictures ORDER BY customer, number",
    "states ORDER BY customer, number",
    "pages ORDER BY customer, number, page",
    "cards ORDER BY customer, number, place",
    "lines ORDER BY customer, number, place",
    "profiles ORDER BY customer, number",
    "pockets ORDER BY customer, number, place",
];

/// Tells every row of a table.
fn show<S: Alter>(
    alloc: Global,
    conn: &mut Connection<S>,
    table: &str,
    told: &mut Vec<u8>,
) -> Result<(), Fail> {
    let sql = format!(in alloc; "SELECT * FROM {table}")?;
    match conn.query_all(sql.as_str(), &[]) {
        Ok(rows) => Ok(write!(told, "{rows:?}\n")?),
        Err(_) => Ok(told.extend_from_slice(b"no table\n")?),
    }
}

/// The stage `rows`.
fn show_all<S: Alter>(
    alloc: Global,
    conn: &mut Connection<S>,
    told: &mut Vec<u8>,
) -> Result<(), Fail> {
    for table in TABLES {
        show(alloc, conn, table, told)?;
    }
    Ok(())
}

/// Does a stage that leaves the bureau closed; returns whether it is one.
fn is_done<S: Alter>(
    alloc: Global,
    conn: &mut Connection<S>,
    stage: &str,
    session: &mut Session,
) -> Result<bool, Fail> {
    match stage {
        "migrate" => migrated(alloc, conn, session)?,
        "rows" => show_all(alloc, conn, &mut session.told)?,
        "tables" => ask_tables(alloc, conn, &mut session.told)?,
        _ => match stage.strip_prefix("sql ") {
            Some(statements) => conn.execute_batch(statements)?,
            None => return Ok(false),
        },
    }
    Ok(true)
}

/// The connection after a stage.
pub(crate) fn after<S: Alter + Drop>(
    alloc: Global,
    mut conn: Connection<S>,
    stage: &str,
    session: &mut Session,
) -> Result<Connection<S>, Fail> {
    if stage == "create" {
        return created(alloc, conn, session);
    }
    if is_done(alloc, &mut conn, stage, session)? {
        return Ok(conn);
    }
    opened(alloc, conn, stage, session)
}
