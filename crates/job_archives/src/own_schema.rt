//! The schema of a bureau's tables.

ghost use Rattle.std.specs.Prelude.{◌≡◌, IfOk};
ghost use Rattle.sqlite.specs.{Held.{state}, Steps.{over_memory}};
ghost use Rattle.ledger_tables.specs.Schema.{bureau_schema};

use ledger::Bureau;
use ledger_tables::Fault;
use sqlite::{Connection, MemStore};
use std::alloc::Global;

/// A bureau without jobs, in memory: its schema is each bureau's.
pub fn own_connection(alloc: Global) -> Result<Connection<MemStore>, Fault>
    ensures { IfOk result (λ conn. (state over_memory conn).now.schema ≡ bureau_schema) }
{
    let empty = Connection::open_in_memory(alloc)?;
    match Bureau::create(alloc, empty) {
        Ok(bureau) => Ok(bureau.into_connection()),
        Err((fault, _)) => Err(fault),
    }
}
