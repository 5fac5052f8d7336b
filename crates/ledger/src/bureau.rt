//! The bureau: each command in one transaction, whose commit is the last call of the store.

ghost use Rattle.std.specs.Prelude.{◌≡◌, ◌⊎◌, [], true, false, None, Err, IsTrue, IfOk, IfErr, OnOk, IsErrAnd, IsErrOf};
ghost use Rattle.sqlite.specs.{Held.{state}, State.{HasCleanDisk}};
ghost use Rattle.ledger_tables.specs.{
  Disks.{StaysClean},
  Making.{is_taken},
  Schema.{no_schema},
  Versions.{IsAnswer},
};
ghost use Rattle.office.specs.{
  Meters.{RisenAtMost},
  Office.{early_refusal, served, take, attempted_by, attempted, limit_of},
};
ghost use Rattle.ledger.specs.{
  Adopting.{StandsStill, IsNoFaultOfTables, HasOwnVersion, IsTold, MakesNothing, handed, verdict},
  Replying.{Replies, Rises, RisesAtMost, KeepsOffice, FailsToRead, LeavesEither, MakesOffice, LeavesNone},
  Serving.{OnlyReads},
  Standing.{Stands, IsAsBefore},
};

use crate::serving::{early_refusal, serve};
use ledger_tables::{Fault, OpenFault, OpenTables};
use machine::Meter;
use office::{Command, Reply};
use sqlite::{Alter, Connection};
use std::alloc::Global;

/// A bureau over a connection to its tables.
pub struct Bureau<S: Alter> {
    conn: Connection<S>,
    alloc: Global,
    broken: bool,
}

impl<S: Alter + Drop> Drop for Bureau<S> {
    fn drop(self) {
        let Bureau {
            conn: _,
            alloc: _,
            broken: _,
        } = self;
    }
}

/// One command in one transaction, whose commit is the last call.
fn transact<S: Alter>(
    alloc: Global,
    conn: &mut Connection<S>,
    command: &Command,
    meter: &mut Meter,
) -> Result<Reply, Fault>
    ensures reply { Replies S.Store conn.old conn.new result (served command.now) }
    ensures meter { Rises S.Store conn.old conn.new result
        meter.old meter.new (attempted_by command.now) }
    ensures given_up { RisesAtMost S.Store conn.old conn.new result
        meter.old meter.new (attempted_by command.now) }
    ensures most { RisenAtMost (limit_of command.now) meter.old meter.new }
    ensures no_memory { KeepsOffice S.Store conn.old conn.new result }
    ensures crash { LeavesEither S.Store conn.old conn.new (served command.now) }
    ensures opened { HasCleanDisk (state S.Store conn.new)
        → OnOk result (IsTrue (state S.Store conn.new).is_open) }
    ensures failed { FailsToRead S.Store conn.old conn.new result (OnlyReads command.now) }
    ensures clean { StaysClean S.Store conn.old conn.new }
{
    if !conn.is_autocommit() {
        return Err(Fault::Store);
    }
    let mut tx = conn.transaction();
    let result = serve(&mut OpenTables { tx: &mut tx, alloc }, command, meter);
    match result {
        Ok(reply) => match tx.commit() {
            Ok(()) => Ok(reply),
            Err(_) => Err(Fault::Store),
        },
        Err(fault) => {
            tx.rollback();
            Err(fault)
        }
    }
}

/// Creates the tables in one transaction.
fn make<S: Alter>(alloc: Global, conn: &mut Connection<S>) -> Result<(), Fault>
    ensures no_memory { HasCleanDisk (state S.Store conn.new) → IsErrOf result Fault.NoMemory
        → IsAsBefore (state S.Store conn.old) (state S.Store conn.new) }
    ensures made { MakesOffice S.Store conn.old conn.new result }
    ensures new { HasCleanDisk (state S.Store conn.new)
        → OnOk result (is_taken (state S.Store conn.old).now.schema ≡ false) }
    ensures opened { HasCleanDisk (state S.Store conn.new)
        → OnOk result (IsTrue (state S.Store conn.new).is_open) }
    ensures taken { HasCleanDisk (state S.Store conn.new)
        → is_taken (state S.Store conn.old).now.schema ≡ true
        → IsErrAnd result (MakesNothing S.Store conn.old conn.new) }
    ensures crash { LeavesNone S.Store conn.old conn.new }
    ensures clean { StaysClean S.Store conn.old conn.new }
{
    if !conn.is_autocommit() {
        return Err(Fault::Store);
    }
    let mut tx = conn.transaction();
    let made = OpenTables { tx: &mut tx, alloc }.make();
    match made {
        Ok(()) => match tx.commit() {
            Ok(()) => Ok(()),
            Err(_) => Err(Fault::Store),
        },
        Err(fault) => {
            tx.rollback();
            Err(fault)
        }
    }
}

/// Whether the tables are a bureau's, of this version. They are queried in a transaction that is
/// rolled back.
fn look<S: Alter>(alloc: Global, conn: &mut Connection<S>) -> Result<(), OpenFault>
    ensures stands { StandsStill S.Store conn.old conn.new }
    ensures known { IfErr result (IsNoFaultOfTables S.Store conn.old conn.new) }
    ensures version { OnOk result (HasOwnVersion S.Store conn.old conn.new) }
    ensures told { IsTold S.Store conn.old conn.new result }
    ensures answer { HasCleanDisk (state S.Store conn.new)
        → IsAnswer (state S.Store conn.old).now result }
    ensures clean { StaysClean S.Store conn.old conn.new }
{
    if !conn.is_autocommit() {
        return Err(OpenFault::Store);
    }
    let mut tx = conn.transaction();
    let found = OpenTables { tx: &mut tx, alloc }.find_version();
    tx.rollback();
    found
}

impl<S: Alter> Bureau<S> {
    /// Applies a command. After fault 2 every later command also gets fault 2, until the file is
    /// opened again. A fault leaves the meter risen by the number of instructions attempted.
    pub fn apply(&mut self, command: &Command, meter: &mut Meter) -> Result<Reply, Fault>
        ensures reply { Replies S.Store self.old.conn self.new.conn result (take command.now) }
        ensures meter { Rises S.Store self.old.conn self.new.conn result
            meter.old meter.new (attempted command.now) }
        ensures given_up { RisesAtMost S.Store self.old.conn self.new.conn result
            meter.old meter.new (attempted command.now) }
        ensures most { RisenAtMost (limit_of command.now) meter.old meter.new }
        ensures no_memory { KeepsOffice S.Store self.old.conn self.new.conn result }
        ensures crash { LeavesEither S.Store self.old.conn self.new.conn (take command.now) }
        ensures broken { IsErrOf result Fault.Store → IsTrue self.new.broken }
        ensures kept { (self.new.broken ≡ self.old.broken) ⊎ IsErrOf result Fault.Store }
        ensures opened { HasCleanDisk (state S.Store self.new.conn)
            → early_refusal command.now ≡ None
            → OnOk result (IsTrue (state S.Store self.new.conn).is_open) }
        ensures failed { self.old.broken ≡ false
            → FailsToRead S.Store self.old.conn self.new.conn result (OnlyReads command.now) }
        ensures ended { IsTrue self.old.broken
            → (result ≡ Err Fault.Store) × (self.new ≡ self.old) × (meter.new ≡ meter.old) }
        ensures clean { StaysClean S.Store self.old.conn self.new.conn }
    {
        if self.broken {
            return Err(Fault::Store);
        }
        if let Some(reason) = early_refusal(command) {
            return Ok(Reply::Refused(reason));
        }
        let result = transact(self.alloc, &mut self.conn, command, meter);
        if let Err(Fault::Store) = result {
            self.broken = true;
        }
        result
    }

    /// Whether the bureau is broken: fault 2 has come.
    pub fn broken(&self) -> bool
        ensures { result ≡ self.now.broken }
    {
        self.broken
    }

    /// Creates a bureau without jobs, in a store without tables. It fails with 2 if a name of its
    /// tables is taken, and nothing is changed then. After fault 1 nothing was created; else after
    /// fault 2 the tables are there or not, and the file has to be opened again.
    pub fn create(
        alloc: Global,
        mut conn: Connection<S>,
    ) -> Result<Bureau<S>, (Fault, Connection<S>)>
        ensures made { IfOk result (λ bureau. HasCleanDisk (state S.Store bureau.conn)
            → (state S.Store conn).now.schema ≡ no_schema → Stands (state S.Store bureau.conn) []) }
        ensures whole { IfOk result (λ bureau. bureau.broken ≡ false) }
        ensures new { HasCleanDisk (state S.Store (handed result))
            → OnOk result (is_taken (state S.Store conn).now.schema ≡ false) }
        ensures opened { IfOk result (λ bureau. HasCleanDisk (state S.Store bureau.conn)
            → IsTrue (state S.Store bureau.conn).is_open) }
        ensures taken { HasCleanDisk (state S.Store (handed result))
            → is_taken (state S.Store conn).now.schema ≡ true
            → IsErrAnd (verdict result) (MakesNothing S.Store conn (handed result)) }
        ensures no_memory { IfErr result (λ e. HasCleanDisk (state S.Store e.1)
            → e.0 ≡ Fault.NoMemory → IsAsBefore (state S.Store conn) (state S.Store e.1)) }
        ensures crash { IfErr result (λ e. LeavesNone S.Store conn e.1) }
        ensures clean { IfOk result (λ bureau. StaysClean S.Store conn bureau.conn) }
        ensures clean_still { IfErr result (λ e. StaysClean S.Store conn e.1) }
    {
        match make(alloc, &mut conn) {
            Ok(()) => Ok(Bureau {
                conn,
                alloc,
                broken: false,
            }),
            Err(fault) => Err((fault, conn)),
        }
    }

    /// Returns the bureau over the tables of a connection, which it does not change. Fails with 50
    /// if they are not a bureau's or are of a later version, and with 51 if they are of an earlier
    /// version; the connection is then handed back.
    pub fn adopt(
        alloc: Global,
        mut conn: Connection<S>,
    ) -> Result<Bureau<S>, (OpenFault, Connection<S>)>
        ensures stands { IfOk result (λ bureau. StandsStill S.Store conn bureau.conn) }
        ensures whole { IfOk result (λ bureau. bureau.broken ≡ false) }
        ensures version { IfOk result (λ bureau. HasOwnVersion S.Store conn bureau.conn) }
        ensures told { IsTold S.Store conn (handed result) (verdict result) }
        ensures answer { HasCleanDisk (state S.Store (handed result))
            → IsAnswer (state S.Store conn).now (verdict result) }
        ensures kept { IfErr result (λ e. StandsStill S.Store conn e.1) }
        ensures known { IfErr result (λ e. IsNoFaultOfTables S.Store conn e.1 e.0) }
        ensures clean { IfOk result (λ bureau. StaysClean S.Store conn bureau.conn) }
        ensures clean_still { IfErr result (λ e. StaysClean S.Store conn e.1) }
    {
        match look(alloc, &mut conn) {
            Ok(()) => Ok(Bureau {
                conn,
                alloc,
                broken: false,
            }),
            Err(fault) => Err((fault, conn)),
        }
    }

    /// The connection, for other uses of the file.
    pub fn into_connection(self) -> Connection<S>
        ensures { result ≡ self.conn }
    {
        let Bureau {
            conn,
            alloc: _,
            broken: _,
        } = self;
        conn
    }
}
