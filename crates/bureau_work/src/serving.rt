//! Serving requests over HTTP.

ghost use Rattle.std.specs.Prelude.{◌≡◌};
ghost use Rattle.ledger_tables.specs.Disks.{StaysClean};
ghost use Rattle.ledger.specs.Working.{HasWorked};
ghost use Rattle.bureau_work.specs.Visits.{IsTurn, Serves, TellsServe};

use crate::clients::Clients;
use crate::outcomes::Outcome;
use counter::{Exchange, Routes, exchange};
use ledger::{Bureau, Work, kept_offices_run_whole};
use ledger_tables::OpenFault;
use machine::Meter;
use sqlite::Alter;
use std::alloc::Global;
use std::io::Write;

/// Serves the next client: one request.
fn serve_next<C: Clients, S: Alter>(
    alloc: Global,
    routes: &Routes,
    bureau: &mut Bureau<S>,
    clients: &mut C,
    meter: &mut Meter,
)
    ensures works { HasWorked S.Store bureau.old.conn bureau.new.conn bureau.new.broken
        (IsTurn C.came C.missed C.went clients.old clients.new) }
    ensures clean { StaysClean S.Store bureau.old.conn bureau.new.conn }
{
    // A law, for the proof: it does nothing.
    kept_offices_run_whole();
    let Some(mut visit) = clients.next() else {
        return;
    };
    let ended = exchange(
        alloc,
        routes,
        &mut visit.reader,
        &mut visit.writer,
        bureau,
        meter,
    );
    clients.end(visit, matches!(ended, Exchange::Answered { .. }));
}

/// Serves this number of clients, one after the other. After fault 2 no more are served.
fn serve_clients<C: Clients, S: Alter>(
    alloc: Global,
    routes: &Routes,
    bureau: &mut Bureau<S>,
    clients: &mut C,
    count: u32,
) -> Outcome
    ensures works { HasWorked S.Store bureau.old.conn bureau.new.conn bureau.new.broken
        (Serves C.came C.missed C.went count result clients.old clients.new) }
    ensures clean { StaysClean S.Store bureau.old.conn bureau.new.conn }
{
    // A law, for the proof: it does nothing.
    kept_offices_run_whole();
    let mut meter = Meter::new();
    for _ in 0..count {
        serve_next(alloc, routes, bureau, clients, &mut meter);
        if bureau.broken() {
            return Outcome::Fault(OpenFault::Store);
        }
    }
    Outcome::Done
}

/// The work of serving clients.
#[derive(Drop)]
pub struct ServeWork<C: Drop> {
    /// The clients, unless none can come.
    pub clients: Option<C>,
    /// The number of clients.
    pub count: u32,
    /// How the work ended.
    pub outcome: Outcome,
}

impl<C: Clients + Drop> ServeWork<C> {
    /// Serves them, from a bureau over any store.
    fn serve<S: Alter>(&mut self, alloc: Global, bureau: &mut Bureau<S>) -> Outcome
        ensures works { HasWorked S.Store bureau.old.conn bureau.new.conn bureau.new.broken
            (TellsServe C.came C.missed C.went self.old.count result self.old.clients
            self.new.clients) }
        ensures clean { StaysClean S.Store bureau.old.conn bureau.new.conn }
    {
        // A law, for the proof: it does nothing.
        kept_offices_run_whole();
        let Ok(routes) = Routes::new(alloc) else {
            return Outcome::Fault(OpenFault::NoMemory);
        };
        match &mut self.clients {
            Some(clients) => serve_clients(alloc, &routes, bureau, clients, self.count),
            None => Outcome::Device,
        }
    }
}

impl<C: Clients + Drop> Work for ServeWork<C> {
    ghost tells = { λ before after old new. TellsServe C.came C.missed C.went before.count
        after.outcome before.clients after.clients };

    fn carry_out<S: Alter, O: Write>(
        &mut self,
        rt: &HostRuntime,
        bureau: &mut Bureau<S>,
        _output: &mut O,
    ) {
        self.outcome = self.serve(rt.alloc(), bureau);
    }
}
