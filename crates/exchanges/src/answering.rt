//! The answer to a request.

ghost use Rattle.std.specs.{Prelude.{◌≡◌, ◌⊎◌, [], IfSome, IfNone, IsTrue}, Option.{IsSomeAnd}};
ghost use Rattle.ledger_tables.specs.Disks.{StaysClean};
ghost use Rattle.office.specs.Meters.{RisenAtMost};
ghost use Rattle.http_messages.specs.{
  Requests.{HasRefusingStatus, IsRefusingStatus},
  declared.fault.RequestFault.TheVariants.{NoMemory, ReadFailed},
};
ghost use Rattle.http_messages.specs.declared.request.Request.TheVariants as request;
ghost use Rattle.exchanges.specs.{
  Answers.{AnswersBroken, IsAnswer, IsOfFault, limit_of},
  Exchanges.{Comes, ComesInEach, ComesOfBroken, TicksForRead},
  Messages.{bytes_in},
  Work.{TellsAnswer, TellsRead},
};
ghost use Rattle.ledger.specs.Working.{HasWorked};

use crate::laws::lines_rise;
use crate::messages::{Bytes, Message, fault_message};
use cards::CardFault;
use http::StatusCode;
use http_messages::{
    Fault, Request, RequestFault, Routes, deck_fault, refusal_answer, reply_to, status_of,
};
use ledger::{Bureau, kept_offices_run_whole};
use machine::Meter;
use office::Command;
use sqlite::Alter;
use std::alloc::Global;
use std::io::Read;

/// The answer that refuses a request with this status.
fn refusal(status: StatusCode) -> Message
    requires { IsRefusingStatus status }
    ensures { IsAnswer (request.Refused status) [] result.status (bytes_in result.bytes) }
{
    Message {
        status,
        bytes: Bytes::Fixed(refusal_answer(status)),
    }
}

/// The answer to a submission whose deck has this fault.
fn bad_deck(alloc: Global, fault: CardFault) -> Message
    ensures { IsAnswer (request.BadDeck fault) [] result.status (bytes_in result.bytes)
        ⊎ IsOfFault Fault.NoMemory result.status (bytes_in result.bytes) }
{
    match deck_fault(alloc, fault) {
        Ok(bytes) => Message {
            status: StatusCode::BAD_REQUEST,
            bytes: Bytes::Made(bytes),
        },
        Err(_) => fault_message(Fault::NoMemory),
    }
}

/// Carries out a command, and then makes the answer.
fn carry_out<S: Alter>(
    alloc: Global,
    command: &Command,
    bureau: &mut Bureau<S>,
    meter: &mut Meter,
) -> Message
    ensures comes { ComesInEach S.Store bureau.old.conn bureau.new.conn bureau.old.broken
        bureau.new.broken meter.old meter.new (request.Asks command.now) result.status
        (bytes_in result.bytes) }
    ensures works { HasWorked S.Store bureau.old.conn bureau.new.conn bureau.new.broken
        (TellsAnswer (request.Asks command.now) result.status (bytes_in result.bytes)) }
    ensures ended { IsTrue bureau.old.broken → (bureau.new ≡ bureau.old) × (meter.new ≡ meter.old)
        × IsOfFault Fault.Store result.status (bytes_in result.bytes) }
    ensures kept { (bureau.new.broken ≡ bureau.old.broken)
        ⊎ IsOfFault Fault.Store result.status (bytes_in result.bytes) }
    ensures most { RisenAtMost (limit_of (request.Asks command.now)) meter.old meter.new }
    ensures clean { StaysClean S.Store bureau.old.conn bureau.new.conn }
{
    // Two laws, for the proof: they do nothing.
    lines_rise();
    kept_offices_run_whole();
    let reply = match bureau.apply(command, meter) {
        Ok(reply) => reply,
        Err(ledger::Fault::NoMemory) => return fault_message(Fault::NoMemory),
        Err(ledger::Fault::Store) => return fault_message(Fault::Store),
    };
    match reply_to(alloc, &reply) {
        Ok(bytes) => Message {
            status: status_of(&reply),
            bytes: Bytes::Made(bytes),
        },
        Err(_) => fault_message(Fault::NoMemoryForReply),
    }
}

/// Carries out a request, and then makes the answer.
fn answer<S: Alter>(
    alloc: Global,
    request: &Request,
    bureau: &mut Bureau<S>,
    meter: &mut Meter,
) -> Message
    requires { HasRefusingStatus request.now }
    ensures comes { ComesInEach S.Store bureau.old.conn bureau.new.conn bureau.old.broken
        bureau.new.broken meter.old meter.new request.now result.status (bytes_in result.bytes) }
    ensures works { HasWorked S.Store bureau.old.conn bureau.new.conn bureau.new.broken
        (TellsAnswer request.now result.status (bytes_in result.bytes)) }
    ensures ended { IsTrue bureau.old.broken → (bureau.new ≡ bureau.old) × (meter.new ≡ meter.old)
        × AnswersBroken request.now result.status (bytes_in result.bytes) }
    ensures kept { (bureau.new.broken ≡ bureau.old.broken)
        ⊎ IsOfFault Fault.Store result.status (bytes_in result.bytes) }
    ensures most { RisenAtMost (limit_of request.now) meter.old meter.new }
    ensures clean { StaysClean S.Store bureau.old.conn bureau.new.conn }
{
    // A law, for the proof: it does nothing.
    kept_offices_run_whole();
    match request {
        Request::Refused(status) => refusal(*status),
        Request::BadDeck(fault) => bad_deck(alloc, *fault),
        Request::Asks(command) => carry_out(alloc, command, bureau, meter),
    }
}

/// The answer where no request was read; `None` if the reader failed.
fn unread(fault: RequestFault) -> Option<Message>
    ensures none { IfNone result (fault ≡ ReadFailed) }
    ensures some { IfSome result (λ message. (fault ≡ NoMemory)
        × IsOfFault Fault.NoMemory message.status (bytes_in message.bytes)) }
{
    match fault {
        RequestFault::NoMemory => Some(fault_message(Fault::NoMemory)),
        RequestFault::ReadFailed => None,
    }
}

/// Reads a request, carries it out and makes the answer; `None` if the reader fails.
pub(crate) fn answer_next<R: Read, S: Alter>(
    alloc: Global,
    routes: &Routes,
    reader: &mut R,
    bureau: &mut Bureau<S>,
    meter: &mut Meter,
) -> Option<Message>
    ensures comes { IfSome result (λ message. Comes S.Store bureau.old.conn bureau.new.conn
        bureau.old.broken bureau.new.broken meter.old meter.new (R.remaining reader.old)
        message.status (bytes_in message.bytes)) }
    ensures works { IfSome result (λ message. HasWorked S.Store bureau.old.conn bureau.new.conn
        bureau.new.broken (TellsRead (R.remaining reader.old) message.status
        (bytes_in message.bytes))) }
    ensures none { IfNone result ((bureau.new ≡ bureau.old) × (meter.new ≡ meter.old)) }
    ensures ended { IsTrue bureau.old.broken → (bureau.new ≡ bureau.old) × (meter.new ≡ meter.old)
        × IfSome result (λ message. ComesOfBroken (R.remaining reader.old) message.status
        (bytes_in message.bytes)) }
    ensures kept { (bureau.new.broken ≡ bureau.old.broken)
        ⊎ IsSomeAnd result (λ message. IsOfFault Fault.Store message.status
        (bytes_in message.bytes)) }
    ensures most { TicksForRead (R.remaining reader.old) meter.old meter.new }
    ensures clean { StaysClean S.Store bureau.old.conn bureau.new.conn }
{
    // A law, for the proof: it does nothing.
    kept_offices_run_whole();
    match Request::read(alloc, routes, reader) {
        Ok(request) => Some(answer(alloc, &request, bureau, meter)),
        Err(fault) => unread(fault),
    }
}
