//! Both doors of the bureau: a request that is answered, and a script that is carried out.
//!
//! [`exchange`] reads one request over HTTP, has the bureau carry out its command, and writes the
//! answer. The bytes of a reply are made after its command was carried out; the answers if there is
//! no memory or the store failed are fixed, and take none. If the bureau's tables represent an
//! office, the answer is the one to the request that was read, and the tables represent the office
//! after it, even if the writer fails.
//!
//! [`script`] reads a whole script, and carries its commands out in order: each is applied, and the
//! line of its reply is written before the next. Whatever office the tables represented, the lines
//! are those of its replies, the tables represent the office after the commands that were replied
//! to, and a crash leaves the office after a beginning of the commands that contains every one that
//! was replied to. Bytes that are not a script change nothing.
//!
//! Both work over any reader, writer and store. `specs/Answers.antt` defines the answer to each
//! request, `specs/Exchanges.antt` how an exchange may end, `specs/Running.antt` what a script
//! does.
#![tactic(auto)]

mod answering;
mod applying;
mod exchange_ends;
mod exchanging;
mod laws;
mod messages;
mod running;
mod script_ends;
mod steps;

pub use exchange_ends::Exchange;
pub use exchanging::exchange;
pub use running::script;
pub use script_ends::{ScriptEnd, Scripted};
