//! Answers that are fixed, and take no memory.

ghost use Rattle.std.specs.Prelude.{◌≡◌};
ghost use Rattle.http_messages.specs.{
  Fixed.{fault_bytes, fault_number, fault_status, refusing_status},
  Replies.{refused_bytes},
};

use http::StatusCode;

/// Why a request has no other answer: a fault of the bureau itself.
#[derive(Clone, Copy, Debug, PartialEq, Eq)]
pub enum Fault {
    /// There was no memory for the command; it changed nothing.
    NoMemory,
    /// The store failed.
    Store,
    /// The command was carried out, and there was no memory for its reply.
    NoMemoryForReply,
}

/// The answer of status 400.
const BAD_REQUEST: &[u8] = b"HTTP/1.1 400 Bad Request\r\n\
    Content-Type: application/json\r\n\
    Content-Length: 14\r\n\
    Connection: close\r\n\
    \r\n\
    {\"status\":400}";

/// The answer of status 404.
const NOT_FOUND: &[u8] = b"HTTP/1.1 404 Not Found\r\n\
    Content-Type: application/json\r\n\
    Content-Length: 14\r\n\
    Connection: close\r\n\
    \r\n\
    {\"status\":404}";

/// The answer of status 405.
const METHOD_NOT_ALLOWED: &[u8] = b"HTTP/1.1 405 Method Not Allowed\r\n\
    Content-Type: application/json\r\n\
    Content-Length: 14\r\n\
    Connection: close\r\n\
    \r\n\
    {\"status\":405}";

/// The answer of status 411.
const LENGTH_REQUIRED: &[u8] = b"HTTP/1.1 411 Length Required\r\n\
    Content-Type: application/json\r\n\
    Content-Length: 14\r\n\
    Connection: close\r\n\
    \r\n\
    {\"status\":411}";

/// The answer of status 413.
const PAYLOAD_TOO_LARGE: &[u8] = b"HTTP/1.1 413 Payload Too Large\r\n\
    Content-Type: application/json\r\n\
    Content-Length: 14\r\n\
    Connection: close\r\n\
    \r\n\
    {\"status\":413}";

/// The answer of status 431.
const TOO_LARGE_FIELDS: &[u8] = b"HTTP/1.1 431 Request Header Fields Too Large\r\n\
    Content-Type: application/json\r\n\
    Content-Length: 14\r\n\
    Connection: close\r\n\
    \r\n\
    {\"status\":431}";

/// The answer to a command for which there was no memory.
const NO_MEMORY: &[u8] = b"HTTP/1.1 503 Service Unavailable\r\n\
    Content-Type: application/json\r\n\
    Content-Length: 11\r\n\
    Connection: close\r\n\
    \r\n\
    {\"fault\":1}";

/// The answer if the store failed.
const STORE: &[u8] = b"HTTP/1.1 503 Service Unavailable\r\n\
    Content-Type: application/json\r\n\
    Content-Length: 11\r\n\
    Connection: close\r\n\
    \r\n\
    {\"fault\":2}";

/// The answer if there was no memory for a reply.
const NO_MEMORY_FOR_REPLY: &[u8] = b"HTTP/1.1 500 Internal Server Error\r\n\
    Content-Type: application/json\r\n\
    Content-Length: 11\r\n\
    Connection: close\r\n\
    \r\n\
    {\"fault\":3}";

/// The answer that refuses a request by its status alone: 400, 404, 405, 411, 413 or 431. For any
/// other status it is the answer of 400.
pub fn refusal_answer(status: StatusCode) -> &'static [u8]
    ensures { result.now ≡ refused_bytes (refusing_status status) }
{
    match status.as_u16() {
        404 => NOT_FOUND,
        405 => METHOD_NOT_ALLOWED,
        411 => LENGTH_REQUIRED,
        413 => PAYLOAD_TOO_LARGE,
        431 => TOO_LARGE_FIELDS,
        _ => BAD_REQUEST,
    }
}

impl Fault {
    /// The number of the fault.
    pub fn number(self) -> u8
        ensures { result ≡ fault_number self }
    {
        match self {
            Fault::NoMemory => 1,
            Fault::Store => 2,
            Fault::NoMemoryForReply => 3,
        }
    }

    /// The status of its answer.
    pub fn status(self) -> StatusCode
        ensures { result ≡ fault_status self }
    {
        match self {
            Fault::NoMemory | Fault::Store => StatusCode::SERVICE_UNAVAILABLE,
            Fault::NoMemoryForReply => StatusCode::INTERNAL_SERVER_ERROR,
        }
    }

    /// Its answer.
    pub fn answer(self) -> &'static [u8]
        ensures { result.now ≡ fault_bytes self }
    {
        match self {
            Fault::NoMemory => NO_MEMORY,
            Fault::Store => STORE,
            Fault::NoMemoryForReply => NO_MEMORY_FOR_REPLY,
        }
    }
}
