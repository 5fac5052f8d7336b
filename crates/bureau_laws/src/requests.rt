//! The law of requests.

ghost use Rattle.std.specs.Prelude.{◌≡◌, ℕ, List};
ghost use Rattle.httparse.specs.Grammar.{ReadsRequest, RequestHead};
ghost use Rattle.http_messages.specs.{Requests.{IsRequestOf}, declared.request.Request.{Request}};
ghost use Rattle.bureau_laws.specs.Same.{IsSameRequest};

use cards::one_reading;

/// The law of requests: bytes are read as one request. They are refused, or the text of their deck
/// has a fault, or they ask for a command, and it is the same status, fault or command each time;
/// only bytes that begin with no head may be refused with both 400 and 431.
pub fn one_request()
    ensures same { (input : List ℕ) (one other : Request) →
        IsRequestOf input one → IsRequestOf input other → IsSameRequest one other }
    ensures of_head { (input : List ℕ) (h : RequestHead) (rest : List ℕ) (one other : ℕ) →
        ReadsRequest input h rest → IsRequestOf input (Request.Refused one) →
        IsRequestOf input (Request.Refused other) → one ≡ other }
{
    one_reading();
}
