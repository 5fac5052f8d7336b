//! The law of the ends of requests.

ghost use Rattle.std.specs.Prelude.{◌≡◌, ◌≢◌, ◌⊎◌, ◌↔◌, ◌<◌, ◌≤◌, ◌++◌, ℕ, List, [], length};
ghost use Rattle.httparse.specs.Grammar.{ReadsRequest, RequestHead, print_request};
ghost use Rattle.http_messages.specs.{
  Judging.{BeginsWith, IsRefused, most_bytes},
  Requests.{IsRequestOf},
  declared.request.Request.{Request},
};
ghost use Rattle.bureau_laws.specs.Ends.{EndsWithBody, HasWholeBody, IsTooLarge};

/// The law of the ends of requests: a request that is cut short, in its head or in its body, is
/// refused with 400, and asks for nothing. If its head is too large, it is refused with 400 or 431,
/// and with 431 if the whole head is there or as many bytes as a head may have. Bytes after the
/// body of a request, or after a head that is refused, do not matter.
pub fn requests_end()
    ensures cut { (front back : List ℕ) (r : Request) → EndsWithBody (front ++ back) → back ≢ [] →
        IsRequestOf front r ↔ (r ≡ Request.Refused 400) }
    ensures cut_head { (front back : List ℕ) (h : RequestHead) (r : Request) →
        BeginsWith (front ++ back) h → length front < length (print_request h) →
        IsRequestOf front r ↔ (r ≡ Request.Refused 400) }
    ensures large { (front back : List ℕ) (h : RequestHead) (rest : List ℕ) (r : Request) →
        ReadsRequest (front ++ back) h rest → IsTooLarge h → IsRequestOf front r →
        (r ≡ Request.Refused 400) ⊎ (r ≡ Request.Refused 431) }
    ensures too_large { (front back : List ℕ) (h : RequestHead) (rest : List ℕ) (r : Request) →
        ReadsRequest (front ++ back) h rest → IsTooLarge h →
        (length (print_request h) ≤ length front) ⊎ (most_bytes ≤ length front) →
        IsRequestOf front r → r ≡ Request.Refused 431 }
    ensures more { (input more : List ℕ) (r : Request) → HasWholeBody input →
        IsRequestOf input r ↔ IsRequestOf (input ++ more) r }
    ensures after_head { (input : List ℕ) (h : RequestHead) (status : ℕ) (r : Request) →
        BeginsWith input h → IsRefused h status →
        IsRequestOf input r ↔ (r ≡ Request.Refused status) }
{}
