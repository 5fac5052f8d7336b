//! The laws of names and of reason phrases.

ghost use Rattle.std.specs.Prelude.{◌≡◌, ◌++◌, Some, true, ℕ, codes, decimal};
ghost use Rattle.texts.specs.Names.{is_customer};
ghost use Rattle.office.specs.Queued.{QueuedJob};
ghost use Rattle.http.specs.StatusCode.{IsStatusCode, reason_phrase};
ghost use Rattle.http_messages.specs.{ReplyBodies.{queued_text}, Replies.{HasPhrase, phrase_of}};

/// The law of names: a customer's name is in the queue's body unchanged, between quotation marks.
pub fn names_stand_as_they_are()
    ensures { (job : QueuedJob) → is_customer job.customer ≡ true → queued_text job
        ≡ codes "{\"customer\":\"" ++ job.customer ++ codes "\",\"number\":" ++ decimal job.number
        ++ codes "}" }
{}

/// The law of reason phrases: the phrase of each status that is answered is the one that `http` has
/// for it.
pub fn phrases_are_standard()
    ensures { (status : ℕ) → HasPhrase status
        → IsStatusCode status × (reason_phrase status ≡ Some (phrase_of status)) }
{}
