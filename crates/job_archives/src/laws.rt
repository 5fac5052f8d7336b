//! The laws of what an archive's files hold.

ghost use Rattle.std.specs.{Borrow.{Bor}, Prelude.{◌≡◌, ◌++◌, ℕ, List, [], true, false}};
ghost use Rattle.office.specs.Office.{Entry, Office, own};
ghost use Rattle.office_tables.specs.Standing.{CanBeKept};
ghost use Rattle.job_archives.specs.{
  Archives.{IsReadBack, archive_of},
  Facts.{IsFiled, facts_of},
  Parts.{HasNoJobs, IsWholeInOne, is_among, part_of},
  declared.customers.Customers.{Customers},
};

use office::commands_keep_jobs;

/// The law of reading: the cards that are read in `deck.text` are those of the deck that was handed
/// in, those in `loaded.text` are the ones that the job's machine loads, and those in `cards.punch`
/// and in `cards.text` are the ones that it has punched. (`cards::one_reading` says that a reader
/// returns the cards of which a file is.)
pub fn archives_are_read()
    ensures { (e : Entry) → CanBeKept e.job → IsReadBack e }
{}

/// The law of the whole job: a record alone says what is in it (`specs/Facts.antt`: the job's name, its
/// kind, size and profile, its stretches and flags, and the pocket of each card that it has
/// punched), since two jobs with the same record are the same in all these; and two jobs with the
/// same archive are the same entry. So the entry, and with it the picture of its machine, with all
/// cards and lines, follows from the files of the archive.
pub fn archives_are_whole()
    ensures facts { (e other : Entry) → IsFiled e → IsFiled other
        → (archive_of e).facts ≡ (archive_of other).facts → facts_of e ≡ facts_of other }
    ensures whole { (e other : Entry) → IsFiled e → IsFiled other
        → archive_of e ≡ archive_of other → e ≡ other }
{
    // A law, for the proof: it does nothing.
    commands_keep_jobs();
}

/// The law of parts: what a customer has of an office is whole in a part that has the customer, and
/// another part has nothing of it. So of the two parts that the same names make, theirs and the
/// others', exactly one has all of it.
pub fn parts_keep_customers()
    ensures theirs { (customers : Customers) (customer : List ℕ) (office : Office) →
        is_among customers customer ≡ true
        → own customer (part_of customers office) ≡ own customer office }
    ensures others { (customers : Customers) (customer : List ℕ) (office : Office) →
        is_among customers customer ≡ false → own customer (part_of customers office) ≡ [] }
    ensures one { (names : Bor (List (Bor (List ℕ)))) (customer : List ℕ) (office : Office) →
        IsWholeInOne names customer office }
{}

/// The law of joins: of two offices, the one's jobs and behind them the other's, a customer who has
/// jobs in one alone has those of that one.
pub fn joins_keep_customers()
    ensures first { (customer : List ℕ) (office more : Office) → HasNoJobs more customer
        → own customer (office ++ more) ≡ own customer office }
    ensures second { (customer : List ℕ) (office more : Office) → HasNoJobs office customer
        → own customer (office ++ more) ≡ own customer more }
{}
