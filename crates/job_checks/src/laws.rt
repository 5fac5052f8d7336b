//! What a bureau's database gives of its rows by the rules of its schema.

ghost use Rattle.std.specs.Prelude.{◌≡◌, ℕ, List, [], ◌∷◌, drop, pos};
ghost use Rattle.sqlite.specs.{
  Effect.{Database},
  Order.{Row, column},
  declared.types.Value.TheVariants.{Int, Text},
};
ghost use Rattle.job_checks.specs.{
  Kept.{AreOwned, AreNamedApart},
  Tables.{HasRows, WholeTables, rows_of},
};

/// The law of owners: in a bureau's database each row of the other tables names a job.
pub fn rows_name_jobs()
    ensures { (db : Database) → (all : WholeTables) → HasRows db all → AreOwned all }
{}

/// The law of names: in a bureau's database no two rows of `jobs` have the same customer and
/// number, so none after a job's row has its name.
pub fn jobs_have_names_of_their_own()
    ensures apart { (db : Database) → (all : WholeTables) → HasRows db all
        → AreNamedApart all.jobs }
    ensures later { (db : Database) → (all : WholeTables) → HasRows db all
        → (later : List Row) → (it : Row) → (at : ℕ) → drop at all.jobs ≡ it ∷ later
        → (customer : List ℕ) → (number : ℕ)
        → column it 0 ≡ Text customer → column it 1 ≡ Int (pos number)
        → rows_of customer number later ≡ [] }
{}
