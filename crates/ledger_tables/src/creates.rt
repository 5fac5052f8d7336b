//! Creating the tables.
//!
//! Every table but `bureau` and `jobs` refers to its job by a foreign key, and `pockets` to the
//! card. All columns are NOT NULL, and the tables are STRICT.

ghost use Rattle.std.specs.Prelude.{◌≡◌, ℕ, true, false, List, [], ◌∷◌, codes, IfErr, IsTrue, OnOk};
ghost use Rattle.ledger_tables.specs.{
  Schema.{no_schema, up_to_bureau, up_to_jobs, up_to_stretches, up_to_pictures, up_to_cards, first_schema, up_to_states, raising_schema, new_up_to_profiles, new_up_to_pockets, bureau_schema},
  Making.{AreMade, Makes, AddsNames, IsStopped, is_taken, table_names},
  Steps.{Inside, IsStep},
  Raising.{HasNewStates, HasNewTables},
  Tables.{ByJob, Holds, HoldsAs, HoldsFirst, Tables, complete, no_rows, paged, pictured, profiled, without_profiles},
};

use crate::faults::Fault;
use crate::open_tables::OpenTables;
use crate::openings::VERSION;
use sqlite::{Alter, params};

impl<S: Alter> OpenTables<'_, '_, S> {
    fn make_bureau(&mut self) -> Result<(), Fault>
        ensures step { IsStep S.Store self.old self.new result }
        ensures made { Makes S.Store self.old self.new result no_schema up_to_bureau }
        ensures named { Inside S.Store self.old self.new
            (λ old new. AddsNames (codes "bureau" ∷ []) old new result) }
    {
        self.run(
            "CREATE TABLE bureau (id INTEGER NOT NULL PRIMARY KEY, \
             version INTEGER NOT NULL) STRICT",
            &[],
        )
    }

    fn make_jobs(&mut self) -> Result<(), Fault>
        ensures step { IsStep S.Store self.old self.new result }
        ensures made { Makes S.Store self.old self.new result up_to_bureau up_to_jobs }
        ensures named { Inside S.Store self.old self.new
            (λ old new. AddsNames (codes "jobs" ∷ []) old new result) }
    {
        self.run(
            "CREATE TABLE jobs (customer TEXT NOT NULL, number INTEGER NOT NULL, \
             kind INTEGER NOT NULL, size INTEGER NOT NULL, deck BLOB NOT NULL, \
             loaded BLOB NOT NULL, held INTEGER NOT NULL, collected INTEGER NOT NULL, \
             PRIMARY KEY (customer, number)) STRICT",
            &[],
        )
    }

    fn make_stretches(&mut self) -> Result<(), Fault>
        ensures step { IsStep S.Store self.old self.new result }
        ensures made { Makes S.Store self.old self.new result up_to_jobs up_to_stretches }
        ensures named { Inside S.Store self.old self.new
            (λ old new. AddsNames (codes "stretches" ∷ []) old new result) }
    {
        self.run(
            "CREATE TABLE stretches (customer TEXT NOT NULL, number INTEGER NOT NULL, \
             place INTEGER NOT NULL, switches INTEGER NOT NULL, granted INTEGER NOT NULL, \
             PRIMARY KEY (customer, number, place), \
             FOREIGN KEY (customer, number) REFERENCES jobs (customer, number)) STRICT",
            &[],
        )
    }

    fn make_pictures(&mut self) -> Result<(), Fault>
        ensures step { IsStep S.Store self.old self.new result }
        ensures made { Makes S.Store self.old self.new result up_to_stretches up_to_pictures }
        ensures named { Inside S.Store self.old self.new
            (λ old new. AddsNames (codes "pictures" ∷ []) old new result) }
    {
        self.run(
            "CREATE TABLE pictures (customer TEXT NOT NULL, number INTEGER NOT NULL, \
             storage BLOB NOT NULL, i INTEGER NOT NULL, a INTEGER NOT NULL, b INTEGER NOT NULL, \
             compare INTEGER NOT NULL, overflow INTEGER NOT NULL, channel INTEGER NOT NULL, \
             waiting INTEGER NOT NULL, form INTEGER NOT NULL, line INTEGER NOT NULL, \
             taken INTEGER NOT NULL, cards INTEGER NOT NULL, lines INTEGER NOT NULL, \
             standing INTEGER NOT NULL, PRIMARY KEY (customer, number), \
             FOREIGN KEY (customer, number) REFERENCES jobs (customer, number)) STRICT",
            &[],
        )
    }

    fn make_cards(&mut self) -> Result<(), Fault>
        ensures step { IsStep S.Store self.old self.new result }
        ensures made { Makes S.Store self.old self.new result up_to_pictures up_to_cards }
        ensures named { Inside S.Store self.old self.new
            (λ old new. AddsNames (codes "cards" ∷ []) old new result) }
    {
        self.run(
            "CREATE TABLE cards (customer TEXT NOT NULL, number INTEGER NOT NULL, \
             place INTEGER NOT NULL, card BLOB NOT NULL, PRIMARY KEY (customer, number, place), \
             FOREIGN KEY (customer, number) REFERENCES jobs (customer, number)) STRICT",
            &[],
        )
    }

    fn make_lines(&mut self) -> Result<(), Fault>
        ensures step { IsStep S.Store self.old self.new result }
        ensures made { Makes S.Store self.old self.new result up_to_cards first_schema }
        ensures named { Inside S.Store self.old self.new
            (λ old new. AddsNames (codes "lines" ∷ []) old new result) }
    {
        self.run(
            "CREATE TABLE lines (customer TEXT NOT NULL, number INTEGER NOT NULL, \
             place INTEGER NOT NULL, form INTEGER NOT NULL, line INTEGER NOT NULL, \
             image BLOB NOT NULL, PRIMARY KEY (customer, number, place), \
             FOREIGN KEY (customer, number) REFERENCES jobs (customer, number)) STRICT",
            &[],
        )
    }

    /// Creates the table of states.
    pub(crate) fn make_states(&mut self) -> Result<(), Fault>
        ensures step { IsStep S.Store self.old self.new result }
        ensures made { Makes S.Store self.old self.new result first_schema up_to_states }
        ensures named { Inside S.Store self.old self.new
            (λ old new. AddsNames (codes "states" ∷ []) old new result) }
        ensures beside { Inside S.Store self.old self.new (λ old new. OnOk result ((t : Tables)
            → (storages : ByJob (List ℕ)) → (IsTrue old.is_open → HoldsFirst old.now t storages)
            → HasNewStates new.now t storages)) }
    {
        self.run(
            "CREATE TABLE states (customer TEXT NOT NULL, number INTEGER NOT NULL, \
             i INTEGER NOT NULL, a INTEGER NOT NULL, b INTEGER NOT NULL, \
             compare INTEGER NOT NULL, overflow INTEGER NOT NULL, channel INTEGER NOT NULL, \
             waiting INTEGER NOT NULL, form INTEGER NOT NULL, line INTEGER NOT NULL, \
             taken INTEGER NOT NULL, cards INTEGER NOT NULL, lines INTEGER NOT NULL, \
             standing INTEGER NOT NULL, PRIMARY KEY (customer, number), \
             FOREIGN KEY (customer, number) REFERENCES jobs (customer, number)) STRICT",
            &[],
        )
    }

    /// Creates the table of pages.
    pub(crate) fn make_pages(&mut self) -> Result<(), Fault>
        ensures step { IsStep S.Store self.old self.new result }
        ensures made { Makes S.Store self.old self.new result up_to_states raising_schema }
        ensures named { Inside S.Store self.old self.new
            (λ old new. AddsNames (codes "pages" ∷ []) old new result) }
        ensures beside { Inside S.Store self.old self.new (λ old new. OnOk result ((t : Tables)
            → (storages : ByJob (List ℕ)) → HasNewStates old.now t storages
            → HasNewTables new.now t storages)) }
    {
        self.run(
            "CREATE TABLE pages (customer TEXT NOT NULL, number INTEGER NOT NULL, \
             page INTEGER NOT NULL, storage BLOB NOT NULL, PRIMARY KEY (customer, number, page), \
             FOREIGN KEY (customer, number) REFERENCES jobs (customer, number)) STRICT",
            &[],
        )
    }

    /// Creates the table of profiles.
    pub(crate) fn make_profiles(&mut self) -> Result<(), Fault>
        ensures step { IsStep S.Store self.old self.new result }
        ensures made { Makes S.Store self.old self.new result raising_schema new_up_to_profiles }
        ensures named { Inside S.Store self.old self.new
            (λ old new. AddsNames (codes "profiles" ∷ []) old new result) }
        ensures beside { Inside S.Store self.old self.new (λ old new. OnOk result ((t : Tables)
            → (version : ℕ) → (IsTrue old.is_open → HoldsAs paged version old.now t)
            → HoldsAs profiled version new.now t)) }
    {
        self.run(
            "CREATE TABLE profiles (customer TEXT NOT NULL, number INTEGER NOT NULL, \
             profile INTEGER NOT NULL, chosen INTEGER NOT NULL, PRIMARY KEY (customer, number), \
             FOREIGN KEY (customer, number) REFERENCES jobs (customer, number)) STRICT",
            &[],
        )
    }

    /// Creates the table of pockets.
    pub(crate) fn make_pockets(&mut self) -> Result<(), Fault>
        ensures step { IsStep S.Store self.old self.new result }
        ensures made { Makes S.Store self.old self.new result
            new_up_to_profiles new_up_to_pockets }
        ensures named { Inside S.Store self.old self.new
            (λ old new. AddsNames (codes "pockets" ∷ []) old new result) }
        ensures beside { Inside S.Store self.old self.new (λ old new. OnOk result ((t : Tables)
            → (version : ℕ) → HoldsAs profiled version old.now t
            → HoldsAs complete version new.now (without_profiles t))) }
    {
        self.run(
            "CREATE TABLE pockets (customer TEXT NOT NULL, number INTEGER NOT NULL, \
             place INTEGER NOT NULL, pocket INTEGER NOT NULL, \
             PRIMARY KEY (customer, number, place), \
             FOREIGN KEY (customer, number, place) \
             REFERENCES cards (customer, number, place)) STRICT",
            &[],
        )
    }

    /// Drops the table of pictures.
    pub fn drop_pictures(&mut self) -> Result<(), Fault>
        ensures step { IsStep S.Store self.old self.new result }
        ensures made { Makes S.Store self.old self.new result new_up_to_pockets bureau_schema }
        ensures dropped { Inside S.Store self.old self.new (λ old new. OnOk result ((t : Tables)
            → (storages : ByJob (List ℕ)) → (version : ℕ)
            → HoldsAs (pictured storages) version old.now t
            → HoldsAs paged version new.now t)) }
    {
        self.run("DROP TABLE pictures", &[])
    }

    /// Inserts the version of the tables.
    fn insert_version(&mut self) -> Result<(), Fault>
        ensures step { IsStep S.Store self.old self.new result }
        ensures made { Inside S.Store self.old self.new
            (λ old new. OnOk result (AreMade old.now bureau_schema → Holds new.now no_rows)) }
    {
        self.run(
            "INSERT INTO bureau (id, version) VALUES (?1, ?2)",
            params![1u32, VERSION],
        )
    }

    /// Creates the tables of the jobs themselves.
    fn make_upper(&mut self) -> Result<(), Fault>
        ensures step { IsStep S.Store self.old self.new result }
        ensures made { Makes S.Store self.old self.new result no_schema up_to_stretches }
        ensures named { Inside S.Store self.old self.new (λ old new.
            AddsNames (codes "bureau" ∷ codes "jobs" ∷ codes "stretches" ∷ []) old new result) }
    {
        self.make_bureau()?;
        self.make_jobs()?;
        self.make_stretches()
    }

    /// Creates the tables of what the machine does, as version 1 has them.
    fn make_lower(&mut self) -> Result<(), Fault>
        ensures step { IsStep S.Store self.old self.new result }
        ensures made { Makes S.Store self.old self.new result up_to_stretches first_schema }
        ensures named { Inside S.Store self.old self.new (λ old new.
            AddsNames (codes "pictures" ∷ codes "cards" ∷ codes "lines" ∷ []) old new result) }
    {
        self.make_pictures()?;
        self.make_cards()?;
        self.make_lines()
    }

    /// Creates the tables of version 1.
    fn make_first(&mut self) -> Result<(), Fault>
        ensures step { IsStep S.Store self.old self.new result }
        ensures made { Makes S.Store self.old self.new result no_schema first_schema }
        ensures named { Inside S.Store self.old self.new (λ old new. AddsNames
            (codes "bureau" ∷ codes "jobs" ∷ codes "stretches" ∷ codes "pictures"
            ∷ codes "cards" ∷ codes "lines" ∷ []) old new result) }
    {
        self.make_upper()?;
        self.make_lower()
    }

    /// Creates the later tables beside those of version 1.
    fn make_later(&mut self) -> Result<(), Fault>
        ensures step { IsStep S.Store self.old self.new result }
        ensures made { Makes S.Store self.old self.new result first_schema new_up_to_pockets }
        ensures named { Inside S.Store self.old self.new (λ old new.
            AddsNames (codes "states" ∷ codes "pages" ∷ codes "profiles" ∷ codes "pockets" ∷ [])
            old new result) }
    {
        self.make_states()?;
        self.make_pages()?;
        self.make_profiles()?;
        self.make_pockets()
    }

    /// Creates the tables of version 1 and the later ones.
    fn make_all(&mut self) -> Result<(), Fault>
        ensures step { IsStep S.Store self.old self.new result }
        ensures made { Makes S.Store self.old self.new result no_schema new_up_to_pockets }
        ensures named { Inside S.Store self.old self.new
            (λ old new. AddsNames table_names old new result) }
    {
        self.make_first()?;
        self.make_later()
    }

    /// Creates the tables of a bureau without jobs, in a database without tables. They are made as
    /// those of a file of version 1 are raised, so that each file has one schema. It fails if one
    /// of their names is taken.
    pub fn make(&mut self) -> Result<(), Fault>
        ensures step { IsStep S.Store self.old self.new result }
        ensures made { Inside S.Store self.old self.new
            (λ old new. OnOk result (old.now.schema ≡ no_schema → Holds new.now no_rows)) }
        ensures new { Inside S.Store self.old self.new
            (λ old new. OnOk result (is_taken old.now.schema ≡ false)) }
        ensures taken { Inside S.Store self.old self.new (λ old new.
            IfErr result (λ fault. is_taken old.now.schema ≡ true → IsStopped old new fault)) }
    {
        self.make_all()?;
        self.drop_pictures()?;
        self.insert_version()
    }
}
