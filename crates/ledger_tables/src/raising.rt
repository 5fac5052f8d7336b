//! Making the tables of an earlier version those of this one.
//!
//! The caller goes through the jobs of version 1 in turn, and puts the pages of each storage
//! between [`OpenTables::lay_out`] and [`OpenTables::drop_pictures`].
//! [`OpenTables::add_profiles`] is the last step but one from each version, before
//! [`OpenTables::set_version`].

ghost use Rattle.std.specs.Prelude.{◌≡◌, ℕ, IfOk, IsTrue, List, OnOk};
ghost use Rattle.sqlite.specs.State.{IsUnchanged};
ghost use Rattle.ledger_tables.specs.{
  Raising.{HasNewTables, all_names, storage_of, with_plain_profiles, without_blank_pages},
  Schema.{own_version},
  Steps.{Inside, IsOpenStep, IsStep},
  Tables.{ByJob, HoldsAs, HoldsFirst, Tables, complete, paged, pictured, without_pages, without_profiles},
};

use crate::faults::Fault;
use crate::open_tables::OpenTables;
use crate::openings::VERSION;
use crate::rows::{QueuedRow, StorageRow};
use sqlite::{Alter, params};
use texts::JobName;

/// The bytes of a page in which each position is blank and has no mark.
const BLANK: [u8; 100] = [0; 100];

impl<S: Alter> OpenTables<'_, '_, S> {
    /// Copies each row of `pictures`, without its storage, to the new table of states.
    fn copy_pictures(&mut self) -> Result<(), Fault>
        ensures step { IsStep S.Store self.old self.new result }
        ensures copied { Inside S.Store self.old self.new (λ old new. OnOk result ((t : Tables)
            → (storages : ByJob (List ℕ)) → HasNewTables old.now t storages
            → HoldsAs (pictured storages) 1 new.now (without_pages t))) }
    {
        self.run(
            "INSERT INTO states (customer, number, i, a, b, compare, overflow, channel, waiting, \
             form, line, taken, cards, lines, standing) \
             SELECT customer, number, i, a, b, compare, overflow, channel, waiting, \
             form, line, taken, cards, lines, standing FROM pictures ORDER BY rowid",
            &[],
        )
    }

    /// Makes the tables of states and of pages beside those of version 1. The states are those of
    /// `pictures`; there is no page yet.
    pub fn lay_out(&mut self) -> Result<(), Fault>
        ensures step { IsStep S.Store self.old self.new result }
        ensures laid { Inside S.Store self.old self.new (λ old new. OnOk result ((t : Tables)
            → (storages : ByJob (List ℕ)) → (IsTrue old.is_open → HoldsFirst old.now t storages)
            → HoldsAs (pictured storages) 1 new.now (without_pages t))) }
    {
        self.make_states()?;
        self.make_pages()?;
        self.copy_pictures()
    }

    /// The names of all jobs of version 1, in the order in which they were taken.
    pub fn names_pictured(&mut self) -> Result<Vec<QueuedRow>, Fault>
        ensures step { IsOpenStep S.Store self.old self.new result }
        ensures found { Inside S.Store self.old self.new (λ old new. IfOk result (λ names.
            (t : Tables) → (storages : ByJob (List ℕ)) → (version : ℕ)
            → HoldsAs (pictured storages) version old.now t
            → IsUnchanged old new × (names.items ≡ all_names t))) }
    {
        self.all(
            "SELECT customer, number FROM jobs ORDER BY rowid",
            params![],
        )
    }

    /// The storage of a job of version 1, if it has a picture.
    pub fn find_storage(&mut self, name: JobName<'_>) -> Result<Option<StorageRow>, Fault>
        ensures step { IsOpenStep S.Store self.old self.new result }
        ensures found { Inside S.Store self.old self.new (λ old new. IfOk result (λ found.
            (t : Tables) → (storages : ByJob (List ℕ)) → (version : ℕ)
            → HoldsAs (pictured storages) version old.now t
            → IsUnchanged old new × (found ≡ storage_of name.entry storages t))) }
    {
        self.one(
            "SELECT storage FROM pictures WHERE customer = ?1 AND number = ?2",
            params![name.customer, name.number],
        )
    }

    /// Deletes the rows of all blank pages, which version 2 has.
    pub fn clear_blank_pages(&mut self) -> Result<(), Fault>
        ensures step { IsStep S.Store self.old self.new result }
        ensures cleared { Inside S.Store self.old self.new (λ old new. OnOk result ((t : Tables)
            → (version : ℕ) → (IsTrue old.is_open → HoldsAs paged version old.now t)
            → HoldsAs paged version new.now (without_blank_pages t))) }
    {
        self.run("DELETE FROM pages WHERE storage = ?1", params![&BLANK[..]])
    }

    /// Gives each job profile 1, and no pocket chosen, in the new table of profiles.
    fn copy_profiles(&mut self) -> Result<(), Fault>
        ensures step { IsStep S.Store self.old self.new result }
        ensures copied { Inside S.Store self.old self.new (λ old new. OnOk result ((t : Tables)
            → (version : ℕ) → HoldsAs complete version old.now (without_profiles t)
            → HoldsAs complete version new.now (with_plain_profiles t))) }
    {
        self.run(
            "INSERT INTO profiles (customer, number, profile, chosen) \
             SELECT customer, number, 1, 0 FROM jobs ORDER BY rowid",
            &[],
        )
    }

    /// Makes the tables of profiles and of pockets beside those of version 3. Each job has profile
    /// 1, and each card is in the normal pocket.
    pub fn add_profiles(&mut self) -> Result<(), Fault>
        ensures step { IsStep S.Store self.old self.new result }
        ensures added { Inside S.Store self.old self.new (λ old new. OnOk result ((t : Tables)
            → (version : ℕ) → (IsTrue old.is_open → HoldsAs paged version old.now t)
            → HoldsAs complete version new.now (with_plain_profiles t))) }
    {
        self.make_profiles()?;
        self.make_pockets()?;
        self.copy_profiles()
    }

    /// Marks the tables as of this program's version.
    pub fn set_version(&mut self) -> Result<(), Fault>
        ensures step { IsStep S.Store self.old self.new result }
        ensures set { Inside S.Store self.old self.new (λ old new. OnOk result ((t : Tables)
            → (version : ℕ) → HoldsAs complete version old.now t
            → HoldsAs complete own_version new.now t)) }
    {
        self.run("UPDATE bureau SET version = ?1", params![VERSION])
    }
}
