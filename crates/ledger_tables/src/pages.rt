//! The statements on the pages of storages.

ghost use Rattle.std.specs.Prelude.{None, Some, ⊤};
ghost use Rattle.ledger_tables.specs.{
  Named.{of_job, HasNoPage, HasPage, with_page_of, ArePages, HaveNumbers},
  Steps.{ChangesAny, FailsOnly, Finds, IsOpenStep, IsStep},
};

use crate::faults::Fault;
use crate::open_tables::OpenTables;
use crate::rows::PageRow;
use sqlite::{Alter, params};
use texts::JobName;

impl<S: Alter> OpenTables<'_, '_, S> {
    /// Deletes the row of a page, if there is one.
    pub fn clear_page(&mut self, name: JobName<'_>, page: u32) -> Result<(), Fault>
        ensures step { IsStep S.Store self.old self.new result }
        ensures cleared { ChangesAny S.Store self.old self.new result
            (λ t. ⊤) (with_page_of name.entry page None) }
    {
        self.run(
            "DELETE FROM pages WHERE customer = ?1 AND number = ?2 AND page = ?3",
            params![name.customer, name.number, page],
        )
    }

    /// Inserts the row of a page that has none.
    pub fn insert_page(&mut self, name: JobName<'_>, page: u32, storage: &[u8]) -> Result<(), Fault>
        ensures step { IsStep S.Store self.old self.new result }
        ensures added { ChangesAny S.Store self.old self.new result
            (HasNoPage name.entry page) (with_page_of name.entry page (Some storage.now)) }
    {
        self.run(
            "INSERT INTO pages (customer, number, page, storage) VALUES (?1, ?2, ?3, ?4)",
            params![name.customer, name.number, page, storage],
        )
    }

    /// Replaces the bytes of a page in its row.
    pub fn replace_page(
        &mut self,
        name: JobName<'_>,
        page: u32,
        storage: &[u8],
    ) -> Result<(), Fault>
        ensures step { IsStep S.Store self.old self.new result }
        ensures replaced { ChangesAny S.Store self.old self.new result
            (HasPage name.entry page) (with_page_of name.entry page (Some storage.now)) }
    {
        self.run(
            "UPDATE pages SET storage = ?4 WHERE customer = ?1 AND number = ?2 AND page = ?3",
            params![name.customer, name.number, page, storage],
        )
    }

    /// The rows of a job's pages, in any order.
    pub fn find_pages(&mut self, name: JobName<'_>) -> Result<Vec<PageRow>, Fault>
        ensures step { IsOpenStep S.Store self.old self.new result }
        ensures found { Finds S.Store self.old self.new result
            (λ t found. ArePages found.items (of_job name.entry t.pages)) }
        ensures failed { FailsOnly S.Store self.old self.new result
            (λ t. HaveNumbers (of_job name.entry t.pages)) }
    {
        self.all(
            "SELECT page, storage FROM pages WHERE customer = ?1 AND number = ?2",
            params![name.customer, name.number],
        )
    }
}
