//! The lists of jobs: a customer's, and the queue.

ghost use Rattle.std.specs.{Prelude.{◌≡◌, ◌++◌, [], map}, List.{AllByRecursion}};
ghost use Rattle.office.specs.{
  Office.{Entry, Office, jobs_listed, queue_listed},
  declared.replies.Reply.{Reply},
};
ghost use Rattle.ledger_tables.specs.{Listed.{name_row, queued_name}, Steps.{IsStep, IsOpenStep}};
ghost use Rattle.ledger.specs.{
  Listed.{AreListable, IsHis, HasLine, HasLines, IsIts, IsQueued, AreQueued, with_jobs_told, with_queue_told},
  Standing.{named},
  Steps.{FindsIn, FailsWhere, Serves},
};

use crate::reading::stored;
use crate::summaries::find_standing;
use ledger_rows::read_truth;
use ledger_tables::{Fault, NameRow, OpenTables, QueuedRow};
use office::{JobLine, JobList, QueueLine, QueueList, Reply};
use sqlite::Alter;
use texts::JobName;

/// The entry of this row's job in the list of a customer's jobs.
fn find_line<S: Alter>(
    tables: &mut OpenTables<'_, '_, S>,
    customer: &str,
    row: &NameRow,
) -> Result<JobLine, Fault>
    ensures step { IsOpenStep S.Store tables.old tables.new result }
    ensures found { FindsIn S.Store tables.old tables.new result
        (λ office found. HasLine customer.now row.now office found) }
    ensures failed { (e : Entry) → row.now ≡ name_row (named e)
        → FailsWhere S.Store tables.old tables.new result
        (λ office. IsHis customer.now office e) }
{
    let (Some(held), Some(collected)) = (read_truth(row.held), read_truth(row.collected)) else {
        return Err(Fault::Store);
    };
    let name = JobName {
        customer,
        number: row.number,
    };
    Ok(JobLine {
        number: row.number,
        held,
        collected,
        standing: find_standing(tables, name)?,
    })
}

/// The entries of these rows' jobs in the list of a customer's jobs.
fn find_lines<S: Alter>(
    tables: &mut OpenTables<'_, '_, S>,
    customer: &str,
    rows: &[NameRow],
) -> Result<Vec<JobLine>, Fault>
    ensures step { IsStep S.Store tables.old tables.new result }
    ensures found { FindsIn S.Store tables.old tables.new result
        (λ office found. HasLines customer.now rows.now office found.items) }
    ensures failed { (entries : Office)
        → rows.now ≡ map (λ e. name_row (named e)) entries
        → FailsWhere S.Store tables.old tables.new result
        (λ office. AllByRecursion (IsHis customer.now office) entries) }
{
    let mut lines = Vec::new(tables.alloc);
    for row in rows {
        let line = find_line(tables, customer, row)?;
        lines.try_reserve(1)?;
        lines.push_reserved(line);
    }
    Ok(lines)
}

/// Returns the list of a customer's jobs, or fault 1 or 2.
pub fn list_jobs<S: Alter>(
    tables: &mut OpenTables<'_, '_, S>,
    customer: &str,
) -> Result<Reply, Fault>
    ensures step { IsOpenStep S.Store tables.old tables.new result }
    ensures done { Serves S.Store tables.old tables.new result (with_jobs_told customer.now) }
    ensures failed { FailsWhere S.Store tables.old tables.new result AreListable }
{
    let rows = tables.job_names_of(customer)?;
    let lines = find_lines(tables, customer, rows.as_slice())?;
    Ok(Reply::Jobs(JobList(lines)))
}

/// Adds the job of this row to the queue, unless it is held.
fn queue_free<S: Alter>(
    tables: &mut OpenTables<'_, '_, S>,
    row: &QueuedRow,
    queue: &mut Vec<QueueLine>,
) -> Result<(), Fault>
    ensures step { IsOpenStep S.Store tables.old tables.new result }
    ensures found { FindsIn S.Store tables.old tables.new result
        (λ office _. IsQueued row.now office queue.old.items queue.new.items) }
    ensures failed { (e : Entry) → row.now ≡ queued_name (named e)
        → FailsWhere S.Store tables.old tables.new result (λ office. IsIts office e) }
{
    let name = JobName {
        customer: row.customer.as_str(),
        number: row.number,
    };
    let found = tables.find_loaded(name)?;
    let job = stored(found)?;
    let held = stored(read_truth(job.held))?;
    if held {
        return Ok(());
    }
    let customer = String::from_str(tables.alloc, row.customer.as_str())?;
    queue.try_reserve(1)?;
    queue.push_reserved(QueueLine {
        customer,
        number: row.number,
    });
    Ok(())
}

/// The jobs of these rows that are not held.
fn find_queue<S: Alter>(
    tables: &mut OpenTables<'_, '_, S>,
    rows: &[QueuedRow],
) -> Result<Vec<QueueLine>, Fault>
    ensures step { IsStep S.Store tables.old tables.new result }
    ensures found { FindsIn S.Store tables.old tables.new result
        (λ office found. AreQueued rows.now office found.items) }
    ensures failed { (entries : Office)
        → rows.now ≡ map (λ e. queued_name (named e)) entries
        → FailsWhere S.Store tables.old tables.new result
        (λ office. AllByRecursion (IsIts office) entries) }
{
    let mut queue = Vec::new(tables.alloc);
    for row in rows {
        queue_free(tables, row, &mut queue)?;
    }
    Ok(queue)
}

/// Returns the queue, or fault 1 or 2.
pub fn list_queue<S: Alter>(tables: &mut OpenTables<'_, '_, S>) -> Result<Reply, Fault>
    ensures step { IsOpenStep S.Store tables.old tables.new result }
    ensures done { Serves S.Store tables.old tables.new result with_queue_told }
    ensures failed { FailsWhere S.Store tables.old tables.new result AreListable }
{
    let rows = tables.running_names()?;
    let queue = find_queue(tables, rows.as_slice())?;
    Ok(Reply::Queue(QueueList(queue)))
}
