//! The comparison of a bureau with two others that it is made of, one job after the other.

ghost use Rattle.std.specs.Prelude.{◌≡◌, ◌↔◌, ◌++◌, IsTrue};
ghost use Rattle.sqlite.specs.Held.{state};
ghost use Rattle.ledger_tables.specs.Disks.{StaysClean};
ghost use Rattle.job_checks.specs.Tables.{LeavesLess, LeavesNoMore};
ghost use Rattle.job_archives.specs.{
  Copies.{Tells},
  Joins.{AreBoth, ComparesBoth, ComparesJoin, EitherDiffers, ReadsThree, ReadsThreeOn, ReadsThreeSettled},
};

use crate::comparing::{Compared, both_sound, compare_each};
use crate::rows::are_same;
use job_checks::{Table, hand_back, read_jobs, read_version};
use ledger_tables::Fault;
use sqlite::{Alter, Connection, Row, Transaction};

/// Whether the third are the rows of the first, and behind them those of the second.
fn are_joined(first: &[Row], second: &[Row], joined: &[Row]) -> bool
    ensures { IsTrue result ↔ (joined.now ≡ first.now ++ second.now) }
{
    if joined.len() < first.len() {
        return false;
    }
    let (front, back) = joined.split_at(first.len());
    if !are_same(front, first) {
        return false;
    }
    are_same(back, second)
}

/// Compares the rows of these jobs of two bureaus with those in a third, inside a transaction of
/// each, and returns a table in which the first one that differs does so.
fn compare_both<S: Alter, T: Alter, U: Alter>(
    first: &mut Transaction<'_, S>,
    second: &mut Transaction<'_, T>,
    joined: &mut Transaction<'_, U>,
    jobs: &[Row],
    more: &[Row],
) -> Result<Option<Table>, Fault>
    ensures read { ReadsThreeOn S.Store T.Store U.Store first.old.conn.now first.new.conn.now
        second.old.conn.now second.new.conn.now joined.old.conn.now joined.new.conn.now result
        (λ one two three told. Tells (AreBoth one two three jobs.now more.now)
        (EitherDiffers one two three) told) }
    ensures first { first.new.conn.ghost_name ≡ first.old.conn.ghost_name }
    ensures second { second.new.conn.ghost_name ≡ second.old.conn.ghost_name }
    ensures joined { joined.new.conn.ghost_name ≡ joined.old.conn.ghost_name }
    ensures left { LeavesLess (state S.Store first.old.conn.now)
        (state S.Store first.new.conn.now) }
    ensures other_left { LeavesLess (state T.Store second.old.conn.now)
        (state T.Store second.new.conn.now) }
    ensures join_left { LeavesLess (state U.Store joined.old.conn.now)
        (state U.Store joined.new.conn.now) }
    ensures clean { StaysClean S.Store first.old.conn.now first.new.conn.now }
    ensures other_clean { StaysClean T.Store second.old.conn.now second.new.conn.now }
    ensures join_clean { StaysClean U.Store joined.old.conn.now joined.new.conn.now }
{
    let told = compare_each(first, joined, jobs)?;
    if let Some(table) = told {
        return Ok(Some(table));
    }
    compare_each(second, joined, more)
}

/// Compares all rows of two bureaus with those of a third, inside a transaction of each.
fn compare_three<S: Alter, T: Alter, U: Alter>(
    first: &mut Transaction<'_, S>,
    second: &mut Transaction<'_, T>,
    joined: &mut Transaction<'_, U>,
) -> Result<Compared, Fault>
    ensures read { ReadsThree S.Store T.Store U.Store first.old.conn.now first.new.conn.now
        second.old.conn.now second.new.conn.now joined.old.conn.now joined.new.conn.now result
        (λ one two three told. ComparesBoth one two three told) }
    ensures first { first.new.conn.ghost_name ≡ first.old.conn.ghost_name }
    ensures second { second.new.conn.ghost_name ≡ second.old.conn.ghost_name }
    ensures joined { joined.new.conn.ghost_name ≡ joined.old.conn.ghost_name }
    ensures left { LeavesLess (state S.Store first.old.conn.now)
        (state S.Store first.new.conn.now) }
    ensures other_left { LeavesLess (state T.Store second.old.conn.now)
        (state T.Store second.new.conn.now) }
    ensures join_left { LeavesLess (state U.Store joined.old.conn.now)
        (state U.Store joined.new.conn.now) }
    ensures clean { StaysClean S.Store first.old.conn.now first.new.conn.now }
    ensures other_clean { StaysClean T.Store second.old.conn.now second.new.conn.now }
    ensures join_clean { StaysClean U.Store joined.old.conn.now joined.new.conn.now }
{
    let version = read_version(first)?;
    let jobs = read_jobs(first)?;
    let more = read_jobs(second)?;
    let again = read_version(joined)?;
    let all = read_jobs(joined)?;
    let joined_jobs = all.as_slice();
    let count = joined_jobs.len();
    if !are_same(&version, &again) {
        return Ok(Compared {
            other: Some(Table::Bureau),
            jobs: count,
        });
    }
    if !are_joined(&jobs, &more, joined_jobs) {
        return Ok(Compared {
            other: Some(Table::Jobs),
            jobs: count,
        });
    }
    let other = compare_both(first, second, joined, jobs.as_slice(), more.as_slice())?;
    Ok(Compared { other, jobs: count })
}

/// Compares all rows of two bureaus with those of a third, in transactions that are rolled back.
fn compare_settled<S: Alter, T: Alter, U: Alter>(
    first: &mut Connection<S>,
    second: &mut Connection<T>,
    joined: &mut Connection<U>,
) -> Result<Compared, Fault>
    ensures read { ReadsThreeSettled S.Store T.Store U.Store first.old first.new second.old
        second.new joined.old joined.new result
        (λ one two three told. ComparesBoth one two three told) }
    ensures left { LeavesLess (state S.Store first.old) (state S.Store first.new) }
    ensures other_left { LeavesLess (state T.Store second.old) (state T.Store second.new) }
    ensures join_left { LeavesLess (state U.Store joined.old) (state U.Store joined.new) }
    ensures clean { StaysClean S.Store first.old first.new }
    ensures other_clean { StaysClean T.Store second.old second.new }
    ensures join_clean { StaysClean U.Store joined.old joined.new }
{
    if !first.is_autocommit() || !second.is_autocommit() || !joined.is_autocommit() {
        return Err(Fault::Store);
    }
    let _schema = first.schema();
    let _other_schema = second.schema();
    let _join_schema = joined.schema();
    let mut one = first.transaction();
    let mut two = second.transaction();
    let mut three = joined.transaction();
    let told = compare_three(&mut one, &mut two, &mut three);
    one.rollback();
    two.rollback();
    three.rollback();
    told
}

/// Compares two bureaus' files with a third that is made of both: the rows of all tables, those of
/// one job at a time. Returns a table whose rows are not the same, if there is one. If there is
/// none, the third stands for the jobs of the first and, behind them, those of the second. Nothing
/// is written, and the stores are handed back. Fails with 1 if there is no memory, and with 2 if a
/// store fails, or a job has no name that a number and a text can be.
pub fn compare_join<S: Alter + Drop, T: Alter + Drop, U: Alter + Drop>(
    first: Connection<S>,
    second: Connection<T>,
    joined: Connection<U>,
) -> (Result<Compared, Fault>, S, T, U)
    ensures compared { ComparesJoin S.Store T.Store U.Store first second joined result.1 result.2
        result.3 result.0 }
    ensures left { LeavesNoMore S.Store first result.1 }
    ensures other_left { LeavesNoMore T.Store second result.2 }
    ensures join_left { LeavesNoMore U.Store joined result.3 }
{
    let mut first = first;
    let mut second = second;
    let mut joined = joined;
    let told = compare_settled(&mut first, &mut second, &mut joined);
    let (sound, store) = hand_back(first);
    let (other_sound, more) = hand_back(second);
    let (join_sound, third) = hand_back(joined);
    match both_sound(both_sound(sound, other_sound), join_sound) {
        Ok(()) => (told, store, more, third),
        Err(fault) => (Err(fault), store, more, third),
    }
}
