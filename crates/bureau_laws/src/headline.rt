//! The headline: stops lose nothing.

ghost use Rattle.std.specs.Prelude.{List};
ghost use Rattle.sqlite.specs.Recovery.{Image};
ghost use Rattle.office.specs.Office.{Office};
ghost use Rattle.ledger_files.specs.Opening.{AreOf};
ghost use Rattle.bureau_laws.specs.{
  Headline.{Link, AreLinks, IsOneHistory, rounds_of},
  Rounds.{AreLeftWhole},
};

use ledger::kept_offices_run_whole;
use office::offices_run_whole;

/// The theorem of stops, as a customer sees it: however often the bureau stops, the replies of all
/// rounds are those of one history, which contains every command that was replied to; and each job
/// at a halt has made the cards and lines of one uninterrupted run. In `ledger_files` `with_bureau`
/// is a round, with any work; its contract says for each of its ends which link it is. The first
/// files may be those of `init`, of the office without jobs.
///
/// Between the rounds the files may be migrated, as often as one likes, by `migrate`, whether it
/// succeeds or not; and opens may fail.
pub fn one_history()
    ensures { (first : Image) → (links : List Link) → AreLinks first links
        → (office : Office) → AreOf first office → IsOneHistory office (rounds_of links) }
{
    // Two laws, for the proof: they do nothing.
    stops_lose_nothing();
    offices_run_whole();
}

/// The theorem of stops, as the files show it: the last files are of the office after this history,
/// and each job at a halt there has in its rows the cards and lines of one uninterrupted run.
pub fn stops_lose_nothing()
    ensures { (first : Image) → (links : List Link) → AreLinks first links
        → (office : Office) → AreOf first office → AreLeftWhole first links office }
{
    // A law, for the proof: it does nothing.
    kept_offices_run_whole();
}
