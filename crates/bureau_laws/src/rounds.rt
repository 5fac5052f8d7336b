//! What is left after rounds of work and migrations: of files of an earlier version, and of a chain.

ghost use Rattle.std.specs.Prelude.{◌≡◌, ◌⊎◌, ℕ, List};
ghost use Rattle.sqlite.specs.Recovery.{Image};
ghost use Rattle.office.specs.{Office.{Office, fold}, declared.commands.Command.{Command}};
ghost use Rattle.ledger_files.specs.Migrating.{AreOfVersion};
ghost use Rattle.bureau_laws.specs.{
  Headline.{Link, Round, AreLinks, AreKept},
  Rounds.{AreLeftWhole, AreStillOf},
  KeptRounds.{kept_rounds, kept_in, left_by},
};

use ledger::kept_offices_run_whole;

/// The theorem of stops for files of an earlier version: what `stops_lose_nothing` says, unless no
/// work was done and the last files still represent the office in that version.
pub fn old_files_wait_for_a_migration()
    ensures { (first : Image) → (links : List Link) → AreLinks first links
        → (version : ℕ) → (office : Office) → AreOfVersion version first office
        → ∥ (AreLeftWhole first links office ⊎ AreStillOf version first links office) ∥₁ }
{
    // A law, for the proof: it does nothing.
    kept_offices_run_whole();
}

/// The law of chains: the commands that are kept of a chain are those that are kept of its rounds,
/// and the office after them is the one that the last round left.
pub fn chains_lead_on()
    ensures { (office : Office) (rounds : List Round) (commands : List Command)
        (are : AreKept office rounds commands) →
        let chain = kept_rounds office rounds commands are in
        (commands ≡ kept_in chain) × ((fold commands office).0 ≡ left_by office chain) }
{}
