//! A log that was found damaged.

ghost use Rattle.std.specs.Prelude.{◌≡◌, IsTrue};
ghost use Rattle.sqlite_wal.specs.Reads.{IsClean};
ghost use Rattle.database_files.specs.Damage.{IsDamagedAs};

use crate::damage::{Damage, find_damage};
use sqlite_disk::{Disk, Files};
use std::alloc::Global;

/// A log that was found damaged, and the file whose log it is. No other program has them as long as
/// this is kept.
#[derive(Drop)]
pub struct DamagedLog<D: Disk> {
    damage: Damage,
    files: Files<D>,
    ghost told: { IsClean D.Disk files.log → ∥ IsDamagedAs (D.Disk.seen files.log) damage ∥₁ },
}

impl<D: Disk + Drop> DamagedLog<D> {
    /// Looks at the log of files. Returns nothing if it is not damaged, or if that cannot be told.
    pub fn find(alloc: Global, mut files: Files<D>) -> Option<DamagedLog<D>>
        requires { IsTrue (D.Disk.is_usable files.log) }
    {
        match find_damage(alloc, &mut files.log) {
            Ok(Some(damage)) => Some(DamagedLog { damage, files }),
            _ => None,
        }
    }

    /// What of the log is damaged.
    pub fn damage(&self) -> Damage
        ensures { result ≡ self.now.damage }
    {
        self.damage
    }
}
