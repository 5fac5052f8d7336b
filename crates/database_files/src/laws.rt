//! Laws of what a stop leaves of a bureau's files.

ghost use Rattle.std.specs.Prelude.{IsTrue};
ghost use Rattle.sqlite.specs.{FileStore.{view}, Recovery.{Image}, View.{IsClean}};
ghost use Rattle.sqlite.specs.FileStore as store;
ghost use Rattle.database_files.specs.Damage.{IsDamaged};

use sqlite::FileStore;
use sqlite_disk::Disk;

/// Proves that whatever a crash between two calls leaves of an open store, its log is not damaged.
/// Of a crash within a call, after which the store is not open, it says nothing.
pub fn stops_damage_no_log<D: Disk>(left: &FileStore<D>)
    ensures { IsTrue (view left.now).is_open → (image : Image)
        → (store.state left.now).may_leave image → ¬ IsDamaged image.log }
{}
