//! The files of a takeover, given back.
ghost use Rattle.std.specs.Prelude.{◌≡◌, true};
ghost use Rattle.sqlite_wal.specs.Reads.{AreClean};
ghost use Rattle.takeover.specs.Files.{AreOver, AreOverOld};

use oldrows::OldRows;
use sqlite_disk::{Disk, Files};
use sqlite_store::FileStore;
use sqltables::RowStore;

/// Gives the files under rows of the schema before this one back. A crash may leave of them what was told, and
/// nothing else.
pub fn into_old_files<D: Disk + Drop>(rows: OldRows<FileStore<D>>) -> Files<D>
    ensures { AreClean D.Disk result.log result.db
        → (rows.is_honest ≡ true) × AreOverOld D.Disk result rows }
{
    rows.into_connection().into_store().close()
}

/// Gives the files under rows back. What a crash may leave of them is, once it is opened and adopted, one of
/// what the rows told.
pub fn into_new_files<D: Disk + Drop>(rows: RowStore<FileStore<D>>) -> Files<D>
    ensures { AreClean D.Disk result.log result.db
        → (rows.is_honest ≡ true) × AreOver D.Disk result rows }
{
    rows.into_connection().into_store().close()
}
