//! Registries in files. A disk is known by its bounds alone here: a book over one of a known kind costs the
//! prover more than it has.
ghost use Rattle.std.specs.Prelude.{IfOk};
ghost use Rattle.sqlite.specs.Held.{state};
ghost use Rattle.sqltables.specs.Adoption.{IsFound};

use anyhow::{Result, bail};
use books::Book;
use oldrows::OldRows;
use policy::Policy;
use registry::Registry;
use script::run_on;
use sqlbook::{OnDisk, SqlBook, into_files, taken};
use sqlite::{Alter, Connection, Error, FileStore, Files, Leftover, MemStore, Options};
use sqlite_disk::Disk;
use sqltables::{RowStore, create_first};
use std::alloc::Global;
use takeover::{MigrateFault, migrate};

/// What is printed where files can't be opened, where what is in them can't be taken up, and of a takeover: where all
/// was taken over, and where what keeps one of the two refused.
pub const NOT_OPENED: &str = "not opened\n";

pub const NOT_TAKEN_UP: &str = "not taken up\n";

pub const TAKEN_OVER: &str = "taken over\n";

pub const REFUSED: &str = "refused\n";

/// What was printed, also by what was tried then, and the files as they are left.
#[derive(Drop)]
pub struct Left<D: Disk> {
    pub printed: Vec<u8>,
    pub printed_then: Vec<u8>,
    pub files: Files<D>,
}

impl<D: Disk + Drop> Left<D> {
    fn new(alloc: Global, printed: &str, files: Files<D>) -> Result<Left<D>> {
        Ok(Left {
            printed: Vec::from_slice(alloc, printed.as_bytes())?,
            printed_then: Vec::new(alloc),
            files,
        })
    }
}

/// What is done in files.
#[derive(Clone, Copy)]
pub struct Work<'a> {
    pub policy: &'a [u8],
    /// Whether a registry of the schema before this one is taken over, whose rows the script makes.
    pub is_takeover: bool,
    /// What a registry answers, and where that doesn't print what was meant, another one.
    pub script: &'a [u8],
    pub wanted: &'a [u8],
    pub then: &'a [u8],
}

/// What keeps files, and gives them back.
pub trait KeepsFiles<D: Disk> {
    fn files(self) -> Files<D>;
}

impl<D: Disk + Drop> KeepsFiles<D> for SqlBook<FileStore<D>, OnDisk> {
    fn files(self) -> Files<D> {
        into_files(self)
    }
}

impl<D: Disk + Drop> KeepsFiles<D> for FileStore<D> {
    fn files(self) -> Files<D> {
        self.close()
    }
}

impl<D: Disk + Drop> KeepsFiles<D> for Leftover<D> {
    fn files(self) -> Files<D> {
        self.into_files()
    }
}

/// Does that in files.
pub fn work_in<D: Disk + Drop>(
    alloc: Global,
    files: Files<D>,
    options: Options,
    work: &Work<'_>,
) -> Result<Left<D>> {
    if !files.may_be_used() {
        bail!("files that can't be used");
    }
    work_if_opened(alloc, Connection::open_files(alloc, files, options), work)
}

/// The same over a database, if one was opened in them.
fn work_if_opened<D: Disk + Drop, S: Alter + KeepsFiles<D> + Drop, L: KeepsFiles<D> + Drop>(
    alloc: Global,
    opened: Result<Connection<S>, (Error, L)>,
    work: &Work<'_>,
) -> Result<Left<D>>
where
    SqlBook<S, OnDisk>: KeepsFiles<D>,
    requires { IfOk opened (λ conn. IsFound (state S.Store conn)) }
{
    match opened {
        Ok(conn) => {
            if work.is_takeover {
                take_over_if_taken_up(alloc, RowStore::adopt(conn, alloc), work)
            } else {
                work_if_taken_up(alloc, taken(conn, alloc), work)
            }
        }
        Err((_, left)) => Left::new(alloc, NOT_OPENED, left.files()),
    }
}

/// The same over a book, if one was taken up.
fn work_if_taken_up<
    D: Disk + Drop,
    B: Book + KeepsFiles<D> + Drop,
    S: KeepsFiles<D> + Drop,
    E: Drop,
>(alloc: Global, adopted: Result<B, (E, S)>, work: &Work<'_>) -> Result<Left<D>> {
    match adopted {
        Ok(book) => work_with(alloc, book, work),
        Err((_, store)) => Left::new(alloc, NOT_TAKEN_UP, store.files()),
    }
}

fn work_with<D: Disk + Drop, B: Book + KeepsFiles<D> + Drop>(
    alloc: Global,
    book: B,
    work: &Work<'_>,
) -> Result<Left<D>> {
    let Ok(policy) = Policy::read(alloc, work.policy) else {
        bail!("no policy");
    };
    if book.active() {
        bail!("a transaction is open");
    }
    match Registry::open(alloc, book, policy) {
        Ok(registry) => answer(alloc, registry, work),
        Err((fault, book)) => {
            let printed = format!(in alloc; "{fault}\n")?;
            Left::new(alloc, printed.as_str(), book.files())
        }
    }
}

fn answer<D: Disk + Drop, B: Book + KeepsFiles<D> + Drop>(
    alloc: Global,
    registry: Registry<B>,
    work: &Work<'_>,
) -> Result<Left<D>> {
    let mut registry = registry;
    let (mut printed, mut printed_then) = (Vec::new(alloc), Vec::new(alloc));
    let _ = run_on(alloc, &mut registry, work.script, &mut printed);
    if printed.as_slice() != work.wanted {
        let _ = run_on(alloc, &mut registry, work.then, &mut printed_then);
    }
    Ok(Left {
        printed,
        printed_then,
        files: registry.into_book().files(),
    })
}

/// Takes a registry over into rows, if they were taken up.
fn take_over_if_taken_up<D: Disk + Drop, S: Alter + KeepsFiles<D> + Drop, E: Drop>(
    alloc: Global,
    adopted: Result<RowStore<S>, (E, S)>,
    work: &Work<'_>,
) -> Result<Left<D>> {
    match adopted {
        Ok(rows) => {
            let mut rows = rows;
            let printed = take_over_from(alloc, old_database(alloc, work.script), &mut rows, work)?;
            Left::new(alloc, printed, rows.into_connection().into_store().files())
        }
        Err((_, store)) => Left::new(alloc, NOT_TAKEN_UP, store.files()),
    }
}

/// A database of the schema before this one, in memory, with these rows.
fn old_database(alloc: Global, rows: &[u8]) -> Result<Connection<MemStore>> {
    let rows = std::str::from_utf8(rows)?;
    let mut conn = Connection::open_in_memory(alloc)?;
    conn.execute_batch("BEGIN")?;
    create_first(&mut conn)?;
    conn.execute_batch(rows)?;
    conn.execute_batch("COMMIT")?;
    Ok(conn)
}

/// Takes it over, and says what is printed of that.
fn take_over_from<S: Alter + Drop, T: Alter + Drop>(
    alloc: Global,
    database: Result<Connection<S>>,
    rows: &mut RowStore<T>,
    work: &Work<'_>,
) -> Result<&'static str> {
    let mut old = match OldRows::adopt(database?, alloc) {
        Ok(old) => old,
        Err(_) => bail!("no registry of the schema before"),
    };
    let printed = take_over_rows(alloc, &mut old, rows, work);
    drop(old);
    printed
}

/// The same of rows that are lent: where they would fall in each way out, the prover has more to do.
fn take_over_rows<S: Alter, T: Alter>(
    alloc: Global,
    old: &mut OldRows<S>,
    rows: &mut RowStore<T>,
    work: &Work<'_>,
) -> Result<&'static str> {
    if rows.is_open() {
        bail!("a transaction is open");
    }
    let Ok(policy) = Policy::read(alloc, work.policy) else {
        bail!("no policy");
    };
    let migrated = migrate(alloc, old, rows, &policy);
    drop(policy);
    match migrated {
        Ok(()) => Ok(TAKEN_OVER),
        Err(MigrateFault::Store) => Ok(REFUSED),
        Err(_) => bail!("not to be taken over"),
    }
}
