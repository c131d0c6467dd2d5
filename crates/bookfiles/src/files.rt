//! The book in a file, and the registry.
ghost use Rattle.std.specs.Prelude.{◌≡◌, true, false, IfErr, IfOk};
ghost use Rattle.sqlite_std_file.specs.File.{IsFresh};
ghost use Rattle.sqlite_store.specs.FileStore.{recovers, view};
ghost use Rattle.sqlite_trees.specs.View.{IsClean};
ghost use Rattle.sqlite_wal.specs.Files.{image_at};
ghost use Rattle.registry.specs.{Calls.IsRefused, Opening.Opens};
ghost use Rattle.books.specs.Book.{Follows, LeavesItself};
ghost use Rattle.sqlbook.specs.Files.{AreTakenIn};
ghost use Rattle.bookfiles.specs.Restarts.{IsOpenedIn, book_of};
ghost use Rattle.bookfiles.specs.Unopened.{AreLeft, GivesBack, IsLeftAsFound, IsRefusedIn, never_for, or_database};

use crate::connection::connect;
use crate::unopened::{Unopened, or_cause};
use books::Book;
use policy::Policy;
use registry::{OpenFault, Registry};
use sqlbook::{OnDisk, SqlBook, Unadopted, taken};
use sqlite::{FileFrom, FileStore, Leftover, Start};
use std::alloc::Global;

/// The book in a file. `S` stands for what the file and its log held.
pub type FileBook<S> = SqlBook<FileStore<FileFrom<S>>, OnDisk>;

/// What an opening of a registry in a file gives back that failed.
pub type FileUnopened<S> = Unopened<Leftover<FileFrom<S>>, FileStore<FileFrom<S>>, FileBook<S>>;

/// The book in a file. What isn't taken up is given back as it was found.
pub fn book_in<S: Start, B>(
    rt: &HostRuntime,
    path: &str,
    start: S,
) -> Result<FileBook<S>, Unopened<Leftover<FileFrom<S>>, FileStore<FileFrom<S>>, B>>
    ensures taken { IfOk result (λ book. book.records.store.is_clean ≡ true
        → AreTakenIn (image_at S.Start) book.records.store) }
    ensures answers { IfOk result (λ book.
        book.records.store.is_honest ≡ true → book.records.store.is_clean ≡ true) }
    ensures idle { IfOk result (λ book. (book_of book.records.store book.refused).is_open ≡ false) }
    ensures left { IfErr result (GivesBack (AreLeft (IsFresh true) (IsFresh false))
        (λ cause store. IsClean (view store) → IsLeftAsFound (image_at S.Start) cause (recovers store))
        never_for) }
{
    let conn = connect(rt, path, start)?;
    or_database(taken(conn, rt.alloc()))
}

/// What was taken up, or what it was to be taken from. It knows neither of the two, since a value of a known
/// kind that may fall costs the prover much.
fn or_database<T, L, W, B>(taken: Result<T, (Unadopted, W)>) -> Result<T, Unopened<L, W, B>>
    ensures { result ≡ or_database taken }
{
    match taken {
        Ok(it) => Ok(it),
        Err((cause, store)) => Err(Unopened::Database(cause, store)),
    }
}

/// The registry in a file, which is opened under a policy. An opening that fails gives back what it held, by how
/// far it came, as it found it.
#[tactic(auto, using(crate::proofs::RestartLemmas::opened_in))]
pub fn open_in<S: Start>(
    rt: &HostRuntime,
    path: &str,
    start: S,
    policy: Policy,
) -> Result<Registry<FileBook<S>>, FileUnopened<S>>
    ensures opened { IfOk result (λ registry. IsOpenedIn (image_at S.Start) policy
        (book_of registry.book.records.store registry.book.refused)) }
    ensures left { IfErr result (GivesBack (AreLeft (IsFresh true) (IsFresh false))
        (λ cause store. IsClean (view store) → IsLeftAsFound (image_at S.Start) cause (recovers store))
        (λ fault book. IsRefusedIn (image_at S.Start) policy fault
        (book_of book.records.store book.refused))) }
{
    match book_in(rt, path, start) {
        Ok(book) => open(rt.alloc(), book, policy),
        Err(left) => Err(left),
    }
}

/// The same for a caller that asks for the cause alone: what an opening that failed gives back is let go.
pub fn registry_in<S: Start>(
    rt: &HostRuntime,
    path: &str,
    start: S,
    policy: Policy,
) -> Result<Registry<FileBook<S>>, OpenFault>
    ensures opened { IfOk result (λ registry. IsOpenedIn (image_at S.Start) policy
        (book_of registry.book.records.store registry.book.refused)) }
{
    or_cause(open_in(rt, path, start, policy))
}

/// The registry over a book, in which no transaction is open, or the book.
fn open<L, W, B: Book + Drop>(
    alloc: Global,
    book: B,
    policy: Policy,
) -> Result<Registry<B>, Unopened<L, W, B>>
    requires { (B.state book).is_open ≡ false }
    ensures opened { IfOk result (λ registry. Opens policy (B.state book) (B.state registry.book)) }
    ensures leaves { IfOk result (λ registry. LeavesItself (B.state registry.book)) }
    ensures follows { IfOk result (λ registry. Follows (B.state book) (B.state registry.book)) }
    ensures refused { IfErr result (GivesBack never_for never_for
        (λ fault left. IsRefused fault policy (B.state book) (B.state left))) }
{
    match Registry::open(alloc, book, policy) {
        Ok(registry) => Ok(registry),
        Err((fault, book)) => Err(Unopened::Book(fault, book)),
    }
}
