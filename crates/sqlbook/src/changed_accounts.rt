//! Accounts, changed in a book over rows.
ghost use Rattle.std.specs.Prelude.{◌≡◌, true, IfOk};
ghost use Rattle.books.specs.Tables as tables;
ghost use Rattle.sqlrows.specs.Meanings.{Changes};
ghost use Rattle.sqlbook.specs.{Meaning.{are_right, stored_of}, AsBook.MakesAs};
ghost use Rattle.sqlbook.specs.inner.Posting.{HaveEnds, IsOpenedInBook, PostsAs, option_of};

use basis::registrar::RegistrarNo;
use books::Posts;
use policy::Policy;
use sqlderived::Unwritten;
use sqlite::Alter;
use sqltables::RowStore;
use states::BookFault;
use std::alloc::Global;

/// Makes changes of a registrar's account, in their order. What was never opened is opened. The account's row is
/// read once and written once, if there is a change.
pub fn post<S: Alter>(
    store: &mut RowStore<S>,
    alloc: Global,
    posts: Posts,
    policy: &Policy,
) -> Result<(), BookFault>
    requires { store.old.is_open ≡ true }
    ensures made { MakesAs result stored_of are_right (tables.posted_all policy.now posts
        (stored_of store.old.content)) store.old store.new }
    ensures ends { IfOk result (λ done. store.new.is_clean ≡ true
        → HaveEnds store.old.content store.new.content) }
{
    if posts.changes.is_empty() {
        return open(store, alloc, posts.registrar);
    }
    let it = posted(store, alloc, posts, policy)?;
    store.put_account(&it.row)?;
    Ok(())
}

/// The registrar has an account. One that it has stays as it is.
fn open<S: Alter>(
    store: &mut RowStore<S>,
    alloc: Global,
    registrar: RegistrarNo,
) -> Result<(), BookFault>
    requires { store.old.is_open ≡ true }
    ensures { Changes result (IsOpenedInBook registrar) store.old store.new }
{
    store.show_consistent();
    sqlaccounts::open_account(store, alloc, registrar)?;
    store.show_consistent();
    Ok(())
}

/// The same where there are changes. The account's row isn't written yet.
pub(crate) fn maybe_posted<S: Alter>(
    store: &mut RowStore<S>,
    alloc: Global,
    posts: Option<Posts>,
    policy: &Policy,
) -> Result<Option<Unwritten>, BookFault>
    requires { store.old.is_open ≡ true }
    ensures { PostsAs result (tables.maybe_posted policy.now posts) store.old store.new }
{
    let Some(posts) = posts else {
        store.show_consistent();
        return Ok(None);
    };
    Ok(Some(posted(store, alloc, posts, policy)?))
}

/// Makes changes of a registrar's account, whose row isn't written yet.
fn posted<S: Alter>(
    store: &mut RowStore<S>,
    alloc: Global,
    posts: Posts,
    policy: &Policy,
) -> Result<Unwritten, BookFault>
    requires { store.old.is_open ≡ true }
    ensures { PostsAs (option_of result) (tables.posted_all policy.now posts) store.old store.new }
{
    let Posts { registrar, changes } = posts;
    let days = sqlterms::days(store, alloc)?;
    store.show_consistent();
    sqlaccounts::open_account(store, alloc, registrar)?;
    store.show_consistent();
    let row = sqlaccounts::found_row(store, registrar)?;
    let row = sqlaccounts::posted(store, alloc, registrar, row, changes, policy, &days)?;
    store.show_consistent();
    Ok(Unwritten { registrar, row })
}
