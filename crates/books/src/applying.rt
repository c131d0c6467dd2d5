//! How changes are made in records.
ghost use Rattle.std.specs.Prelude.{◌≡◌, ◌∷◌, [], None, Some, max, option_to_list, true};
ghost use Rattle.books.specs.Book.{with_changes};
ghost use Rattle.books.specs.Tables.{clock_set, contact_left, contact_set, domain_left, domain_set, maybe_posted, posted_all, posted_to};
ghost use Rattle.states.specs.States.{Makes};
ghost use Rattle.lifecycle.specs.Changes.{all_changed};

use crate::grouping::{add_done, first_account, part};
use crate::records::{Posts, Records};
use basis::list::Seq;
use basis::registrar::RegistrarNo;
use basis::text::Text;
use calendar::Moment;
use decisions::Change;
use lifecycle::AccountChange;
use objects::{Contact, Domain};
use policy::Policy;
use states::BookFault;

/// Makes changes: those of each account together, and those of objects after them. Those of the account that
/// comes first go with the first object, where that is a domain.
pub(crate) fn apply<R: Records>(
    records: &mut R,
    changes: Seq<Change>,
    policy: &Policy,
) -> Result<(), BookFault>
    requires { (R.kept records.old).is_open ≡ true }
    ensures { Makes result (with_changes policy.now changes (R.kept records.old).content)
        (R.kept records.old) (R.kept records.new) }
{
    let changes = changes.into_vec();
    let Some(first) = first_account(changes.as_slice()) else {
        return make_all(records, None, changes, policy);
    };
    let parted = part(records.alloc(), changes, first)?;
    apply_before(records, parted.others, parted.posts, policy)
}

/// Makes changes, and then posts: those of other accounts first, and then those of objects with the posts.
fn apply_before<R: Records>(
    records: &mut R,
    changes: Vec<Change>,
    posts: Posts,
    policy: &Policy,
) -> Result<(), BookFault>
    requires { (R.kept records.old).is_open ≡ true }
    ensures { Makes result (posted_all policy.now posts
        (with_changes policy.now changes.items (R.kept records.old).content))
        (R.kept records.old) (R.kept records.new) }
{
    let Some(other) = first_account(changes.as_slice()) else {
        return make_all(records, Some(posts), changes, policy);
    };
    let parted = part(records.alloc(), changes, other)?;
    records.post(parted.posts, policy)?;
    apply_before(records, parted.others, posts, policy)
}

/// Makes posts, and changes one after another. The first change goes with the posts.
fn make_all<R: Records>(
    records: &mut R,
    posts: Option<Posts>,
    changes: Vec<Change>,
    policy: &Policy,
) -> Result<(), BookFault>
    requires { (R.kept records.old).is_open ≡ true }
    ensures { Makes result (with_changes policy.now changes.items
        (maybe_posted policy.now posts (R.kept records.old).content))
        (R.kept records.old) (R.kept records.new) }
{
    let mut posts = posts;
    for change in changes {
        make_with(records, posts.take(), change, policy)?;
    }
    post_if_any(records, posts, policy)
}

/// Makes posts, if there are any.
fn post_if_any<R: Records>(
    records: &mut R,
    posts: Option<Posts>,
    policy: &Policy,
) -> Result<(), BookFault>
    requires { (R.kept records.old).is_open ≡ true }
    ensures { Makes result (maybe_posted policy.now posts (R.kept records.old).content)
        (R.kept records.old) (R.kept records.new) }
{
    match posts {
        None => Ok(()),
        Some(posts) => records.post(posts, policy),
    }
}

/// Makes posts and a change. A domain is put or dropped with the posts.
fn make_with<R: Records>(
    records: &mut R,
    posts: Option<Posts>,
    change: Change,
    policy: &Policy,
) -> Result<(), BookFault>
    requires { (R.kept records.old).is_open ≡ true }
    ensures { Makes result (with_changes policy.now (change ∷ [])
        (maybe_posted policy.now posts (R.kept records.old).content))
        (R.kept records.old) (R.kept records.new) }
{
    match change {
        Change::PutDomain(domain) => put_domain(records, posts, domain, policy),
        Change::DropDomain(name) => records.set_domain(posts, name, None, policy),
        Change::LapseDomain(name, left) => leave_domain(records, posts, name, left, policy),
        other => make_after(records, posts, other, policy),
    }
}

/// Makes posts, and a change after them.
fn make_after<R: Records>(
    records: &mut R,
    posts: Option<Posts>,
    change: Change,
    policy: &Policy,
) -> Result<(), BookFault>
    requires { (R.kept records.old).is_open ≡ true }
    ensures { Makes result (with_changes policy.now (change ∷ [])
        (maybe_posted policy.now posts (R.kept records.old).content))
        (R.kept records.old) (R.kept records.new) }
{
    post_if_any(records, posts, policy)?;
    make(records, change, policy)
}

/// Makes a change.
fn make<R: Records>(records: &mut R, change: Change, policy: &Policy) -> Result<(), BookFault>
    requires { (R.kept records.old).is_open ≡ true }
    ensures { Makes result (with_changes policy.now (change ∷ []) (R.kept records.old).content)
        (R.kept records.old) (R.kept records.new) }
{
    match change {
        Change::MoveClock(moment) => move_clock(records, moment),
        Change::OpenAccount(registrar) => post(records, registrar, None, policy),
        Change::Post(registrar, what) => post(records, registrar, Some(what), policy),
        Change::PutContact(contact) => put_contact(records, contact),
        Change::DropContact(name) => records.drop_contact(name),
        Change::PutDomain(domain) => put_domain(records, None, domain, policy),
        Change::DropDomain(name) => records.set_domain(None, name, None, policy),
        Change::PutHost(host) => records.put_host(host),
        Change::DropHost(name) => records.drop_host(name),
        Change::RenameHost { from, host } => records.rename_host(from, host, policy),
        Change::LapseContact(name, left) => leave_contact(records, name, left),
        Change::LapseDomain(name, left) => leave_domain(records, None, name, left, policy),
    }
}

/// A registrar has an account, and a change is made of it, if there is one.
fn post<R: Records>(
    records: &mut R,
    registrar: RegistrarNo,
    what: Option<AccountChange>,
    policy: &Policy,
) -> Result<(), BookFault>
    requires { (R.kept records.old).is_open ≡ true }
    ensures { Makes result (posted_to registrar (all_changed policy.now (option_to_list what))
        (R.kept records.old).content) (R.kept records.old) (R.kept records.new) }
{
    let mut changes = Vec::new(records.alloc());
    add_done(&mut changes, what)?;
    records.post(Posts { registrar, changes }, policy)
}

/// The moment was seen.
fn move_clock<R: Records>(records: &mut R, moment: Moment) -> Result<(), BookFault>
    requires { (R.kept records.old).is_open ≡ true }
    ensures { Makes result (clock_set (max moment (R.kept records.old).content.registry.clock)
        (R.kept records.old).content) (R.kept records.old) (R.kept records.new) }
{
    let clock = records.clock()?;
    records.set_clock(moment.later(clock))
}

/// The contact is under its name.
fn put_contact<R: Records>(records: &mut R, contact: Contact) -> Result<(), BookFault>
    requires { (R.kept records.old).is_open ≡ true }
    ensures { Makes result (contact_set contact.name (Some contact) (R.kept records.old).content)
        (R.kept records.old) (R.kept records.new) }
{
    let name = contact.name.clone()?;
    records.put_contact(name, contact)
}

/// The domain is under its name, with posts before, if there are any.
fn put_domain<R: Records>(
    records: &mut R,
    posts: Option<Posts>,
    domain: Domain,
    policy: &Policy,
) -> Result<(), BookFault>
    requires { (R.kept records.old).is_open ≡ true }
    ensures { Makes result (domain_set domain.name (Some domain)
        (maybe_posted policy.now posts (R.kept records.old).content))
        (R.kept records.old) (R.kept records.new) }
{
    let name = domain.name.clone()?;
    records.set_domain(posts, name, Some(domain), policy)
}

/// What time left of a contact is under its name.
fn leave_contact<R: Records>(
    records: &mut R,
    name: Text,
    left: Option<Contact>,
) -> Result<(), BookFault>
    requires { (R.kept records.old).is_open ≡ true }
    ensures { Makes result (contact_left name left (R.kept records.old).content)
        (R.kept records.old) (R.kept records.new) }
{
    match left {
        None => records.drop_contact(name),
        Some(contact) => records.put_contact(name, contact),
    }
}

/// What time left of a domain is under its name, with posts before, if there are any.
fn leave_domain<R: Records>(
    records: &mut R,
    posts: Option<Posts>,
    name: Text,
    left: Option<Domain>,
    policy: &Policy,
) -> Result<(), BookFault>
    requires { (R.kept records.old).is_open ≡ true }
    ensures { Makes result (domain_left name left
        (maybe_posted policy.now posts (R.kept records.old).content))
        (R.kept records.old) (R.kept records.new) }
{
    records.set_domain(posts, name, left, policy)
}
