//! Questions to a book over rows that no crate below answers as a book asks them.
ghost use Rattle.std.specs.{Prelude.{◌≡◌, option_map}, FinMap.get};
ghost use Rattle.books.specs.Lookups.{first_due};
ghost use Rattle.facts.specs.Facts.{superordinate_of_domain};
ghost use Rattle.sqlrows.specs.Meanings.{FindsIfRight};
ghost use Rattle.sqlderived.specs.Dues.{dues_are_right};
ghost use Rattle.states.specs.States.{Finds};
ghost use Rattle.sqlbook.specs.Meaning.{registry_of};

use basis::list::Seq;
use basis::text::Text;
use calendar::Moment;
use facts::Superordinate;
use lifecycle::Due;
use objects::Domain;
use policy::Policy;
use sqlite::Alter;
use sqltables::RowStore;
use states::BookFault;
use std::alloc::Global;

/// Of a domain, what its hosts depend on.
pub fn superordinate<S: Alter>(
    store: &mut RowStore<S>,
    alloc: Global,
    name: &Text,
) -> Result<Option<Superordinate>, BookFault>
    ensures { Finds result (option_map superordinate_of_domain
        (get (registry_of store.old.content).domains name.now)) store.old store.new }
{
    let domain = sqldomains::domain(store, alloc, name)?;
    Ok(superordinate_of(domain))
}

fn superordinate_of(domain: Option<Domain>) -> Option<Superordinate>
    ensures { result ≡ option_map superordinate_of_domain domain }
{
    match domain {
        None => None,
        Some(domain) => Some(Superordinate {
            sponsor: domain.sponsor,
            is_deleted: domain.deletion.is_some(),
        }),
    }
}

/// What is due by a moment, in the order in which it lapses: so many at most if a number is given.
pub fn due<S: Alter>(
    store: &mut RowStore<S>,
    alloc: Global,
    moment: Moment,
    most: Option<u32>,
    policy: &Policy,
) -> Result<Seq<Due>, BookFault>
    ensures { FindsIfRight result (dues_are_right store.old.content)
        (first_due policy.now moment most (registry_of store.old.content)) store.old store.new }
{
    match most {
        None => sqlderived::due(store, alloc, moment, policy),
        Some(most) => sqlderived::first_due(store, alloc, moment, most, policy),
    }
}
