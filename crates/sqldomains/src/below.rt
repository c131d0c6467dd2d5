//! The hosts below a domain.
ghost use Rattle.std.specs.{Prelude.{◌≡◌, Some, IfOk, filter, map}, FinMap.{empty, keys}};
ghost use Rattle.objects.specs.Hosts as hosts;
ghost use Rattle.sqltables.specs.declared.host.HostRow.{HostRow};
ghost use Rattle.states.specs.States.{Finds, FindsSome};
ghost use Rattle.sqldomains.specs.inner.Names as spec;

use basis::list::Seq;
use basis::maps::NameMap;
use basis::text::Text;
use objects::is_below;
use sqlcolumns::above_column;
use sqlite::Alter;
use sqlobjects::has_host;
use sqltables::{HostRow, RowStore};
use states::BookFault;
use std::alloc::{AllocError, Global};

/// The names of the hosts below a domain, in the order of their bytes.
pub fn hosts_below<S: Alter>(
    store: &mut RowStore<S>,
    alloc: Global,
    domain: &Text,
) -> Result<Seq<Text>, BookFault>
    ensures { Finds result (spec.hosts_below domain.now store.old.content) store.old store.new }
{
    let rows = rows_around(store, alloc, domain)?;
    let found = names_below(alloc, domain, rows)?;
    let names = with_hosts(store, alloc, found)?;
    Ok(listed(alloc, &names)?)
}

/// The rows of all hosts that can be below a domain. Below a name of one label, which is no domain's, it
/// can be any.
fn rows_around<S: Alter>(
    store: &mut RowStore<S>,
    alloc: Global,
    domain: &Text,
) -> Result<Seq<HostRow>, BookFault>
    ensures { Finds result (spec.rows_around domain.now store.old.content) store.old store.new }
{
    if !is_dotted(domain) {
        return store.all_hosts();
    }
    let above = above_column(alloc, domain.as_str())?;
    store.hosts_by_above(above.as_str())
}

fn is_dotted(domain: &Text) -> bool
    ensures { result ≡ spec.is_dotted domain.now }
{
    let dots = domain
        .as_str()
        .as_bytes()
        .iter()
        .filter(|byte| **byte == b'.')
        .count();
    dots > 0
}

/// The names of these rows that lie below the domain.
fn names_below(alloc: Global, domain: &Text, rows: Seq<HostRow>) -> Result<Seq<Text>, AllocError>
    ensures { IfOk result (λ names. names ≡ filter (hosts.is_below domain.now)
        (map (λ (r : HostRow). r.name) rows)) }
{
    let mut names = Seq::new(alloc);
    for row in rows.into_vec() {
        if is_below(domain, &row.name) {
            names.push(row.name)?;
        }
    }
    Ok(names)
}

/// These names, each of which a host has to have.
fn with_hosts<S: Alter>(
    store: &mut RowStore<S>,
    alloc: Global,
    found: Seq<Text>,
) -> Result<NameMap<()>, BookFault>
    ensures { FindsSome result (λ all. spec.with_hosts store.old.content empty found ≡ Some all)
        store.old store.new }
{
    let mut names = NameMap::new(alloc);
    for name in found.into_vec() {
        names = with_host(store, alloc, names, name)?;
    }
    Ok(names)
}

fn with_host<S: Alter>(
    store: &mut RowStore<S>,
    alloc: Global,
    names: NameMap<()>,
    name: Text,
) -> Result<NameMap<()>, BookFault>
    ensures { FindsSome result (λ more. spec.with_host store.old.content names name ≡ Some more)
        store.old store.new }
{
    let is_there = has_host(store, alloc, &name)?;
    if !is_there {
        return Err(BookFault::Store);
    }
    let mut names = names;
    names.insert(name, ())?;
    Ok(names)
}

/// The names in their order.
fn listed(alloc: Global, names: &NameMap<()>) -> Result<Seq<Text>, AllocError>
    ensures { IfOk result (λ list. list ≡ keys names.now) }
{
    let mut list = Seq::new(alloc);
    for name in names.keys() {
        list.push(name.clone()?)?;
    }
    Ok(list)
}
