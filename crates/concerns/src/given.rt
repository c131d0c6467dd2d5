//! What a command names.
ghost use Rattle.std.specs.{Prelude.{◌≡◌, ◌++◌, IfOk}, Option.option_copied};
ghost use Rattle.concerns.specs.Names as spec;
ghost use Rattle.protocol.specs.Requests.{asks_of};

use basis::list::Seq;
use basis::text::Text;
use names::{RequestedName, last_two_labels};
use objects::ObjectKind;
use protocol::{Command, Request};
use std::alloc::{AllocError, Global};
use std::slice;

/// Contacts, domains and hosts, by their names.
#[derive(Drop)]
pub struct Names {
    pub contacts: Seq<Text>,
    pub domains: Seq<Text>,
    pub hosts: Seq<Text>,
}

impl Names {
    /// Those that a command names: what it acts on, all that it gives or takes away, and the
    /// superordinate domains of its hosts. An ill-formed one names nothing.
    pub fn of_command(alloc: Global, command: &Command) -> Result<Names, AllocError>
        ensures { IfOk result (λ names. names ≡ spec.named_by command.now) }
    {
        match command.request() {
            None => Ok(Names::none(alloc)),
            Some(request) => Names::of_request(alloc, request),
        }
    }

    /// Those that an info of an object names.
    pub fn of_object(alloc: Global, kind: ObjectKind, name: &Text) -> Result<Names, AllocError>
        ensures { IfOk result (λ names. names ≡ spec.named_of kind name.now) }
    {
        let mut names = Names::none(alloc);
        match kind {
            ObjectKind::Contact => names.contacts.push(name.clone()?)?,
            ObjectKind::Domain => names.domains.push(name.clone()?)?,
            ObjectKind::Host => {
                names.domains = above(alloc, slice::from_ref(name))?;
                names.hosts.push(name.clone()?)?;
            }
        }
        Ok(names)
    }

    /// No names.
    pub fn none(alloc: Global) -> Names
        ensures { result ≡ spec.no_names }
    {
        Names {
            contacts: Seq::new(alloc),
            domains: Seq::new(alloc),
            hosts: Seq::new(alloc),
        }
    }

    fn of_request(alloc: Global, request: &Request) -> Result<Names, AllocError>
        ensures { IfOk result (λ names. names ≡ spec.named_in (asks_of request.now)) }
    {
        let hosts = hosts_in(alloc, request)?;
        let domains = domains_in(alloc, request, hosts.as_slice())?;
        let contacts = contacts_in(alloc, request)?;
        Ok(Names {
            contacts,
            domains,
            hosts,
        })
    }
}

fn contacts_in(alloc: Global, request: &Request) -> Result<Seq<Text>, AllocError>
    ensures { IfOk result (λ names. names ≡ spec.contacts_in (asks_of request.now)) }
{
    let added = request.added();
    let removed = request.removed();
    let names = with_texts(Seq::new(alloc), request.contacts())?;
    let names = with_one(names, request.registrant())?;
    let names = with_texts(names, added.admin)?;
    let names = with_texts(names, added.tech)?;
    let names = with_texts(names, removed.admin)?;
    with_texts(names, removed.tech)
}

fn hosts_in(alloc: Global, request: &Request) -> Result<Seq<Text>, AllocError>
    ensures { IfOk result (λ names. names ≡ spec.hosts_in (asks_of request.now)) }
{
    let added = request.added();
    let removed = request.removed();
    let names = with_given(Seq::new(alloc), request.hosts())?;
    let names = with_new(names, request.new_host())?;
    let names = with_given(names, added.hosts)?;
    with_given(names, removed.hosts)
}

/// Those that it acts on, and those above these hosts.
fn domains_in(alloc: Global, request: &Request, hosts: &[Text]) -> Result<Seq<Text>, AllocError>
    ensures { IfOk result (λ names. names ≡ (asks_of request.now).domains ++ spec.superordinates hosts.now) }
{
    let names = with_given(Seq::new(alloc), request.domains())?;
    with_above(alloc, names, hosts)
}

/// The superordinate domains of hosts.
fn above(alloc: Global, hosts: &[Text]) -> Result<Seq<Text>, AllocError>
    ensures { IfOk result (λ names. names ≡ spec.superordinates hosts.now) }
{
    with_above(alloc, Seq::new(alloc), hosts)
}

fn with_above(alloc: Global, names: Seq<Text>, hosts: &[Text]) -> Result<Seq<Text>, AllocError>
    ensures { IfOk result (λ all. all ≡ names ++ spec.superordinates hosts.now) }
{
    let mut names = names;
    for host in hosts {
        if let Some(domain) = last_two_labels(alloc, host)? {
            names.push(domain)?;
        }
    }
    Ok(names)
}

fn with_texts(names: Seq<Text>, more: &[Text]) -> Result<Seq<Text>, AllocError>
    ensures { IfOk result (λ all. all ≡ names ++ more.now) }
{
    let mut names = names;
    for name in more {
        names.push(name.clone()?)?;
    }
    Ok(names)
}

fn with_given(names: Seq<Text>, more: &[RequestedName]) -> Result<Seq<Text>, AllocError>
    ensures { IfOk result (λ all. all ≡ names ++ more.now) }
{
    let mut names = names;
    for name in more {
        names.push(name.text().clone()?)?;
    }
    Ok(names)
}

fn with_one(names: Seq<Text>, one: Option<&Text>) -> Result<Seq<Text>, AllocError>
    ensures { IfOk result (λ all. all ≡ names ++ spec.listed (option_copied one.entry)) }
{
    let mut names = names;
    if let Some(name) = one {
        names.push(name.clone()?)?;
    }
    Ok(names)
}

fn with_new(names: Seq<Text>, one: Option<&RequestedName>) -> Result<Seq<Text>, AllocError>
    ensures { IfOk result (λ all. all ≡ names ++ spec.listed (option_copied one.entry)) }
{
    let mut names = names;
    if let Some(name) = one {
        names.push(name.text().clone()?)?;
    }
    Ok(names)
}
