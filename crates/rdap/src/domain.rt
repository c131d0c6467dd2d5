//! Domains (RFC 9083, 5.3).
ghost use Rattle.std.specs.Prelude.{◌≡◌, ◌++◌, ◌∷◌, IfOk, OnOk, Some, filter, map};
ghost use Rattle.serde_json.specs.{Data.array, View.{view, items_of}};
ghost use Rattle.policy.specs.Rules.{id_at};
ghost use Rattle.rdap.specs.Bodies as spec;

use crate::body::{Dates, conformance, events_value, roid_value, words_value};
use basis::list::Seq;
use basis::registrar::RegistrarNo;
use basis::text::Text;
use jsonobjects::{Item, Shown, object, texts};
use names::DomainName;
use objects::{DomainFace, Links, Standing, Status, has_name, in_order};
use policy::Policy;
use serde_json::Value;
use std::alloc::{AllocError, Global};

/// What an entity is to a domain (RFC 9083, 10.2.4).
#[derive(Clone, Copy, Debug, PartialEq, Eq, Drop)]
pub enum Role {
    Registrant,
    Administrative,
    Technical,
    Registrar,
}

/// The roles of contacts, in the order in which they are printed.
const CONTACT_ROLES: [Role; 3] = [Role::Registrant, Role::Administrative, Role::Technical];

impl Shown for Role {
    ghost use Rattle.rdap.specs.Bodies.{role_text};

    ghost shown = { role_text };

    fn shown(&self) -> &str {
        match self {
            Role::Registrant => "registrant",
            Role::Administrative => "administrative",
            Role::Technical => "technical",
            Role::Registrar => "registrar",
        }
    }
}

/// The body for the domain with this name and face.
pub fn domain_body(
    alloc: Global,
    policy: &Policy,
    name: &DomainName,
    face: &DomainFace,
) -> Result<Vec<u8>, AllocError>
    ensures { IfOk result (λ body. body.items ≡ spec.domain_text policy.now name.now face.now) }
{
    domain_value(alloc, policy, name, face)?.to_vec(alloc)
}

fn domain_value(
    alloc: Global,
    policy: &Policy,
    name: &DomainName,
    face: &DomainFace,
) -> Result<Value, AllocError>
    ensures { IfOk result (λ v. view v ≡ spec.domain_object policy.now name.now face.now) }
{
    let dates = Dates {
        created: face.created,
        expires: Some(face.expires),
        updated: face.updated,
        transferred: face.transferred,
    };
    let entities = entities_value(alloc, policy, face.sponsor, &face.links)?;
    let events = events_value(alloc, &dates)?;
    let handle = roid_value(alloc, face.roid)?;
    let hosts = hosts_value(alloc, face.links.hosts.as_slice())?;
    let conformance = conformance(alloc)?;
    let status = status_value(alloc, face.statuses.as_slice(), face.standing)?;
    let unicode = unicode_value(alloc, name)?;
    let members = vec![in alloc;
        ("entities", Item::Given(entities)),
        ("events", Item::Given(events)),
        ("handle", Item::Given(handle)),
        ("ldhName", Item::Text(name.text())),
        ("nameservers", Item::Given(hosts)),
        ("objectClassName", Item::Word("domain")),
        ("rdapConformance", Item::Given(conformance)),
        ("status", Item::Given(status)),
        ("unicodeName", Item::Given(unicode)),
    ]?;
    object(alloc, members)
}

/// The name in Unicode (RFC 9083, 3).
fn unicode_value(alloc: Global, name: &DomainName) -> Result<Value, AllocError>
    ensures { IfOk result (λ v. Some (view v) ≡ spec.unicode_value name.now) }
{
    match name.unicode(alloc) {
        Ok(text) => Ok(Value::String(text)),
        Err(_) => Err(AllocError),
    }
}

/// The words of the statuses, and of the states of grace of a domain in this state.
fn status_value(alloc: Global, statuses: &[Status], standing: Standing) -> Result<Value, AllocError>
    ensures { IfOk result (λ v. view v ≡ spec.standing_value statuses.now standing) }
{
    let states = standing.states(alloc)?;
    words_value(alloc, statuses, states.as_slice())
}

/// The contacts by name, and the registrar.
fn entities_value(
    alloc: Global,
    policy: &Policy,
    sponsor: RegistrarNo,
    links: &Links,
) -> Result<Value, AllocError>
    ensures { IfOk result (λ v. view v
        ≡ array (items_of (spec.entities (id_at policy.now sponsor) links.now))) }
{
    let contacts = contacts_of(alloc, links)?;
    let mut entities = contact_entities(alloc, links, contacts.as_slice())?;
    if let Some(id) = policy.id_of(sponsor) {
        entities.push(role_value(alloc, id, &[Role::Registrar])?)?;
    }
    Ok(Value::Array(entities))
}

fn contact_entities(
    alloc: Global,
    links: &Links,
    contacts: &[Text],
) -> Result<Vec<Value>, AllocError>
    ensures { IfOk result (λ list. map view list.items ≡ map (spec.contact_entity links.now)
        contacts.now) }
{
    let mut list = Vec::new(alloc);
    for contact in contacts {
        let roles = roles_of(alloc, links, contact, &CONTACT_ROLES)?;
        list.push(role_value(alloc, contact, &roles)?)?;
    }
    Ok(list)
}

/// The names of the contacts in order, each once.
fn contacts_of(alloc: Global, links: &Links) -> Result<Seq<Text>, AllocError>
    ensures { IfOk result (λ names. names ≡ spec.contact_names links.now) }
{
    let mut sorted = in_order(alloc, &named_contacts(alloc, links)?)?.into_vec();
    sorted.dedup();
    Ok(Seq::from_vec(sorted))
}

fn named_contacts(alloc: Global, links: &Links) -> Result<Vec<Text>, AllocError>
    ensures { IfOk result (λ names. names.items ≡ (links.now.registrant ∷ links.now.admin)
        ++ links.now.tech) }
{
    let mut names = Vec::new(alloc);
    names.push(links.registrant.clone()?)?;
    add_names(links.admin.as_slice(), &mut names)?;
    add_names(links.tech.as_slice(), &mut names)?;
    Ok(names)
}

fn add_names(more: &[Text], names: &mut Vec<Text>) -> Result<(), AllocError>
    ensures { OnOk result (names.new.items ≡ names.old.items ++ more.now) }
{
    for name in more {
        names.push(name.clone()?)?;
    }
    Ok(())
}

/// Whether a contact has the role.
fn plays(links: &Links, name: &Text, role: Role) -> bool
    ensures { result ≡ spec.plays links.now name.now role }
{
    match role {
        Role::Registrant => links.registrant == *name,
        Role::Administrative => has_name(links.admin.as_slice(), name),
        Role::Technical => has_name(links.tech.as_slice(), name),
        Role::Registrar => false,
    }
}

/// Those of the roles that a contact has.
fn roles_of(
    alloc: Global,
    links: &Links,
    name: &Text,
    roles: &[Role],
) -> Result<Vec<Role>, AllocError>
    ensures { IfOk result (λ list. list.items ≡ filter (spec.plays links.now name.now) roles.now) }
{
    roles
        .iter()
        .copied()
        .filter(|role| plays(links, name, *role))
        .collect(alloc)
}

fn role_value(alloc: Global, handle: &Text, roles: &[Role]) -> Result<Value, AllocError>
    ensures { IfOk result (λ v. view v ≡ spec.role_value handle.now roles.now) }
{
    let roles = texts(alloc, roles)?;
    let members = vec![in alloc;
        ("handle", Item::Text(handle)),
        ("objectClassName", Item::Word("entity")),
        ("roles", Item::Given(roles)),
    ]?;
    object(alloc, members)
}

/// The nameservers of a domain, by name.
fn hosts_value(alloc: Global, hosts: &[Text]) -> Result<Value, AllocError>
    ensures { IfOk result (λ v. view v ≡ array (items_of (map spec.host_object hosts.now))) }
{
    let mut list = Vec::new(alloc);
    for host in hosts {
        list.push(host_value(alloc, host)?)?;
    }
    Ok(Value::Array(list))
}

fn host_value(alloc: Global, name: &Text) -> Result<Value, AllocError>
    ensures { IfOk result (λ v. view v ≡ spec.host_object name.now) }
{
    let members = vec![in alloc;
        ("ldhName", Item::Text(name)),
        ("objectClassName", Item::Word("nameserver")),
    ]?;
    object(alloc, members)
}
