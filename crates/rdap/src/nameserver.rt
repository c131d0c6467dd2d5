//! Nameservers (RFC 9083, 5.2).
ghost use Rattle.std.specs.Prelude.{◌≡◌, IfOk, Some};
ghost use Rattle.serde_json.specs.View.{view};
ghost use Rattle.jsonobjects.specs.Item.{item_value};
ghost use Rattle.rdap.specs.Bodies as spec;

use crate::body::{Dates, conformance, events_value, roid_value, words_value};
use basis::text::Text;
use jsonobjects::{Item, object, texts};
use names::HostName;
use objects::HostFace;
use serde_json::Value;
use std::alloc::{AllocError, Global};

/// The body for the host with this name and face.
pub fn nameserver_body(
    alloc: Global,
    name: &HostName,
    face: &HostFace,
) -> Result<Vec<u8>, AllocError>
    ensures { IfOk result (λ body. body.items ≡ spec.nameserver_text name.now face.now) }
{
    nameserver_value(alloc, name, face)?.to_vec(alloc)
}

fn nameserver_value(alloc: Global, name: &HostName, face: &HostFace) -> Result<Value, AllocError>
    ensures { IfOk result (λ v. view v ≡ spec.nameserver_value name.now face.now) }
{
    let dates = Dates {
        created: face.created,
        expires: None,
        updated: face.updated,
        transferred: None,
    };
    let events = events_value(alloc, &dates)?;
    let handle = roid_value(alloc, face.roid)?;
    let addresses = addresses_item(alloc, face.addresses.as_slice())?;
    let conformance = conformance(alloc)?;
    let status = words_value(alloc, face.statuses.as_slice(), &[])?;
    let unicode = unicode_value(alloc, name)?;
    let members = vec![in alloc;
        ("events", Item::Given(events)),
        ("handle", Item::Given(handle)),
        ("ipAddresses", addresses),
        ("ldhName", Item::Text(name.text())),
        ("objectClassName", Item::Word("nameserver")),
        ("rdapConformance", Item::Given(conformance)),
        ("status", Item::Given(status)),
        ("unicodeName", Item::Given(unicode)),
    ]?;
    object(alloc, members)
}

/// The name in Unicode (RFC 9083, 3).
fn unicode_value(alloc: Global, name: &HostName) -> Result<Value, AllocError>
    ensures { IfOk result (λ v. Some (view v) ≡ spec.unicode_value name.now) }
{
    match name.unicode(alloc) {
        Ok(text) => Ok(Value::String(text)),
        Err(_) => Err(AllocError),
    }
}

/// The addresses by their versions, if there are any.
fn addresses_item(alloc: Global, addresses: &[Text]) -> Result<Item<'static>, AllocError>
    ensures { IfOk result (λ item. item_value item ≡ spec.addresses_value addresses.now) }
{
    if addresses.is_empty() {
        return Ok(Item::Absent);
    }
    Ok(Item::Given(addresses_object(alloc, addresses)?))
}

fn addresses_object(alloc: Global, addresses: &[Text]) -> Result<Value, AllocError>
    ensures { IfOk result (λ v. view v ≡ spec.addresses_object addresses.now) }
{
    let members = vec![in alloc;
        ("v4", some_texts(alloc, of_version_4(alloc, addresses)?)?),
        ("v6", some_texts(alloc, of_version_6(alloc, addresses)?)?),
    ]?;
    object(alloc, members)
}

fn some_texts(alloc: Global, list: Vec<Text>) -> Result<Item<'static>, AllocError>
    ensures { IfOk result (λ item. item_value item ≡ spec.some_texts list.items) }
{
    if list.is_empty() {
        return Ok(Item::Absent);
    }
    Ok(Item::Given(texts(alloc, &list)?))
}

/// Those addresses without a colon (RFC 1035, 3.4.1).
fn of_version_4(alloc: Global, addresses: &[Text]) -> Result<Vec<Text>, AllocError>
    ensures { IfOk result (λ list. list.items ≡ spec.of_version_4 addresses.now) }
{
    let mut list = Vec::new(alloc);
    for address in addresses {
        if !has_colon(address.as_str().as_bytes()) {
            list.push(address.clone()?)?;
        }
    }
    Ok(list)
}

/// Those addresses with a colon (RFC 3596, 2.1).
fn of_version_6(alloc: Global, addresses: &[Text]) -> Result<Vec<Text>, AllocError>
    ensures { IfOk result (λ list. list.items ≡ spec.of_version_6 addresses.now) }
{
    let mut list = Vec::new(alloc);
    for address in addresses {
        if has_colon(address.as_str().as_bytes()) {
            list.push(address.clone()?)?;
        }
    }
    Ok(list)
}

fn has_colon(text: &[u8]) -> bool
    ensures { result ≡ spec.is_version_6 text.now }
{
    text.iter().any(|byte| *byte == b':')
}
