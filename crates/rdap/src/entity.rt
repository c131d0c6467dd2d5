//! Entities (RFC 9083, 5.1).
ghost use Rattle.std.specs.Prelude.{◌≡◌, IfOk};
ghost use Rattle.serde_json.specs.View.{view};
ghost use Rattle.rdap.specs.Bodies as spec;

use crate::body::{Dates, conformance, events_value, words_value};
use jsonobjects::{Item, object};
use objects::ContactFace;
use serde_json::Value;
use std::alloc::{AllocError, Global};

/// The body for the contact with this face. The statuses are those that it shows, `linked`
/// among them where a domain names it.
pub fn contact_body(alloc: Global, face: &ContactFace) -> Result<Vec<u8>, AllocError>
    ensures { IfOk result (λ body. body.items ≡ spec.contact_text face.now) }
{
    contact_value(alloc, face)?.to_vec(alloc)
}

fn contact_value(alloc: Global, face: &ContactFace) -> Result<Value, AllocError>
    ensures { IfOk result (λ v. view v ≡ spec.entity_object face.now) }
{
    let dates = Dates {
        created: face.created,
        expires: None,
        updated: face.updated,
        transferred: face.transferred,
    };
    let events = events_value(alloc, &dates)?;
    let conformance = conformance(alloc)?;
    let status = words_value(alloc, face.statuses.as_slice(), &[])?;
    let members = vec![in alloc;
        ("events", Item::Given(events)),
        ("handle", Item::Text(&face.name)),
        ("objectClassName", Item::Word("entity")),
        ("rdapConformance", Item::Given(conformance)),
        ("status", Item::Given(status)),
    ]?;
    object(alloc, members)
}
