//! What answers hello.
ghost use Rattle.std.specs.Prelude.{◌≡◌, IfOk};
ghost use Rattle.serde_json.specs.{Data.object, View.view};
ghost use Rattle.jsonobjects.specs.Members.{members_with};
ghost use Rattle.eppreplies.specs.Greeting as spec;

use calendar::Moment;
use jsonobjects::{Item, object, texts};
use objects::ObjectKind;
use serde_json::Value;
use std::alloc::{AllocError, Global};

/// The greeting, with the server's date (RFC 5730, 2.4).
pub fn greeting_bytes(alloc: Global, date: Moment) -> Result<Vec<u8>, AllocError>
    ensures { IfOk result (λ bytes. bytes.items ≡ spec.greeting_text date) }
{
    greeting_value(alloc, date)?.to_vec(alloc)
}

fn greeting_value(alloc: Global, date: Moment) -> Result<Value, AllocError>
    ensures { IfOk result (λ v. view v ≡ spec.greeting_value date) }
{
    let greeting = greeting_members(alloc, date)?;
    object(alloc, vec![in alloc; ("greeting", Item::Given(greeting))]?)
}

fn greeting_members(alloc: Global, date: Moment) -> Result<Value, AllocError>
    ensures { IfOk result (λ v. view v ≡ object (members_with (spec.greeting_members date))) }
{
    let objects = objects_value(alloc)?;
    let members = vec![in alloc;
        ("objects", Item::Given(objects)),
        ("server", Item::Word("tldreg")),
        ("svDate", Item::Time(date)),
        ("version", Item::Word("1.0")),
    ]?;
    object(alloc, members)
}

/// The kinds of objects that commands are on.
fn objects_value(alloc: Global) -> Result<Value, AllocError>
    ensures { IfOk result (λ v. view v ≡ spec.objects_value) }
{
    texts(
        alloc,
        &[ObjectKind::Contact, ObjectKind::Domain, ObjectKind::Host],
    )
}
