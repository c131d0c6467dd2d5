//! The lapse of a contact: the completion of its transfer (RFC 5733, 3.2.4).
ghost use Rattle.std.specs.Prelude.{◌≡◌, ◌++◌, IfOk, OnOk};
ghost use Rattle.lifecycle.specs.Lapse as spec;

use crate::domain::due_by;
use crate::lapsed::Lapsed;
use crate::renewal::lapse_notice;
use crate::transfer::{approved, take_over_contact};
use accounts::{LapseNotice, Posting, Subject};
use basis::list::Seq;
use calendar::Moment;
use objects::{Contact, Transfer};
use std::alloc::{AllocError, Global};

/// Gives both sides a message that a transfer is completed.
fn post_completion(
    transfer: &Transfer,
    contact: &Contact,
    postings: &mut Seq<Posting>,
) -> Result<(), AllocError>
    ensures { OnOk result (postings.new ≡ postings.old ++ spec.contact_completion transfer.now
        contact.now) }
{
    let (moment, notice) = (transfer.ac_date, LapseNotice::TransferApproved);
    let (loser, gainer) = (transfer.losing_registrar, transfer.requester);
    postings.push(lapse_notice(loser, moment, notice, &contact.name, Subject::Contact)?)?;
    postings.push(lapse_notice(gainer, moment, notice, &contact.name, Subject::Contact)?)?;
    Ok(())
}

/// The contact as time alone leaves it at the moment, and what is posted into accounts. To lapse on
/// from there is to lapse at once.
pub fn lapse_contact(
    alloc: Global,
    contact: &Contact,
    moment: Moment,
) -> Result<Lapsed<Contact>, AllocError>
    ensures { IfOk result (λ lapsed. spec.IsContactLapseOf moment contact.now lapsed) }
{
    lapse_any(alloc, contact, moment)
}

/// The same for any contact.
fn lapse_any(
    alloc: Global,
    contact: &Contact,
    moment: Moment,
) -> Result<Lapsed<Contact>, AllocError>
    ensures { IfOk result (λ lapsed. lapsed ≡ spec.lapse_contact moment contact.now) }
{
    let mut postings = Seq::new(alloc);
    let Some(transfer) = due_by(moment, contact.transfer) else {
        return Ok(Lapsed {
            object: Some(contact.copy()?),
            postings,
        });
    };
    post_completion(&transfer, contact, &mut postings)?;
    let mut contact = contact.copy()?;
    take_over_contact(&mut contact, approved(transfer));
    Ok(Lapsed {
        object: Some(contact),
        postings,
    })
}
