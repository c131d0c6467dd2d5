//! The lapse of a domain: what time alone has made of it.
ghost use Rattle.std.specs.Prelude.{◌≡◌, ◌<◌, ◌+◌, ◌++◌, Some, IfOk, OnOk};
ghost use Rattle.lifecycle.specs.Lapse as spec;

use crate::deletion::purged_by;
use crate::lapsed::Lapsed;
use crate::renewal::{lapse_notice, renew, years_by};
use crate::transfer::{approved, gained, take_over};
use accounts::{LapseEntry, LapseNotice, Posting, Subject, TransferStart};
use basis::list::Seq;
use calendar::Moment;
use objects::{Deletion, Domain, Transfer};
use policy::Policy;
use std::alloc::{AllocError, Global};

/// The beginning of a transfer's grace.
fn start(domain: &Domain, transfer: &Transfer, years: u32) -> Posting
    ensures { result ≡ spec.transfer_start transfer.now years domain.now }
{
    Posting {
        registrar: transfer.requester,
        what: LapseEntry::Start(TransferStart {
            roid: domain.roid,
            moment: transfer.ac_date,
            years,
        }),
    }
}

/// Posts what the completion of a transfer brings.
fn post_completion(
    transfer: &Transfer,
    years: u32,
    domain: &Domain,
    postings: &mut Seq<Posting>,
) -> Result<(), AllocError>
    ensures { OnOk result (postings.new ≡ postings.old ++ spec.completion transfer.now years
        domain.now) }
{
    let (moment, notice) = (transfer.ac_date, LapseNotice::TransferApproved);
    let (loser, gainer) = (transfer.losing_registrar, transfer.requester);
    postings.push(start(domain, transfer, years))?;
    postings.push(lapse_notice(loser, moment, notice, &domain.name, Subject::Domain)?)?;
    postings.push(lapse_notice(gainer, moment, notice, &domain.name, Subject::Domain)?)?;
    Ok(())
}

/// Completes the transfer.
fn complete(
    transfer: Transfer,
    domain: &mut Domain,
    postings: &mut Seq<Posting>,
) -> Result<(), AllocError>
    ensures domain { OnOk result (domain.new ≡ spec.moved transfer domain.old) }
    ensures postings { OnOk result (postings.new ≡ postings.old
        ++ (spec.completed transfer domain.old).postings) }
{
    let moment = transfer.ac_date;
    let years = gained(domain, moment);
    post_completion(&transfer, years, domain, postings)?;
    take_over(domain, approved(transfer));
    Ok(())
}

/// The transfer that is pending and due by the moment.
pub(crate) fn due_by(moment: Moment, transfer: Option<Transfer>) -> Option<Transfer>
    ensures { result ≡ spec.due_by moment transfer }
{
    let transfer = transfer?;
    if transfer.is_pending() && transfer.ac_date <= moment {
        Some(transfer)
    } else {
        None
    }
}

/// Brings a domain that isn't deleted to the moment.
fn advance(
    policy: &Policy,
    domain: &mut Domain,
    moment: Moment,
    postings: &mut Seq<Posting>,
) -> Result<(), AllocError>
    ensures domain { OnOk result (Some domain.new
        ≡ (spec.living policy.now moment domain.old).object) }
    ensures postings { OnOk result (postings.new ≡ postings.old
        ++ (spec.living policy.now moment domain.old).postings) }
{
    let Some(transfer) = due_by(moment, domain.transfer) else {
        return renew(policy, domain, moment, postings);
    };
    renew(policy, domain, transfer.ac_date, postings)?;
    complete(transfer, domain, postings)?;
    renew(policy, domain, moment, postings)
}

/// The domain as time alone leaves it at the moment, and what is posted into accounts. To lapse on
/// from there is to lapse at once.
pub fn lapse(
    alloc: Global,
    domain: &Domain,
    moment: Moment,
    policy: &Policy,
) -> Result<Lapsed<Domain>, AllocError>
    ensures { IfOk result (λ lapsed. spec.IsLapseOf policy.now moment domain.now lapsed) }
{
    lapse_any(alloc, domain, moment, policy)
}

/// The same for any domain.
fn lapse_any(
    alloc: Global,
    domain: &Domain,
    moment: Moment,
    policy: &Policy,
) -> Result<Lapsed<Domain>, AllocError>
    ensures { IfOk result (λ lapsed. lapsed ≡ spec.lapse policy.now moment domain.now) }
{
    if let Some(deletion) = domain.deletion {
        return lapse_deleted(alloc, domain, deletion, moment, policy);
    }
    let mut domain = domain.clone()?;
    let mut postings = Seq::new(alloc);
    advance(policy, &mut domain, moment, &mut postings)?;
    Ok(Lapsed {
        object: Some(domain),
        postings,
    })
}

/// The same for a deleted domain.
fn lapse_deleted(
    alloc: Global,
    domain: &Domain,
    deletion: Deletion,
    moment: Moment,
    policy: &Policy,
) -> Result<Lapsed<Domain>, AllocError>
    ensures { IfOk result (λ lapsed. lapsed ≡ spec.lapse_by policy.now moment (Some deletion)
        domain.now) }
{
    let mut postings = Seq::new(alloc);
    let Some(end) = purged_by(&deletion, moment, policy) else {
        return Ok(Lapsed {
            object: Some(domain.clone()?),
            postings,
        });
    };
    let (sponsor, notice) = (domain.sponsor, LapseNotice::Purged);
    postings.push(lapse_notice(sponsor, end, notice, &domain.name, Subject::Domain)?)?;
    Ok(Lapsed {
        object: None,
        postings,
    })
}
