//! Turns: at its expiry a domain renews itself by one year (RFC 3915, 3.1).
ghost use Rattle.std.specs.Prelude.{◌≡◌, ◌<◌, ◌++◌, IfOk, IfSome, OnOk};
ghost use Rattle.calendar.specs.Moment.{plus_years};
ghost use Rattle.objects.specs.Domains.{expiry};
ghost use Rattle.lifecycle.specs.Lapse as spec;
ghost use Rattle.lifecycle.specs.{Periods.passed, Turns.turns};

use accounts::{AutoRenewal, LapseEntry, LapseNotice, Message, Origin, Posting, Subject};
use basis::list::Seq;
use basis::registrar::RegistrarNo;
use basis::text::Text;
use calendar::Moment;
use objects::Domain;
use policy::Policy;
use std::alloc::AllocError;

/// A message of a lapse to a registrar.
pub(crate) fn lapse_notice(
    registrar: RegistrarNo,
    moment: Moment,
    notice: LapseNotice,
    name: &Text,
    subject: Subject,
) -> Result<Posting, AllocError>
    ensures { IfOk result (λ posting. posting ≡ spec.lapse_notice registrar moment notice name.now
        subject) }
{
    Ok(Posting {
        registrar,
        what: LapseEntry::Notice(Message {
            moment,
            origin: Origin::Lapse(notice),
            name: name.clone()?,
            subject,
        }),
    })
}

/// The moment that many years later, if it comes by the limit.
pub(crate) fn years_by(start: Moment, years: u32, limit: Moment) -> Option<Moment>
    ensures value { result ≡ passed limit (plus_years start years) }
    ensures small { IfSome result (λ m. years < 1_000_000) }
{
    let _ = (start.secs(), limit.secs());
    let Ok(end) = start.plus_years(years) else {
        return None;
    };
    if limit < end { None } else { Some(end) }
}

/// The domain's expiry, if it has come.
fn expired(domain: &Domain, moment: Moment) -> Option<Moment>
    ensures value { result ≡ passed moment (expiry domain.now) }
    ensures small { IfSome result (λ m. domain.now.years < 1_000_000) }
{
    years_by(domain.created, domain.years, moment)
}

/// The charge for an automatic year.
fn charge(policy: &Policy, domain: &Domain, moment: Moment) -> Posting
    ensures { result ≡ spec.renewal_charge policy.now moment domain.now }
{
    Posting {
        registrar: domain.sponsor,
        what: LapseEntry::Renewal(AutoRenewal {
            roid: domain.roid,
            moment,
            cents: u64::from(policy.renew_price()),
        }),
    }
}

/// Adds the year that begins at the domain's expiry.
fn turn(
    policy: &Policy,
    domain: &mut Domain,
    moment: Moment,
    postings: &mut Seq<Posting>,
) -> Result<(), AllocError>
    requires expiry { moment ≡ expiry domain.old }
    requires small { domain.old.years < 1_000_000 }
    ensures domain { OnOk result (domain.new ≡ spec.raised 1 domain.old) }
    ensures postings { OnOk result (postings.new ≡ postings.old ++ spec.turn policy.now domain.old
        0) }
{
    let _ = moment.secs();
    let (sponsor, notice) = (domain.sponsor, LapseNotice::RenewedAutomatically);
    postings.push(charge(policy, domain, moment))?;
    postings.push(lapse_notice(sponsor, moment, notice, &domain.name, Subject::Domain)?)?;
    domain.years += 1;
    Ok(())
}

/// Renews the domain until its expiry lies after the moment.
pub(crate) fn renew(
    policy: &Policy,
    domain: &mut Domain,
    moment: Moment,
    postings: &mut Seq<Posting>,
) -> Result<(), AllocError>
    ensures domain { OnOk result (domain.new ≡ spec.raised (turns domain.old moment) domain.old) }
    ensures postings { OnOk result (postings.new ≡ postings.old
        ++ spec.renewals policy.now domain.old (turns domain.old moment)) }
{
    while let Some(expiry) = expired(domain, moment) {
        turn(policy, domain, expiry, postings)?;
    }
    Ok(())
}
