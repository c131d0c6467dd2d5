//! What commands cost.
ghost use Rattle.std.specs.{Prelude.◌≡◌, Option.option_copied};
ghost use Rattle.rules.specs.Charges as spec;

use calendar::Moment;
use facts::Facts;
use lifecycle::years_to_outlast;
use objects::{DomainFace, FullDomain, Seen};
use policy::Policy;
use protocol::{Action, Request};

/// What a command costs at a moment, in cents: the price of each year for which it charges.
pub fn charge_of(policy: &Policy, request: &Request, facts: &Facts, moment: Moment) -> u64
    ensures { result ≡ spec.charge_of policy.now moment request.now facts.now }
{
    u64::from(price_of(policy, request.action())) * u64::from(years_charged(request, facts, moment))
}

/// The years for which a command charges: those that it names, or those that a domain needs that is
/// restored.
pub fn years_charged(request: &Request, facts: &Facts, moment: Moment) -> u32
    ensures { result ≡ spec.years_charged moment request.now facts.now }
{
    match request {
        Request::ReportRestore { name, .. } => years_needed(facts.domain_seen(name.text()), moment),
        _ => request.years(),
    }
}

/// The least number of years more with which a domain that is seen in full expires after the
/// moment.
fn years_needed(seen: Option<&Seen<FullDomain, DomainFace>>, moment: Moment) -> u32
    ensures { result ≡ spec.years_needed moment (option_copied seen.entry) }
{
    match seen {
        Some(Seen::Full(known)) => years_to_outlast(&known.domain, moment),
        _ => 0,
    }
}

/// The price of a year in cents.
fn price_of(policy: &Policy, action: Action) -> u32
    ensures { result ≡ spec.price_of policy.now action }
{
    match action {
        Action::Create => policy.create_price(),
        Action::Renew | Action::ReportRestore => policy.renew_price(),
        Action::RequestTransfer => policy.transfer_price(),
        _ => 0,
    }
}
