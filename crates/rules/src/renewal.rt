//! What a renewal would make of a domain, and the conditions on it (RFC 5731, 3.2.3).
ghost use Rattle.std.specs.{Prelude.{◌≡◌, nat_lt}, Option.option_copied};
ghost use Rattle.calendar.specs.Moment.{capped, plus_years};
ghost use Rattle.protocol.specs.Requests.{holds_of};
ghost use Rattle.rules.specs.Conditions as spec;
ghost use Rattle.rules.specs.inner.Cases as words;

use basis::text::Text;
use calendar::Moment;
use objects::Domain;

/// The most years for which a domain is registered from a moment on.
const MOST_YEARS: u64 = 10;

/// The moment to which the domain is registered afterwards, or the last moment where that is later.
pub(crate) fn renewed_expiry(domain: &Domain, years: u32) -> Moment
    ensures { result ≡ capped (spec.renewed_expiry years domain.now) }
{
    let all = domain.years.saturating_add(years);
    domain.created.plus_years_capped(all)
}

/// Whether there is a domain that would be registered for more than ten years from the moment on.
pub(crate) fn passes_ten_years(moment: Moment, years: u32, domain: Option<&Domain>) -> bool
    ensures { result ≡ words.is_met (λ d. nat_lt (plus_years moment 10)
        (spec.renewed_expiry years d)) domain.entry }
{
    let Some(domain) = domain else {
        return false;
    };
    let all = u64::from(domain.years) + u64::from(years);
    domain.created.is_later_by(all, &moment, MOST_YEARS)
}

/// Whether there is a domain, and a date that isn't the one on which it is shown to expire.
pub(crate) fn expires_otherwise(date: Option<&Text>, domain: Option<&Domain>) -> bool
    ensures { result ≡ words.is_met (λ d. holds_of (spec.is_another_date d)
        (option_copied date.entry)) domain.entry }
{
    match (date, domain) {
        (Some(date), Some(domain)) => !domain.expiry().is_on(date.as_str()),
        _ => false,
    }
}
