//! The years of a domain that is restored (RFC 3915, 4.2.5).
ghost use Rattle.std.specs.Prelude.{◌≡◌, ◌<◌, ◌+◌, nat_lt, not, true};
ghost use Rattle.calendar.specs.Moment.{plus_years};
ghost use Rattle.lifecycle.specs.Turns.{turns};

use crate::renewal::years_by;
use calendar::Moment;
use objects::Domain;

/// Whether the domain expires by the moment, with so many years more.
fn expires_by(domain: &Domain, more: u32, moment: Moment) -> bool
    ensures value { result
        ≡ not (nat_lt moment (plus_years domain.now.created (domain.now.years + more))) }
    ensures small { result ≡ true → domain.now.years + more < 1_000_000 }
{
    let _ = moment.secs();
    match domain.years.checked_add(more) {
        Some(years) => years_by(domain.created, years, moment).is_some(),
        None => false,
    }
}

/// The least number of years more with which the domain expires after the moment.
pub fn years_to_outlast(domain: &Domain, moment: Moment) -> u32
    ensures value { result ≡ turns domain.now moment }
    ensures small { domain.now.years + result < 4_294_967_296 }
{
    // Shows the prover that they are a u32.
    let _years = domain.years;
    let mut years = 0;
    while expires_by(domain, years, moment) {
        years += 1;
    }
    years
}
