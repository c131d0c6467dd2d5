//! The graces that run on a domain (RFC 3915, 3.1).
ghost use Rattle.std.specs.{Prelude.{◌≡◌, unwrap_or}, Option.option_copied, List.list_any};
ghost use Rattle.accounts.specs.{Account.empty_account, declared.line.Line.Line};
ghost use Rattle.lifecycle.specs.Graces as spec;

use crate::deletion::phase;
use crate::period::is_within;
use accounts::{Account, Line, LineKind, Lines};
use calendar::Moment;
use objects::{Domain, Graces, Roid, Standing};
use policy::{Period, Policy};

/// The grace that a charge begins.
pub fn period_of(kind: LineKind) -> Option<Period>
    ensures { result ≡ spec.period_of kind }
{
    match kind {
        LineKind::Deposit => None,
        LineKind::Create => Some(Period::Add),
        LineKind::Renew => Some(Period::Renew),
        LineKind::AutoRenew => Some(Period::AutoRenew),
        LineKind::Transfer => Some(Period::Transfer),
        LineKind::Restore => None,
    }
}

/// Whether a grace that began then still counts after the domain's last transfer.
fn is_since(transferred: Option<Moment>, start: Moment) -> bool
    ensures { result ≡ spec.is_since transferred start }
{
    match transferred {
        Some(transferred) => start >= transferred,
        None => true,
    }
}

/// Whether the line's grace runs at the moment, on a domain with this identifier that was last
/// transferred then.
pub fn runs(
    line: &Line,
    roid: &Roid,
    transferred: Option<Moment>,
    moment: Moment,
    policy: &Policy,
) -> bool
    ensures { result ≡ spec.runs policy.now moment roid.now transferred line.now }
{
    if !line.is_on(roid) || line.refunded.is_some() {
        return false;
    }
    let Some(start) = line.started else {
        return false;
    };
    let Some(period) = period_of(line.kind) else {
        return false;
    };
    if start > moment || !is_since(transferred, start) {
        return false;
    }
    is_within(policy, period, start, moment)
}

/// Whether a grace of that kind runs.
fn has_grace(
    kind: LineKind,
    lines: &[Line],
    domain: &Domain,
    moment: Moment,
    policy: &Policy,
) -> bool
    ensures { result ≡ list_any (λ (line : Line). spec.gives kind policy.now moment domain.now.roid
        domain.now.transferred line) lines.now }
{
    lines.iter().any(|line| {
        line.kind.is(kind) && runs(line, &domain.roid, domain.transferred, moment, policy)
    })
}

/// The graces that these lines give a domain.
#[tactic(auto, unfolding(crate::specs::Graces::graces))]
pub fn graces(domain: &Domain, lines: &[Line], moment: Moment, policy: &Policy) -> Graces
    ensures { result ≡ spec.graces policy.now moment domain.now.roid domain.now.transferred
        lines.now }
{
    Graces {
        add: has_grace(LineKind::Create, lines, domain, moment, policy),
        auto_renew: has_grace(LineKind::AutoRenew, lines, domain, moment, policy),
        renew: has_grace(LineKind::Renew, lines, domain, moment, policy),
        transfer: has_grace(LineKind::Transfer, lines, domain, moment, policy),
    }
}

/// The graces that its sponsor's lines give a domain. It goes over those of the domain alone.
fn graces_by(domain: &Domain, lines: &Lines, moment: Moment, policy: &Policy) -> Graces
    ensures { result ≡ spec.graces policy.now moment domain.now.roid domain.now.transferred
        lines.now }
{
    graces(domain, lines.on(&domain.roid), moment, policy)
}

/// The graces and the phase of a domain whose sponsor has this account, or none.
pub fn standing(
    domain: &Domain,
    sponsor: Option<&Account>,
    moment: Moment,
    policy: &Policy,
) -> Standing
    ensures { result ≡ spec.standing policy.now moment (unwrap_or (option_copied sponsor.entry)
        empty_account).lines domain.now }
{
    let graces = match sponsor {
        None => graces(domain, &[], moment, policy),
        Some(account) => graces_by(domain, &account.lines, moment, policy),
    };
    Standing {
        graces,
        phase: phase(domain, moment, policy),
    }
}
