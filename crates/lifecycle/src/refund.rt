//! What a deletion gives back: each line of the domain's sponsor whose grace runs (RFC 3915, 3.1).
ghost use Rattle.std.specs.{Prelude.{◌≡◌, ◌<◌, length, unwrap_or}, List.sum_by};
ghost use Rattle.std.specs.Option.{option_copied};
ghost use Rattle.accounts.specs.Account.{empty_account};
ghost use Rattle.lifecycle.specs.Refunds as spec;

use crate::change::RunningRefund;
use crate::grace::runs;
use accounts::{Account, Line, Lines};
use calendar::Moment;
use objects::Domain;
use policy::Policy;

/// What is given back.
#[derive(Clone, Copy, Drop)]
pub struct GivenBack {
    /// In whole cents.
    pub cents: u128,
    /// Years of registration.
    pub years: u128,
}

impl GivenBack {
    /// Where there is nothing to give back.
    pub fn nothing() -> GivenBack
        ensures { result ≡ spec.nothing }
    {
        GivenBack { cents: 0, years: 0 }
    }
}

impl RunningRefund {
    /// Of a domain that is deleted at the moment.
    pub fn of(domain: &Domain, moment: Moment) -> RunningRefund
        ensures { result ≡ spec.refund_at moment domain.now }
    {
        RunningRefund {
            roid: domain.roid,
            transferred: domain.transferred,
            moment,
        }
    }

    /// Whether it gives the line back.
    fn takes(&self, line: &Line, policy: &Policy) -> bool
        ensures { result ≡ spec.is_given_back policy.now self.now line.now }
    {
        runs(line, &self.roid, self.transferred, self.moment, policy)
    }
}

/// The cents of the line that are given back.
fn cents_back(line: &Line, refund: &RunningRefund, policy: &Policy) -> u64
    ensures { result ≡ spec.cents_back policy.now refund.now line.now }
{
    if refund.takes(line, policy) {
        line.cents
    } else {
        0
    }
}

/// The years of the line that are given back.
fn years_back(line: &Line, refund: &RunningRefund, policy: &Policy) -> u32
    ensures { result ≡ spec.years_back policy.now refund.now line.now }
{
    if refund.takes(line, policy) {
        line.years
    } else {
        0
    }
}

fn all_cents_back(lines: &[Line], refund: &RunningRefund, policy: &Policy) -> u128
    requires { length lines.now < 18_446_744_073_709_551_616 }
    ensures { result ≡ sum_by (spec.cents_back policy.now refund.now) lines.now }
{
    lines
        .iter()
        .map(|line| u128::from(cents_back(line, refund, policy)))
        .sum()
}

fn all_years_back(lines: &[Line], refund: &RunningRefund, policy: &Policy) -> u128
    requires { length lines.now < 18_446_744_073_709_551_616 }
    ensures { result ≡ sum_by (spec.years_back policy.now refund.now) lines.now }
{
    lines
        .iter()
        .map(|line| u128::from(years_back(line, refund, policy)))
        .sum()
}

/// The same of these lines.
fn all_back(lines: &[Line], refund: &RunningRefund, policy: &Policy) -> GivenBack
    ensures { result ≡ spec.given_back policy.now refund.now lines.now }
{
    GivenBack {
        cents: all_cents_back(lines, refund, policy),
        years: all_years_back(lines, refund, policy),
    }
}

/// The same of a bag.
fn all_back_by(lines: &Lines, refund: &RunningRefund, policy: &Policy) -> GivenBack
    ensures { result ≡ spec.given_back policy.now refund.now lines.now }
{
    all_back(lines.on(&refund.roid), refund, policy)
}

/// The same of an account, if there is one.
fn back_of(sponsor: Option<&Account>, refund: &RunningRefund, policy: &Policy) -> GivenBack
    ensures { result ≡ spec.given_back policy.now refund.now
        (unwrap_or (option_copied sponsor.entry) empty_account).lines }
{
    match sponsor {
        None => GivenBack::nothing(),
        Some(account) => all_back_by(&account.lines, refund, policy),
    }
}

/// What a refund gives back of the lines of a domain's sponsor, which has this account or none. It
/// goes over those of the domain alone.
pub fn given_back(sponsor: Option<&Account>, refund: &RunningRefund, policy: &Policy) -> GivenBack
    ensures { spec.IsGivenBack policy.now refund.now (unwrap_or (option_copied sponsor.entry)
        empty_account).lines result }
{
    back_of(sponsor, refund, policy)
}
