//! An accepted request, and what it charges.
ghost use Rattle.std.specs.Prelude.{◌≡◌, option_map};
ghost use Rattle.lifecycle.specs.Graces as graces;
ghost use Rattle.decisions.specs.Decisions as spec;

use crate::change::Change;
use accounts::{Line, LineKind};
use basis::registrar::RegistrarNo;
use calendar::Moment;
use facts::Facts;
use lifecycle::{AccountChange, period_of};
use objects::Roid;
use policy::Policy;
use protocol::Request;
use rules::{charge_of, years_charged};
use std::alloc::Global;

/// A registrar's request at a moment, the policy, and the facts.
#[derive(Clone, Copy, Drop)]
pub(crate) struct Case<'a> {
    pub(crate) alloc: Global,
    pub(crate) facts: &'a Facts,
    pub(crate) caller: RegistrarNo,
    pub(crate) moment: Moment,
    pub(crate) request: &'a Request,
    pub(crate) policy: &'a Policy,
}

/// When the grace of a charge begins, if it has one: at once.
fn grace_from(kind: LineKind, moment: Moment) -> Option<Moment>
    ensures { result ≡ option_map (λ period. moment) (graces.period_of kind) }
{
    match period_of(kind) {
        Some(_) => Some(moment),
        None => None,
    }
}

impl<'a> Case<'a> {
    /// The line of what a request charges for a domain, with a grace that began then, if it has.
    pub(crate) fn line(&self, kind: LineKind, roid: Roid, started: Option<Moment>) -> Line
        ensures { result ≡ record (spec.charge_line kind self.now.policy.now self.now.moment roid
            self.now.request.now self.now.facts.now) { started = started } }
    {
        Line {
            kind,
            roid: Some(roid),
            recorded: self.moment,
            years: years_charged(self.request, self.facts, self.moment),
            cents: charge_of(self.policy, self.request, self.facts, self.moment),
            started,
            refunded: None,
        }
    }

    /// The caller is charged for what it asks.
    pub(crate) fn charge(&self, kind: LineKind, roid: Roid) -> Change
        ensures { result ≡ spec.charge kind self.now.policy.now self.now.caller self.now.moment roid
            self.now.request.now self.now.facts.now }
    {
        let line = self.line(kind, roid, grace_from(kind, self.moment));
        Change::Post(self.caller, AccountChange::Charge(line))
    }
}
