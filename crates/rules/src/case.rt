//! A command with the facts that bear on it, and the conditions that hold of the two.
ghost use Rattle.std.specs.{Prelude.{◌≡◌, find, option_and_then}, Option.option_copied};
ghost use Rattle.protocol.specs.Requests as requests;
ghost use Rattle.rules.specs.Conditions as spec;
ghost use Rattle.rules.specs.inner.Cases as words;
ghost use Rattle.rules.specs.inner.Cases.{holds_in, in_case, of_caller, refusal_in};

use crate::amended::{
    any_domain_refused, any_host_refused, are_too_long, contact_has, contact_lacks, domain_has,
    domain_is_over, domain_lacks, host_has, host_is_over, host_is_refused, host_lacks,
    list_repeats,
};
use crate::charge::charge_of;
use crate::conditions::{
    has_no_superordinate, host_is_anothers, is_anothers, is_shown, presents_wrong,
    superordinate_is_anothers, superordinate_is_deleted,
};
use crate::renewal::{expires_otherwise, passes_ten_years};
use crate::restoration::{is_in, report_differs};
use crate::rules::{Condition, table};
use basis::registrar::RegistrarNo;
use calendar::Moment;
use facts::{ContactFacts, DomainFacts, Facts, HostFacts, count_kept};
use names::RequestedName;
use objects::{
    Contact, ContactFace, Domain, DomainFace, FullDomain, Host, Seen, Status, has_status,
};
use policy::Policy;
use protocol::{Action, Code, Request};

/// A registrar's command at a moment, the policy, and the facts.
#[derive(Clone, Copy, Drop)]
pub(crate) struct Case<'a> {
    pub(crate) facts: &'a Facts,
    pub(crate) caller: RegistrarNo,
    pub(crate) moment: Moment,
    pub(crate) request: &'a Request,
    pub(crate) policy: &'a Policy,
}

/// What is seen in full.
fn full<O, F>(seen: Option<&Seen<O, F>>) -> Option<&O>
    ensures { option_copied result ≡ option_and_then spec.full (option_copied seen.entry) }
{
    match seen {
        Some(Seen::Full(object)) => Some(object),
        _ => None,
    }
}

/// The domain that is seen in full.
pub(crate) fn full_domain(seen: Option<&Seen<FullDomain, DomainFace>>) -> Option<&Domain>
    ensures { option_copied result ≡ option_and_then spec.domain_in_full
        (option_copied seen.entry) }
{
    Some(&full(seen)?.domain)
}

// ---- the object that the request is about

impl<'a> Case<'a> {
    fn contact_known(&self) -> Option<&'a ContactFacts>
        ensures { option_copied result ≡ in_case words.contact_known self.now }
    {
        self.facts.contact(self.request.contacts().first()?)
    }

    pub(crate) fn contact(&self) -> Option<&'a Seen<Contact, ContactFace>>
        ensures { option_copied result ≡ in_case spec.the_contact self.now }
    {
        self.facts.contact_seen(self.request.contacts().first()?)
    }

    fn domain_known(&self) -> Option<&'a DomainFacts>
        ensures { option_copied result ≡ in_case spec.domain_known self.now }
    {
        self.facts.domain(self.request.domains().first()?.text())
    }

    pub(crate) fn domain(&self) -> Option<&'a Seen<FullDomain, DomainFace>>
        ensures { option_copied result ≡ in_case spec.the_domain self.now }
    {
        self.facts
            .domain_seen(self.request.domains().first()?.text())
    }

    fn host_known(&self) -> Option<&'a HostFacts>
        ensures { option_copied result ≡ in_case spec.host_known self.now }
    {
        self.facts.host(self.request.hosts().first()?.text())
    }

    fn host(&self) -> Option<&'a Host>
        ensures { option_copied result ≡ in_case spec.the_host self.now }
    {
        self.host_known()?.host.as_ref()
    }

    fn is_there(&self) -> bool
        ensures { result ≡ in_case spec.is_there self.now }
    {
        self.contact().is_some() || self.domain().is_some() || self.host().is_some()
    }

    fn host_to_be(&self) -> Option<&'a HostFacts>
        ensures { option_copied result ≡ in_case spec.host_to_be self.now }
    {
        match self.request.action() {
            Action::Create => self.host_known(),
            Action::Update => self.facts.at_new_name.as_ref(),
            _ => None,
        }
    }
}

// ---- the conditions

impl Case<'_> {
    fn name_is_refused(&self) -> bool
        ensures { result ≡ spec.name_is_refused self.now.policy.now.zone self.now.request.now }
    {
        let zone = self.policy.zone();
        any_domain_refused(zone, self.request.domains())
            || any_host_refused(zone, self.request.hosts())
            || self.new_host_is_refused()
            || any_host_refused(zone, self.request.added().hosts)
            || any_host_refused(zone, self.request.removed().hosts)
    }

    fn new_host_is_refused(&self) -> bool
        ensures { result ≡ requests.holds_of (spec.host_is_refused self.now.policy.now.zone)
            (requests.asks_of self.now.request.now).new_host }
    {
        self.request
            .new_host()
            .is_some_and(|name| host_is_refused(self.policy.zone(), name))
    }

    fn shows(&self, status: Status) -> bool
        ensures { result ≡ in_case (spec.shows_status status) self.now }
    {
        is_shown(status, self.contact())
            || is_shown(status, self.domain())
            || is_shown(status, self.host())
    }

    fn still_shows(&self, status: Status) -> bool
        ensures { result ≡ in_case (spec.still_shows status) self.now }
    {
        self.shows(status) && !has_status(self.request.removed().statuses, status)
    }

    fn is_of_another(&self) -> bool
        ensures { result ≡ of_caller (spec.is_of_another self.now.policy.now.zone) self.now }
    {
        is_anothers(self.caller, self.contact())
            || is_anothers(self.caller, self.domain())
            || host_is_anothers(self.policy.zone(), self.caller, self.host_known())
    }

    fn secret_is_wrong(&self) -> bool
        ensures { result ≡ of_caller spec.secret_is_wrong self.now }
    {
        presents_wrong(self.caller, self.request.secret(), self.contact())
            || presents_wrong(self.caller, self.request.secret(), self.domain())
    }

    fn is_linked(&self) -> bool
        ensures { result ≡ in_case spec.is_linked self.now }
    {
        self.contact_known().is_some_and(|known| known.linked)
            || self.host_known().is_some_and(|known| known.linked)
    }

    fn has_subordinates(&self) -> bool
        ensures { result ≡ in_case spec.has_subordinates self.now }
    {
        self.domain_known()
            .is_some_and(|known| !known.subordinate.as_slice().is_empty())
    }

    fn adds_known(&self) -> bool
        ensures { result ≡ in_case spec.adds_known self.now }
    {
        let added = self.request.added();
        contact_has(added, full(self.contact()))
            || domain_has(added, full_domain(self.domain()))
            || host_has(added, self.host())
    }

    fn removes_unknown(&self) -> bool
        ensures { result ≡ in_case spec.removes_unknown self.now }
    {
        let removed = self.request.removed();
        contact_lacks(removed, full(self.contact()))
            || domain_lacks(removed, full_domain(self.domain()))
            || host_lacks(removed, self.host())
    }

    fn leaves_too_many(&self) -> bool
        ensures { result ≡ in_case spec.leaves_too_many self.now }
    {
        let (removed, added) = (self.request.removed(), self.request.added());
        are_too_long(added)
            || domain_is_over(removed, added, full_domain(self.domain()))
            || host_is_over(removed, added, self.host())
    }

    fn addresses_kept(&self) -> usize
        ensures { result ≡ in_case (λ q f. spec.addresses_kept
            (requests.asks_of q).removes.addresses (spec.the_host q f)) self.now }
    {
        match self.host() {
            None => 0,
            Some(host) => count_kept(host.addresses.as_slice(), self.request.removed().addresses),
        }
    }

    fn has_addresses_after(&self) -> bool
        ensures { result ≡ in_case spec.has_addresses_after self.now }
    {
        !(self.addresses_kept() == 0 && self.request.added().addresses.is_empty())
    }

    fn host_name_after(&self) -> Option<&RequestedName>
        ensures { option_copied result ≡ spec.host_name_after self.now.request.now }
    {
        match self.request.new_host() {
            Some(name) => Some(name),
            None => self.request.hosts().first(),
        }
    }

    fn leaves_addresses_outside(&self) -> bool
        ensures { result ≡ in_case (spec.leaves_addresses_outside self.now.policy.now.zone) self.now }
    {
        match self.host_name_after() {
            None => false,
            Some(name) => {
                !self.policy.zone().has_superordinate(name.text()) && self.has_addresses_after()
            }
        }
    }

    fn passes_ten_years(&self) -> bool
        ensures { result ≡ in_case (spec.passes_ten_years self.now.moment) self.now }
    {
        let domain = full_domain(self.domain());
        passes_ten_years(self.moment, self.request.years(), domain)
    }

    fn expires_otherwise(&self) -> bool
        ensures { result ≡ in_case spec.expires_otherwise self.now }
    {
        expires_otherwise(self.request.expires(), full_domain(self.domain()))
    }

    fn report_differs(&self) -> bool
        ensures { result ≡ in_case spec.report_differs self.now }
    {
        report_differs(
            self.request.del_time(),
            self.request.res_time(),
            full_domain(self.domain()),
        )
    }

    fn is_oldest(&self) -> bool
        ensures { result ≡ in_case spec.is_oldest self.now }
    {
        match (self.request.message(), &self.facts.queue.oldest) {
            (Some(id), Some(oldest)) => oldest.id == *id,
            _ => false,
        }
    }

    fn lacks_money(&self) -> bool
        ensures { result ≡ in_case (spec.lacks_money self.now.policy.now self.now.moment) self.now }
    {
        let charge = charge_of(self.policy, self.request, self.facts, self.moment);
        charge > 0 && self.facts.account.balance < i128::from(charge)
    }

    /// Whether the condition holds.
    fn meets(&self, condition: Condition) -> bool
        ensures { result ≡ holds_in self.now condition }
    {
        let zone = self.policy.zone();
        match condition {
            Condition::NameIsRefused => self.name_is_refused(),
            Condition::ListRepeats => {
                list_repeats(self.request.added()) || list_repeats(self.request.removed())
            }
            Condition::IsThere => self.is_there(),
            Condition::IsMissing => !self.is_there(),
            Condition::ReferenceIsMissing => self.facts.reference_missing,
            Condition::NewNameIsTaken => self.facts.new_name_exists(),
            Condition::SuperordinateIsMissing => has_no_superordinate(zone, self.host_to_be()),
            Condition::IsAnothers => self.is_of_another(),
            Condition::SuperordinateIsAnothers => {
                superordinate_is_anothers(zone, self.caller, self.host_to_be())
            }
            Condition::SecretIsWrong => self.secret_is_wrong(),
            Condition::Shows(status) => self.shows(status),
            Condition::StillShows(status) => self.still_shows(status),
            Condition::SuperordinateIsDeleted => superordinate_is_deleted(zone, self.host_to_be()),
            Condition::IsLinked => self.is_linked(),
            Condition::HasSubordinates => self.has_subordinates(),
            Condition::AddsWhatIsThere => self.adds_known(),
            Condition::RemovesWhatIsNot => self.removes_unknown(),
            Condition::LeavesTooMany => self.leaves_too_many(),
            Condition::LeavesAddressesOutside => self.leaves_addresses_outside(),
            Condition::IsAtHoldingLimit => self.facts.holding_limit_reached,
            Condition::PassesTenYears => self.passes_ten_years(),
            Condition::ExpiresOtherwise => self.expires_otherwise(),
            Condition::IsNotIn(phase) => !is_in(phase, self.domain()),
            Condition::ReportDiffers => self.report_differs(),
            Condition::IsNotOldest => !self.is_oldest(),
            Condition::LacksMoney => self.lacks_money(),
            Condition::SecretIsNotRight => !self.presents_secret(),
            Condition::IsStranger => self.is_stranger(),
            Condition::StrangersSecretIsWrong => self.strangers_secret_is_wrong(),
            Condition::IsNotRequester => !self.is_requester(),
            Condition::HasNoTransfer => self.has_no_transfer(),
            Condition::IsPending => self.shows(Status::PendingTransfer),
            Condition::IsNotPending => !self.transfer_is_pending(),
            Condition::IsOwn => self.sponsors(),
            Condition::IsLocked => self.domain_is_locked(),
        }
    }

    fn find_refusal(&self, table: &'static [Condition]) -> Option<&'static Condition>
        ensures { option_copied result ≡ find (holds_in self.now) table.now }
    {
        table.iter().find(|condition| self.meets(**condition))
    }

    /// The code with which the command is refused.
    #[tactic(auto, unfolding(crate::specs::Refusals::first_refusal))]
    pub(crate) fn refusal(&self) -> Option<Code>
        ensures { result ≡ refusal_in self.now }
    {
        match self.find_refusal(table(self.request)) {
            Some(condition) => Some(condition.cause().code()),
            None => None,
        }
    }
}
