//! The conditions on who sponsors what is seen, on the superordinate domain of a host that is to
//! have a name, and on the statuses that are shown.
ghost use Rattle.std.specs.{Prelude.◌≡◌, Option.option_copied};
ghost use Rattle.facts.specs.Facts.{host_sponsor};
ghost use Rattle.rules.specs.Conditions as spec;
ghost use Rattle.rules.specs.inner.Cases.{is_met};

use basis::registrar::RegistrarNo;
use basis::text::Text;
use facts::HostFacts;
use names::Zone;
use objects::{
    Contact, ContactFace, DomainFace, FullDomain, Host, Seen, Status, Transfer, has_status,
};

// ---- who sponsors what is seen

/// An object with a sponsor, a secret and a last transfer.
pub(crate) trait Sponsored {
    ghost use Rattle.std.specs.Prelude.{◌≡◌, List, Option, ℕ};
    ghost use Rattle.std.specs.Option.{option_copied};
    ghost use Rattle.objects.specs.Sight.{authorizes};
    ghost use Rattle.objects.specs.declared.transfer.Transfer.{Transfer};

    ghost sponsor: { Self → ℕ };

    ghost secret: { Self → List ℕ };

    ghost transfer: { Self → Option Transfer };

    fn sponsored_by(&self) -> RegistrarNo
        ensures { result ≡ sponsor self.now };

    fn last_transfer(&self) -> Option<Transfer>
        ensures { result ≡ transfer self.now };

    fn authorizes(&self, presented: Option<&Text>) -> bool
        ensures { result ≡ authorizes (option_copied presented.entry) (secret self.now) };
}

impl Sponsored for Contact {
    ghost use Rattle.rules.specs.Conditions.{contact_sponsor, contact_secret, contact_transfer};

    ghost sponsor = { contact_sponsor };

    ghost secret = { contact_secret };

    ghost transfer = { contact_transfer };

    fn sponsored_by(&self) -> RegistrarNo {
        self.sponsor
    }

    fn last_transfer(&self) -> Option<Transfer> {
        self.transfer
    }

    fn authorizes(&self, presented: Option<&Text>) -> bool {
        self.is_authorized_by(presented)
    }
}

impl Sponsored for FullDomain {
    ghost use Rattle.rules.specs.Conditions.{domain_sponsor, domain_secret, domain_transfer};

    ghost sponsor = { domain_sponsor };

    ghost secret = { domain_secret };

    ghost transfer = { domain_transfer };

    fn sponsored_by(&self) -> RegistrarNo {
        self.domain.sponsor
    }

    fn last_transfer(&self) -> Option<Transfer> {
        self.domain.transfer
    }

    fn authorizes(&self, presented: Option<&Text>) -> bool {
        self.domain.is_authorized_by(presented)
    }
}

/// What everyone may know of an object: its sponsor.
pub(crate) trait Faced {
    ghost use Rattle.std.specs.Prelude.{◌≡◌, ℕ};

    ghost sponsor: { Self → ℕ };

    fn sponsored_by(&self) -> RegistrarNo
        ensures { result ≡ sponsor self.now };
}

impl Faced for ContactFace {
    ghost use Rattle.rules.specs.Transfers.{contact_face_sponsor};

    ghost sponsor = { contact_face_sponsor };

    fn sponsored_by(&self) -> RegistrarNo {
        self.sponsor
    }
}

impl Faced for DomainFace {
    ghost use Rattle.rules.specs.Transfers.{domain_face_sponsor};

    ghost sponsor = { domain_face_sponsor };

    fn sponsored_by(&self) -> RegistrarNo {
        self.sponsor
    }
}

fn is_own<O: Sponsored, F>(caller: RegistrarNo, seen: &Seen<O, F>) -> bool
    ensures { result ≡ spec.is_own O.sponsor caller seen.now }
{
    match seen {
        Seen::Full(object) => object.sponsored_by() == caller,
        _ => false,
    }
}

/// Whether another sponsors what is seen.
pub(crate) fn is_anothers<O: Sponsored, F>(caller: RegistrarNo, seen: Option<&Seen<O, F>>) -> bool
    ensures { result ≡ spec.is_anothers O.sponsor caller (option_copied seen.entry) }
{
    seen.is_some_and(|seen| !is_own(caller, seen))
}

/// Whether the caller sponsors what is seen.
pub(crate) fn is_sponsored<O: Sponsored, F>(caller: RegistrarNo, seen: Option<&Seen<O, F>>) -> bool
    ensures { result ≡ is_met (spec.is_own O.sponsor caller) seen.entry }
{
    seen.is_some_and(|seen| is_own(caller, seen))
}

/// Whether the secret is that of what is seen.
pub(crate) fn is_authorized<O: Sponsored, F>(
    secret: Option<&Text>,
    seen: Option<&Seen<O, F>>,
) -> bool
    ensures { result ≡ is_met (spec.is_authorized O.secret (option_copied secret.entry)) seen.entry }
{
    match seen {
        Some(Seen::Full(object)) => object.authorizes(secret),
        _ => false,
    }
}

/// Whether another than the sponsor presents a secret that isn't right.
pub(crate) fn presents_wrong<O: Sponsored, F>(
    caller: RegistrarNo,
    secret: Option<&Text>,
    seen: Option<&Seen<O, F>>,
) -> bool
    ensures { result ≡ spec.presents_wrong O.sponsor O.secret caller (option_copied secret.entry)
        (option_copied seen.entry) }
{
    let Some(presented) = secret else {
        return false;
    };
    match seen {
        None => false,
        Some(Seen::Full(object)) => object.sponsored_by() != caller
            && !object.authorizes(Some(presented)),
        Some(_) => true,
    }
}

fn is_host_of(zone: &Zone, caller: RegistrarNo, known: &HostFacts, host: &Host) -> bool
    ensures { result ≡ spec.is_registrar caller (host_sponsor zone.now known.now host.now) }
{
    known
        .sponsor(zone, host)
        .is_some_and(|sponsor| sponsor == caller)
}

/// Whether another sponsors the host.
pub(crate) fn host_is_anothers(zone: &Zone, caller: RegistrarNo, known: Option<&HostFacts>) -> bool
    ensures { result ≡ spec.host_is_anothers zone.now caller (option_copied known.entry) }
{
    let Some(known) = known else {
        return false;
    };
    match &known.host {
        None => false,
        Some(host) => !is_host_of(zone, caller, known, host),
    }
}

// ---- the superordinate domain of a host that is to have a name

/// Whether the name lies in the zone, but its superordinate domain isn't there.
pub(crate) fn has_no_superordinate(zone: &Zone, known: Option<&HostFacts>) -> bool
    ensures { result ≡ is_met (spec.has_no_superordinate zone.now) known.entry }
{
    known.is_some_and(|known| {
        zone.has_superordinate(&known.name) && known.superordinate.is_none()
    })
}

/// Whether the name lies in the zone, below a domain that another sponsors.
pub(crate) fn superordinate_is_anothers(
    zone: &Zone,
    caller: RegistrarNo,
    known: Option<&HostFacts>,
) -> bool
    ensures { result ≡ is_met (spec.superordinate_is_anothers zone.now caller) known.entry }
{
    known.is_some_and(|known| {
        zone.has_superordinate(&known.name)
            && known
                .superordinate
                .is_some_and(|above| above.sponsor != caller)
    })
}

/// Whether the name lies in the zone, below a domain that is deleted.
pub(crate) fn superordinate_is_deleted(zone: &Zone, known: Option<&HostFacts>) -> bool
    ensures { result ≡ is_met (spec.superordinate_is_deleted zone.now) known.entry }
{
    known.is_some_and(|known| {
        zone.has_superordinate(&known.name)
            && known.superordinate.is_some_and(|above| above.is_deleted)
    })
}

// ---- statuses that are shown

/// What shows statuses.
pub(crate) trait Shows {
    ghost use Rattle.std.specs.Prelude.{◌≡◌, Bool};
    ghost use Rattle.objects.specs.declared.status.Status.{Status};

    ghost shown: { Self → Status → Bool };

    fn is_shown(&self, status: Status) -> bool
        ensures { result ≡ shown self.now status };
}

impl Shows for Seen<Contact, ContactFace> {
    ghost use Rattle.rules.specs.Conditions.{contact_seen_shows};

    ghost shown = { contact_seen_shows };

    #[tactic(auto, unfolding(crate::specs::Conditions::contact_seen_shows))]
    fn is_shown(&self, status: Status) -> bool {
        match self {
            Seen::Full(contact) => contact.shows(false, status),
            Seen::TransferParty(face, _) => has_status(face.statuses.as_slice(), status),
            Seen::Public(face) => has_status(face.statuses.as_slice(), status),
        }
    }
}

impl Shows for Seen<FullDomain, DomainFace> {
    ghost use Rattle.rules.specs.Conditions.{domain_seen_shows};

    ghost shown = { domain_seen_shows };

    #[tactic(auto, unfolding(crate::specs::Conditions::domain_seen_shows))]
    fn is_shown(&self, status: Status) -> bool {
        match self {
            Seen::Full(known) => known.domain.shows(status),
            Seen::TransferParty(face, _) => has_status(face.statuses.as_slice(), status),
            Seen::Public(face) => has_status(face.statuses.as_slice(), status),
        }
    }
}

impl Shows for Host {
    ghost use Rattle.rules.specs.Conditions.{host_seen_shows};

    ghost shown = { host_seen_shows };

    #[tactic(auto, unfolding(crate::specs::Conditions::host_seen_shows))]
    fn is_shown(&self, status: Status) -> bool {
        self.shows(false, status)
    }
}

/// Whether it shows the status.
pub(crate) fn is_shown<S: Shows>(status: Status, seen: Option<&S>) -> bool
    ensures { result ≡ spec.is_shown S.shown status (option_copied seen.entry) }
{
    seen.is_some_and(|it| it.is_shown(status))
}

// ---- statuses that are added and removed

/// Whether a status of the list is set.
pub(crate) fn any_set(old: &[Status], statuses: &[Status]) -> bool
    ensures { result ≡ spec.any_set old.now statuses.now }
{
    statuses.iter().any(|status| has_status(old, *status))
}

/// Whether a status of the list isn't set.
pub(crate) fn any_unset(old: &[Status], statuses: &[Status]) -> bool
    ensures { result ≡ spec.any_unset old.now statuses.now }
{
    statuses.iter().any(|status| !has_status(old, *status))
}
