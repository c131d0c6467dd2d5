//! What time makes of a domain: the graces that run, and how far its deletion has come (RFC 3915, 3.1).
ghost use Rattle.std.specs.Prelude.{◌≡◌, IfOk, filter};
ghost use Rattle.objects.specs.Graces as spec;

use crate::status::Rgp;
use basis::list::Seq;
use std::alloc::{AllocError, Global};

/// Which graces of a domain run. In a grace, what was charged is given back where the domain is
/// deleted.
#[derive(Clone, Copy, Debug, PartialEq, Eq, Drop)]
pub struct Graces {
    pub add: bool,
    pub auto_renew: bool,
    pub renew: bool,
    pub transfer: bool,
}

/// How far the deletion of a domain has come.
#[derive(Clone, Copy, Debug, PartialEq, Eq, Drop)]
pub enum Phase {
    /// It isn't deleted.
    Live,
    /// Its restoration was asked for, and the report on it is awaited.
    Restoring,
    /// Its sponsor may ask for its restoration.
    Redemption,
    /// Nothing brings it back.
    Deleting,
    /// Its name is free.
    Gone,
}

/// The graces and the phase of a domain at a moment.
#[derive(Clone, Copy, Debug, PartialEq, Eq, Drop)]
pub struct Standing {
    pub graces: Graces,
    pub phase: Phase,
}

/// The states of grace in the order of their texts' bytes.
const ALL: [Rgp; 7] = [
    Rgp::AddPeriod,
    Rgp::AutoRenewPeriod,
    Rgp::PendingDelete,
    Rgp::PendingRestore,
    Rgp::RedemptionPeriod,
    Rgp::RenewPeriod,
    Rgp::TransferPeriod,
];

impl Phase {
    /// The place of the phase in the course of a deletion.
    fn rank(self) -> u8
        ensures { result ≡ spec.phase_rank self }
    {
        match self {
            Phase::Live => 0,
            Phase::Restoring => 1,
            Phase::Redemption => 2,
            Phase::Deleting => 3,
            Phase::Gone => 4,
        }
    }

    /// Whether it is this phase.
    pub fn is(self, other: Phase) -> bool
        ensures { result ≡ spec.is_phase self other }
    {
        self.rank() == other.rank()
    }
}

impl Standing {
    /// Whether a domain shows the state.
    pub fn shows(self, state: Rgp) -> bool
        ensures { result ≡ spec.shows_state self state }
    {
        match state {
            Rgp::AddPeriod => self.graces.add,
            Rgp::AutoRenewPeriod => self.graces.auto_renew,
            Rgp::PendingDelete => self.phase.is(Phase::Deleting),
            Rgp::PendingRestore => self.phase.is(Phase::Restoring),
            Rgp::RedemptionPeriod => self.phase.is(Phase::Redemption),
            Rgp::RenewPeriod => self.graces.renew,
            Rgp::TransferPeriod => self.graces.transfer,
        }
    }

    /// The states that a domain shows, in the order of their texts.
    pub fn states(self, alloc: Global) -> Result<Seq<Rgp>, AllocError>
        ensures { IfOk result (λ states. states ≡ spec.states_of self) }
    {
        Ok(Seq::from_vec(shown_among(alloc, self, &ALL)?))
    }
}

fn shown_among(alloc: Global, standing: Standing, states: &[Rgp]) -> Result<Vec<Rgp>, AllocError>
    ensures { IfOk result (λ found. found.items ≡ filter (spec.shows_state standing) states.now) }
{
    states
        .iter()
        .copied()
        .filter(|state| standing.shows(*state))
        .collect(alloc)
}
