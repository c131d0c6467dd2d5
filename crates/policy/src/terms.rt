//! What a registry's book is used under.
ghost use Rattle.std.specs.Prelude.{◌≡◌, ◌↔◌, IsTrue};
ghost use Rattle.policy.specs.Terms as spec;

use crate::{Prices, Schedule};
use basis::list::Seq;
use basis::sets::NameSet;
use basis::text::Text;
use calendar::Moment;

/// The part of a policy that a registry's book is used under, and that is compared when the book is
/// opened again.
#[derive(Clone, Drop)]
pub struct Terms {
    /// The label of the zone.
    pub zone: Text,
    /// The labels that no domain may have.
    pub reserved: NameSet,
    pub days: Schedule,
    pub prices: Prices,
    /// The registrars' ids in the order of their places.
    pub ids: Seq<Text>,
}

impl Terms {
    #[tactic(auto, unfolding(crate::specs::Terms::continues))]
    fn agrees(&self, earlier: &Terms, clock: Moment) -> bool
        ensures { result ≡ spec.continues clock self.now earlier.now }
    {
        self.zone == earlier.zone
            && self.reserved.is_same(&earlier.reserved)
            && self.days.continues(&earlier.days, clock)
            && self.prices == earlier.prices
            && self.ids.as_slice().starts_with(earlier.ids.as_slice())
    }

    /// Whether a book that was used under earlier terms may be used under these: nothing is new but
    /// registrars after the earlier ones, and lengths of periods that begin later than its clock.
    pub fn continues(&self, earlier: &Terms, clock: Moment) -> bool
        ensures test { result ≡ spec.continues clock self.now earlier.now }
        ensures meaning { IsTrue result ↔ spec.Continues clock self.now earlier.now }
    {
        self.agrees(earlier, clock)
    }
}
