//! What is due.

use accounts::object_rank;
use basis::text::Text;
use calendar::Moment;
use objects::ObjectKind;
use std::cmp::Ordering;

/// An object that time changes or removes, and when it first does.
#[derive(Clone, Drop)]
pub struct Due {
    pub due: Moment,
    pub kind: ObjectKind,
    pub name: Text,
}

impl PartialEq for Due {
    ghost use Rattle.std.specs.Cmp as Cmp;
    ghost use Rattle.std.specs.Ordering.{eq_by_cmp};
    ghost use Rattle.lifecycle.specs.DueObjects.{due_cmp};
    ghost use Rattle.lifecycle.specs.DueOrder.{due_eq_equiv};

    ghost eq = { eq_by_cmp due_cmp };

    ghost laws = { Cmp.partial_equiv_from_equiv due_eq_equiv };

    fn eq(&self, other: &Self) -> bool {
        self.cmp(other).is_eq()
    }
}

impl Eq for Due {
    ghost use Rattle.lifecycle.specs.DueOrder.{due_eq_equiv};

    ghost laws = { due_eq_equiv };
}

impl PartialOrd for Due {
    ghost use Rattle.std.specs.{Prelude.{Some, refl}, Cmp.partial_order_from_agreeing_total};
    ghost use Rattle.lifecycle.specs.DueObjects.{due_cmp};
    ghost use Rattle.lifecycle.specs.DueOrder.{due_cmp_total};

    ghost partial_cmp = { λ x y. Some (due_cmp x y) };

    ghost laws = { partial_order_from_agreeing_total due_cmp due_cmp_total (λ x y. refl) (λ x y. refl) };

    fn partial_cmp(&self, other: &Self) -> Option<Ordering> {
        Some(self.cmp(other))
    }
}

/// By moment, contacts first, by name.
impl Ord for Due {
    ghost use Rattle.std.specs.Prelude.{refl};
    ghost use Rattle.lifecycle.specs.DueObjects.{due_cmp};
    ghost use Rattle.lifecycle.specs.DueOrder.{due_cmp_total};

    ghost cmp = { due_cmp };

    ghost total = { due_cmp_total };

    ghost matches_partial_cmp = { λ x y. refl };

    ghost matches_eq = { λ x y. refl };

    fn cmp(&self, other: &Self) -> Ordering {
        self.due
            .cmp(&other.due)
            .then(object_rank(self.kind).cmp(&object_rank(other.kind)))
            .then(self.name.cmp(&other.name))
    }
}
