//! What the definitions of what is concerned come to.
ghost use Rattle.concerns.specs.ConcernLaws as spec;

/// Once what is due and concerned has lapsed, nothing is due that is concerned.
pub fn what_is_concerned_settles()
    ensures { spec.ConcernedSettles }
{}

/// Where nothing is due that a registrar's command concerns, it is judged, answered and carried out as
/// where nothing is due at all.
pub fn commands_are_answered_as_now()
    ensures facts { spec.HasFactsOfNow }
    ensures answered { spec.IsAnsweredAsNow }
    ensures left { spec.LeavesWhatItWould }
{}

/// The same of the operator's orders, by what an info of their object concerns.
pub fn orders_are_carried_out_as_now()
    ensures left { spec.IsThereAsNow }
    ensures ordered { spec.IsOrderedAsNow }
    ensures deposits { spec.DepositsAnywhere }
{}
