//! What the definitions of a registry, of its lapse and of its money come to.
ghost use Rattle.model.specs.LapseLaws as spec;
ghost use Rattle.model.specs.{MoneyLaws.MoneyFollowsOver, Standards.RegistriesMeetStandards};

/// Time may pass in any steps, and some objects may lapse before the others do.
pub fn time_passes_in_any_steps()
    ensures on { spec.LapsesInSteps }
    ensures on_from_some { spec.LapsesOnFromSome }
    ensures on_from_each { spec.LapsesOnFromEach }
    ensures one_future { spec.HaveOneFuture }
{}

/// Objects lapse one after another, in any order, as they do together.
pub fn objects_lapse_in_any_order()
    ensures together { spec.SomeLapseTogether }
    ensures any_order { spec.SomeLapseInAnyOrder }
    ensures each { spec.EachLapsesAsSome }
    ensures all_due { spec.AllDueLapseAsAll }
    ensures each_due { spec.EachDueLapsesAsAll }
{}

/// A lapse leaves nothing due, and changes nothing where nothing is.
pub fn lapse_leaves_nothing_due()
    ensures settles { spec.LapsedIsSettled }
    ensures stays { spec.SettledIsNow }
{}

/// A well formed registry is one by the standards.
pub fn registries_meet_standards()
    ensures { RegistriesMeetStandards }
{}

/// What follows of money in each call follows over any calls, one after another.
pub fn money_follows_over_calls()
    ensures { MoneyFollowsOver }
{}
