//! What crashes of the machine come to.
ghost use Rattle.runs.specs.CrashLaws as spec;

/// Whatever a registry in a file is asked, whatever fails, and whenever the machine stops, a run leads to
/// what is found. The run has all calls that answered, in their order, and some of the others, each under
/// the policy of its own opening. None is found in part.
pub fn crashes_leave_runs()
    ensures leave { spec.CrashesLeaveRuns }
    ensures left { spec.CrashesLeftRuns }
    ensures go_on { spec.EventsGoOn }
{}

/// Each call of a registry, and each opening, is an event of that law by its contract, whatever it answers;
/// and a book that is taken up is one that a crash event leaves.
pub fn calls_are_events()
    ensures commands { spec.CommandsAreEvents }
    ensures orders { spec.OrdersAreEvents }
    ensures greetings { spec.GreetingsAreEvents }
    ensures settlements { spec.SettlementsAreEvents }
    ensures openings { spec.OpeningsAreEvents }
    ensures refusals { spec.RefusedOpeningsAreEvents }
    ensures taken { spec.TakenLeaveFound }
{}

/// So is each look-up: of what everybody may know as such, and of whatever else as an inspection.
pub fn look_ups_are_events<X>()
    ensures look_ups { spec.LookUpsAreEvents X }
    ensures inspections { spec.InspectionsAreEvents X }
{}
