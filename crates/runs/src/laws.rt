//! What runs come to.
ghost use Rattle.runs.specs.RunLaws as spec;

/// Each step that a call of a registry takes is a call of a run.
pub fn calls_make_runs()
    ensures commands { spec.CommandsAreCalls }
    ensures orders { spec.OrdersAreCalls }
    ensures greetings { spec.GreetingsAreCalls }
{}

/// So is each look-up. One of what everybody may know tells something of the public part; any other is an
/// inspection, which no registrar makes.
pub fn look_ups_make_runs<X>()
    ensures look_ups { spec.LookUpsAreCalls X }
    ensures inspections { spec.InspectionsAreCalls X }
{}

/// Settlements in a run, none of them later than the call that follows, change no answer and nothing
/// that is there after a call: they may be put in and left out. The same questions are answered alike.
pub fn settlements_go_unnoticed()
    ensures left_out { spec.SettlementsMayBeLeftOut }
    ensures determined { spec.AnswersAreDetermined }
    ensures unnoticed { spec.SettlementsGoUnnoticed }
{}

/// A run leaves a well-formed registry. In each of its turns the money of every account follows, in the
/// registries that this very turn found and left. No line vanishes, each is given back once at most and
/// lawfully, and automatic renewals alone take a balance below zero.
pub fn runs_keep_money()
    ensures registries { spec.RunsKeepRegistries }
    ensures money { spec.RunsKeepMoney }
{}

/// Take two runs from one registry on, in which others gave their objects different secrets or data, or
/// paid different sums. They answer a registrar alike, look-ups included, as long as it presents no right
/// secret of such an object. Afterwards everybody may look up the same in both.
pub fn alike_runs_tell_the_same()
    ensures answers { spec.AlikeRunsTellTheSame }
    ensures public { spec.AlikeRunsShowTheSame }
{}
