//! The registry as plain maps, the part of it that a registrar sees, and the conditions under which such
//! maps are a registry. It is all in `specs/`: `Registry`, `View`, `Standards`, `WellFormed`. `Lapse`
//! has what time alone changes, with its laws in `LapseLaws`; `Money` has what one call does to
//! accounts, and `MoneyLaws` has the same for many calls.
#![tactic(auto)]

mod laws;
mod object;

pub use laws::{
    lapse_leaves_nothing_due, money_follows_over_calls, objects_lapse_in_any_order,
    registries_meet_standards, time_passes_in_any_steps,
};
pub use object::Object;
