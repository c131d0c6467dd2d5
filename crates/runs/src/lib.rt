//! Runs: a registry is asked one thing after another, with settlements in between. The contracts of its
//! calls speak of one step; the laws here speak of any number. No code here runs.
#![tactic(auto)]

mod crashes;
mod laws;

pub use crashes::{calls_are_events, crashes_leave_runs, look_ups_are_events};
pub use laws::{
    alike_runs_tell_the_same, calls_make_runs, look_ups_make_runs, runs_keep_money,
    settlements_go_unnoticed,
};
