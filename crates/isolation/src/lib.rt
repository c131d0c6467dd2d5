//! What a registrar learns over whole runs. This crate has laws alone, and no code that runs.
#![tactic(auto)]

mod laws;

pub use laws::alike_lists_tell_the_same;
