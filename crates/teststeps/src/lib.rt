//! What a test sends to a registry, step by step, over any book, and what came: `docs/TRANSCRIPTS.md` describes the
//! files of data that say so.
#![tactic(auto)]

pub mod chapter;
pub mod escaped;
pub mod length_peer;
pub mod lines;
pub mod moments;
pub mod pieces;
pub mod step;
pub mod ways;
pub mod wire;
