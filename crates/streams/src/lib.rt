//! Reads that fill a buffer and writes of whole texts, in however many pieces a connection or a file
//! moves them.
#![tactic(auto)]

mod moves;

pub use moves::{ReadFault, WriteFault, read_to_fill, write_all, write_whole};
