//! What a lapse leaves.

use accounts::Posting;
use basis::list::Seq;

/// An object after a lapse, or none where it is gone, and what was posted into accounts, in the order
/// of time.
#[derive(Drop)]
pub struct Lapsed<T> {
    pub object: Option<T>,
    pub postings: Seq<Posting>,
}
