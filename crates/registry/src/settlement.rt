//! How some of what is due lapses: a settlement.
ghost use Rattle.registry.specs.Execution.{IsSettlement};

use crate::lapse::lapse_each;
use crate::transaction::move_clock;
use crate::work::Work;
use books::{Book, BookFault};
use calendar::Moment;
use policy::Policy;
use std::alloc::Global;

/// A settlement at a moment, of so many objects at most.
#[derive(Drop)]
pub(crate) struct SettlementWork {
    pub moment: Moment,
    pub at_most: u32,
}

impl Work for SettlementWork {
    type Answer = u32;

    ghost step = { λ it p. IsSettlement p it.moment it.at_most };

    /// Moves the clock, lets the first so many objects lapse that are due by then, and gives how
    /// many they were.
    fn work<B: Book>(
        &self,
        book: &mut B,
        alloc: Global,
        policy: &Policy,
    ) -> Result<u32, BookFault> {
        let now = move_clock(book, alloc, self.moment, policy)?;
        let due = book.due(now, Some(self.at_most), policy)?;
        // a book may give more than it was asked for
        let count = due.as_slice().len().min(self.at_most as usize) as u32;
        lapse_each(book, alloc, due, now, policy)?;
        Ok(count)
    }
}
