//! Why what keeps records gives up.
ghost use Rattle.std.specs.Prelude.{◌≡◌};
ghost use Rattle.states.specs.declared.fault.BookFault.TheVariants.{Memory};

use std::alloc::AllocError;
use thiserror::Error;

/// Why a call on what keeps records failed.
#[derive(Clone, Copy, Debug, PartialEq, Eq, Drop, Error)]
pub enum BookFault {
    /// Memory ran out.
    #[error("out of memory")]
    Memory,
    /// What keeps the records refused, or held what doesn't read as a record.
    #[error("store fault")]
    Store,
}

impl From<AllocError> for BookFault {
    ghost from_gives = { λ _ fault. fault ≡ Memory };

    fn from(_: AllocError) -> BookFault {
        BookFault::Memory
    }
}
