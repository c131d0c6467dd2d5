//! Why a call of the registry gave up.
ghost use Rattle.std.specs.Prelude.{◌≡◌};
ghost use Rattle.registry.specs.declared.fault.Fault.TheVariants.{Memory};
ghost use Rattle.registry.specs.Faults.{of_book, opening_of_book};

use books::BookFault;
use std::alloc::AllocError;
use thiserror::Error;

/// Why a call gave up. The registry, its clock and all counters are then as they were before the
/// call.
#[derive(Clone, Copy, Debug, PartialEq, Eq, Drop, Error)]
pub enum Fault {
    /// Memory ran out.
    #[error("out of memory")]
    Memory,
    /// What keeps the book refused.
    #[error("store fault")]
    Store,
    /// The moment is later than 2099-12-31T23:59:59Z.
    #[error("moment fault")]
    Moment,
}

impl From<AllocError> for Fault {
    ghost from_gives = { λ _ fault. fault ≡ Memory };

    fn from(_: AllocError) -> Fault {
        Fault::Memory
    }
}

impl From<BookFault> for Fault {
    ghost from_gives = { λ error fault. fault ≡ of_book error };

    fn from(error: BookFault) -> Fault {
        match error {
            BookFault::Memory => Fault::Memory,
            BookFault::Store => Fault::Store,
        }
    }
}

/// Why a book can't be opened.
#[derive(Clone, Copy, Debug, PartialEq, Eq, Drop, Error)]
pub enum OpenFault {
    /// It was used under another zone, other reserved labels, days or prices, or other registrars.
    #[error("open: policy differs")]
    Policy,
    /// What keeps the book has something else in it, or a book of another form.
    #[error("open: schema")]
    Schema,
    /// Memory ran out.
    #[error("out of memory")]
    Memory,
    /// What keeps the book refused.
    #[error("store fault")]
    Store,
}

impl From<BookFault> for OpenFault {
    ghost from_gives = { λ error fault. fault ≡ opening_of_book error };

    fn from(error: BookFault) -> OpenFault {
        match error {
            BookFault::Memory => OpenFault::Memory,
            BookFault::Store => OpenFault::Store,
        }
    }
}
