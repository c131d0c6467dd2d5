//! Why a zone isn't written.
ghost use Rattle.std.specs.Prelude.{◌≡◌};
ghost use Rattle.zonefile.specs.declared.fault.ZoneFault.TheVariants as faults;

use std::alloc::AllocError;
use streams::WriteFault;
use thiserror::Error;

/// Why a zone isn't written. A beginning of its text went out.
#[derive(Clone, Copy, Debug, PartialEq, Eq, Drop, Error)]
pub enum ZoneFault {
    /// Memory ran out.
    #[error("out of memory")]
    Memory,
    /// A write failed, or took no byte.
    #[error("file fault")]
    Write,
}

impl From<AllocError> for ZoneFault {
    ghost from_gives = { λ _ fault. fault ≡ faults.Memory };

    fn from(_: AllocError) -> ZoneFault {
        ZoneFault::Memory
    }
}

impl From<WriteFault> for ZoneFault {
    ghost from_gives = { λ _ fault. fault ≡ faults.Write };

    fn from(_: WriteFault) -> ZoneFault {
        ZoneFault::Write
    }
}
