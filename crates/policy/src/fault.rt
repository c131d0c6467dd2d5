//! Why a policy file is refused.
ghost use Rattle.std.specs.Prelude.{◌≡◌};
ghost use Rattle.policy.specs.declared.fault.PolicyFault.TheVariants.{Memory};

use crate::Key;
use basis::text::Text;
use std::alloc::{AllocError, AllocFailed};
use std::fmt;

/// The first fault of a policy file.
#[derive(Drop)]
pub enum PolicyFault {
    /// The bytes aren't TOML, or not even UTF-8.
    NotToml,
    /// The key is missing.
    Missing(Key),
    /// The key holds what it may not hold.
    Range(Key),
    /// Two registrars have this id.
    Twice(Text),
    /// Memory ran out.
    Memory,
}

impl From<AllocError> for PolicyFault {
    ghost from_gives = { λ _ fault. fault ≡ Memory };

    fn from(_: AllocError) -> PolicyFault {
        PolicyFault::Memory
    }
}

impl<T: Drop> From<AllocFailed<T>> for PolicyFault {
    ghost from_gives = { λ _ fault. fault ≡ Memory };

    fn from(_: AllocFailed<T>) -> PolicyFault {
        PolicyFault::Memory
    }
}

impl fmt::Display for PolicyFault {
    ghost use Rattle.std.specs.Prelude.{Some};
    ghost use Rattle.policy.specs.Faults.{fault_text};

    ghost output = { λ fault. Some (fault_text fault) };

    fn fmt<W: fmt::Write>(&self, f: &mut fmt::Formatter<W>) -> fmt::Result {
        match self {
            PolicyFault::NotToml => f.write_str("not TOML"),
            PolicyFault::Missing(key) => write!(f, "missing {key}"),
            PolicyFault::Range(key) => write!(f, "range {key}"),
            PolicyFault::Twice(id) => {
                let id = id.as_str();
                write!(f, "twice {id}")
            }
            PolicyFault::Memory => f.write_str("out of memory"),
        }
    }
}
