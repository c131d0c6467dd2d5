//! The policy of the registry, which the operator writes in a TOML file: the zone, its periods in days,
//! its prices in cents, its start of authority, and the registrars that may log in.
//!
//! [`PolicyFile::read`] reads a whole file, or returns its first fault, in the order of [`Key`]. Every key
//! is required; other keys are ignored. [`Terms`] are the part of a policy that a registry keeps as long
//! as it lives, with two exceptions: registrars may be added at the end, and new periods may begin
//! later. Reading takes time linear in the file, except that each id is compared with those after it (at
//! most 1,000).
#![tactic(auto)]

mod dated;
mod days;
mod document;
mod fault;
mod key;
mod passwords;
mod policy;
mod prices;
mod registrar;
mod schedule;
mod soa;
mod terms;
mod texts;

pub use days::{Days, Period};
pub use fault::PolicyFault;
pub use key::Key;
pub use passwords::Passwords;
pub use policy::{Policy, PolicyFile};
pub use prices::Prices;
pub use schedule::{DatedDays, Schedule};
pub use soa::Soa;
pub use terms::Terms;
