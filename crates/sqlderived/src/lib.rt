//! What is stored with domains and contacts and has to stay right: the moment when each is due, and how
//! many domains each registrar holds.
//!
//! The row of an object has a column for the moment when it is due, so what is due by a moment is found
//! without a look at other rows. A contact is read only if its column is right. A domain's column
//! depends on the periods too: it is the moment when time next changes the domain. Each call refuses
//! periods other than those under which the rows were written. So what is due is known by the rows of
//! domains alone.
//!
//! An account's row has the number of domains that the registrar holds, so no call counts them. The
//! question is answered where these numbers are right. A change of a domain keeps them right, with one
//! or two statements for each registrar concerned.
#![tactic(auto)]

mod by_names;
mod by_registrar;
mod checking;
mod finding;
mod holders;
mod holding;
mod joining;
mod length;
mod near;
mod page;
mod recounting;
mod redating;

pub use checking::{checked_domain, due_of_domain};
pub use finding::due;
pub use holding::is_at_holding_limit;
pub use length::same_days;
pub use near::due_near;
pub use page::first_due;
pub use recounting::{Unwritten, recount};
pub use redating::{deleted_names, end_of_deletion, ends_are};
