//! The text of the zone (RFC 1035, 5.1): its start of authority, the name servers of each domain that is
//! served, and the addresses of those within the zone.
//!
//! The text is a function of the zone's data, the policy and a serial number.
#![tactic(auto)]

mod fault;
mod line;
mod lines;
mod zone;

pub use fault::ZoneFault;
pub use zone::write_zone;
