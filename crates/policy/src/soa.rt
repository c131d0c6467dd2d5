//! The zone's start of authority.
ghost use Rattle.std.specs.Prelude.{IfOk};
ghost use Rattle.toml.specs.View.{table_view};
ghost use Rattle.policy.specs.Reading as spec;
ghost use Rattle.policy.specs.{Reading.Gives, Rules.{AreTimes, IsTime}};

use crate::document::whole_at;
use crate::texts::text_at;
use crate::{Key, PolicyFault};
use basis::text::Text;
use std::alloc::Global;
use toml::Table;

/// The values of the zone's SOA record (RFC 1035, 3.3.13): two names without a final dot, and times
/// in seconds from 0 to 2,147,483,647.
#[derive(Drop)]
pub struct Soa {
    pub mname: Text,
    pub rname: Text,
    pub refresh: u32,
    pub retry: u32,
    pub expire: u32,
    pub minimum: u32,
    pub ttl: u32,
}

#[tactic(auto, unfolding(crate::specs::Reading::seconds_at))]
fn seconds_at(document: &Table, key: Key) -> Result<u32, PolicyFault>
    ensures read { Gives (λ n. n) result (spec.seconds_at (table_view document.now) key) }
    ensures range { IfOk result IsTime }
{
    whole_at(document, key, 0, 2_147_483_647)
}

/// The table `soa`.
#[tactic(auto, unfolding(crate::specs::Reading::soa_at))]
pub(crate) fn soa_at(alloc: Global, document: &Table) -> Result<Soa, PolicyFault>
    ensures read { Gives (λ soa. soa) result (spec.soa_at (table_view document.now)) }
    ensures range { IfOk result AreTimes }
{
    Ok(Soa {
        mname: text_at(alloc, document, Key::SoaMname)?,
        rname: text_at(alloc, document, Key::SoaRname)?,
        refresh: seconds_at(document, Key::SoaRefresh)?,
        retry: seconds_at(document, Key::SoaRetry)?,
        expire: seconds_at(document, Key::SoaExpire)?,
        minimum: seconds_at(document, Key::SoaMinimum)?,
        ttl: seconds_at(document, Key::SoaTtl)?,
    })
}
