//! Host names.
ghost use Rattle.std.specs.Prelude.{◌≡◌, string_bytes, IfOk, IfErr};
ghost use Rattle.names.specs.{Canonical.unicode_of, Names.host_of, Reading.{Gives, or_syntax}};
ghost use Rattle.names.specs.Zone.{superordinate_of};

use crate::canonical::{canonical_text, unicode_text};
use crate::{DomainName, NameFault, Zone, superordinate_text};
use basis::text::Text;
use std::alloc::Global;
use std::marker::Model;

/// The name of a host: an external one, or one below a domain of the zone. Contracts see its
/// canonical text.
#[derive(Clone, Drop)]
pub struct HostName {
    text: Text,
}

impl Model for HostName {
    ghost use Rattle.std.specs.Prelude.{ℕ, List};
    ghost use Rattle.names.specs.Canonical.{IsStable};

    ghost Value = { List ℕ };

    ghost view = { λ name. name.text };

    ghost invariant = { λ name. IsStable name.text };
}

impl HostName {
    /// The host name that a text means.
    #[tactic(auto, unfolding(crate::specs::Names::host_of))]
    pub fn read(alloc: Global, text: &str, zone: &Zone) -> Result<HostName, NameFault>
        ensures { Gives (λ name. name) result (host_of zone.now text.now) }
    {
        let text = canonical_text(alloc, text)?;
        if !zone.keeps_host(text.as_str()) {
            return Err(NameFault::Policy);
        }
        Ok(HostName { text })
    }

    /// The superordinate domain, or `None` of an external host. Only memory can be missing.
    pub fn superordinate(&self, alloc: Global, zone: &Zone) -> Result<Option<DomainName>, NameFault>
        ensures value { IfOk result (λ domain. domain ≡ superordinate_of zone.now self.now) }
        ensures known { IfErr result (λ fault. fault ≡ NameFault.Memory) }
    {
        let Some(text) = superordinate_text(alloc, &self.text, zone)? else {
            return Ok(None);
        };
        Ok(Some(DomainName::from_canonical(text)))
    }

    /// The canonical text.
    pub fn text(&self) -> &Text
        ensures { result.now ≡ self.now }
    {
        &self.text
    }

    /// The canonical text.
    pub fn into_text(self) -> Text
        ensures { result ≡ self }
    {
        self.text
    }

    /// The name in Unicode (UTS #46, 4.3). Only memory can be missing.
    pub fn unicode(&self, alloc: Global) -> Result<String, NameFault>
        ensures value { Gives (λ text. string_bytes text) result (or_syntax (unicode_of self.now)) }
        ensures known { IfErr result (λ fault. fault ≡ NameFault.Memory) }
    {
        unicode_text(alloc, &self.text)
    }
}
