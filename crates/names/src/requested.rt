//! A name as a command gives it.
ghost use Rattle.std.specs.Prelude.{◌≡◌};
ghost use Rattle.names.specs.{Canonical.{IsCanonical, canonical}, Reading.Gives};
ghost use Rattle.names.specs.RequestedName as spec;

use crate::NameFault;
use crate::canonical::canonical_text;
use basis::text::Text;
use std::alloc::Global;
use std::marker::Model;

/// The name of a domain or a host as a command gives it, whether or not the zone keeps such names.
/// It's made by reading alone. Contracts see its canonical text.
#[derive(Clone, Drop)]
pub struct RequestedName {
    text: Text,
}

impl Model for RequestedName {
    ghost use Rattle.names.specs.Canonical.{IsCanonical};
    ghost use Rattle.names.specs.RequestedName as spec;

    ghost Value = { spec.RequestedName };

    ghost view = { λ name. name.text };

    ghost invariant = { λ name. IsCanonical name.text };
}

impl RequestedName {
    /// The name that a text means.
    pub fn read(alloc: Global, text: &str) -> Result<RequestedName, NameFault>
        ensures { Gives (λ name. name) result (canonical text.now) }
    {
        let text = canonical_text(alloc, text)?;
        Ok(RequestedName { text })
    }

    /// The canonical text.
    pub fn text(&self) -> &Text
        ensures { result.now ≡ spec.name_of self.now }
    {
        &self.text
    }

    /// The canonical text.
    pub fn into_text(self) -> Text
        ensures { result ≡ spec.name_of self }
    {
        self.text
    }

    /// Tells the prover what each such name is, and does nothing.
    pub fn is_canonical(&self)
        ensures { IsCanonical (spec.name_of self.now) }
    {
        let _text = &self.text;
    }
}
