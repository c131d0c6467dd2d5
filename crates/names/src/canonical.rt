//! The canonical text of a name.
ghost use Rattle.std.specs.Prelude.{◌≡◌, true, IfOk, IfErr, string_bytes};
ghost use Rattle.names.specs.{Canonical.{IsStable, canonical, unicode_of}, Labels.is_label};
ghost use Rattle.names.specs.Reading.{Gives, or_syntax};
ghost use Rattle.names.specs.Canonical as spec;
ghost use Rattle.names.specs.Labels as labels;

use crate::NameFault;
use crate::label::{is_label, is_name};
use basis::text::Text;
use idna::AsciiDenyList;
use idna::uts46::{DnsLength, Hyphens, Uts46};
use std::alloc::{AllocError, Global};

/// The most bytes of a text that is read as a name. ToASCII shortens some texts, and this bounds
/// what it's given.
const LONGEST_TEXT: usize = 1000;

/// The canonical text of a name: its lower-case ASCII by ToASCII (UTS #46, 4.2).
#[tactic(auto, unfolding(crate::specs::Canonical::canonical))]
pub(crate) fn canonical_text(alloc: Global, text: &str) -> Result<Text, NameFault>
    ensures read { Gives (λ name. name) result (canonical text.now) }
    ensures stable { IfOk result IsStable }
    ensures kept { IfOk result (λ name. labels.is_name name ≡ true) }
{
    if text.is_empty() || text.len() > LONGEST_TEXT {
        return Err(NameFault::Syntax);
    }
    let name = Uts46::new().to_ascii(
        alloc,
        text.as_bytes(),
        AsciiDenyList::STD3,
        Hyphens::Allow,
        DnsLength::Ignore,
    )?;
    if !is_name(name.as_str().as_bytes()) {
        return Err(NameFault::Syntax);
    }
    Ok(Text::from_string(name.into_owned(alloc)?))
}

/// Whether a text is one label that is its own canonical text. A label after `xn--` that
/// Punycode doesn't decode isn't, and no name can have it.
#[tactic(auto, unfolding(crate::specs::Canonical::reads_as_itself))]
pub fn reads_as_itself(alloc: Global, label: &str) -> Result<bool, AllocError>
    ensures value { IfOk result (λ reads. reads ≡ spec.reads_as_itself label.now) }
    ensures label { IfOk result (λ reads. reads ≡ true → is_label label.now ≡ true) }
{
    if !is_label(label.as_bytes()) {
        return Ok(false);
    }
    match canonical_text(alloc, label) {
        Ok(name) => Ok(name.as_str() == label),
        Err(NameFault::Memory) => Err(AllocError),
        Err(_) => Ok(false),
    }
}

/// The Unicode of a canonical text (UTS #46, 4.3).
pub(crate) fn unicode_text(alloc: Global, name: &Text) -> Result<String, NameFault>
    requires { IsStable name.now }
    ensures value { Gives (λ text. string_bytes text) result (or_syntax (unicode_of name.now)) }
    ensures known { IfErr result (λ fault. fault ≡ NameFault.Memory) }
{
    let (text, outcome) = Uts46::new().to_unicode(
        alloc,
        name.as_str().as_bytes(),
        AsciiDenyList::STD3,
        Hyphens::Allow,
    )?;
    outcome?;
    Ok(text.into_owned(alloc)?)
}
