//! Repository object identifiers (RFC 5730, 2.8).
ghost use Rattle.std.specs.Prelude.{◌≡◌, IfOk};
ghost use Rattle.objects.specs.Roid.{letter_of, roid_text};

use basis::registrar::RegistrarNo;
use basis::text::Text;
use std::alloc::{AllocError, Global};

/// The kinds of objects.
#[derive(Clone, Copy, Debug, PartialEq, Eq, Drop)]
pub enum ObjectKind {
    Contact,
    Domain,
    Host,
}

impl ObjectKind {
    /// The letter that an identifier begins with.
    fn letter(self) -> &'static str
        ensures { result.now ≡ letter_of self }
    {
        match self {
            ObjectKind::Contact => "C",
            ObjectKind::Domain => "D",
            ObjectKind::Host => "H",
        }
    }
}

/// The identifier of an object: its kind, who created it, and its creator's own number for it. No
/// number is drawn from a counter that registrars share.
#[derive(Clone, Copy, Debug, PartialEq, Eq, Drop)]
pub struct Roid {
    pub kind: ObjectKind,
    pub creator: RegistrarNo,
    pub serial: u64,
}

impl Roid {
    /// The identifier as replies show it, as `D1_3-REG`.
    pub fn text(&self, alloc: Global) -> Result<Text, AllocError>
        ensures { IfOk result (λ text. text ≡ roid_text self.now) }
    {
        let letter = self.kind.letter();
        let (place, serial) = (self.creator.place(), self.serial);
        Ok(Text::from_string(format!(in alloc; "{letter}{place}_{serial}-REG")?))
    }
}
