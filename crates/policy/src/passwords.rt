//! The passwords of registrars, apart from all that a registry is run by.
ghost use Rattle.std.specs.Prelude.{◌≡◌};
ghost use Rattle.policy.specs.Rules.{is_text, password_at};

use basis::list::Seq;
use basis::registrar::RegistrarNo;
use basis::text::Text;
use std::marker::Model;

/// The password of each registrar of a policy.
#[derive(Drop)]
pub struct Passwords {
    /// In the order of the registrars' places.
    texts: Seq<Text>,
}

impl Model for Passwords {
    ghost use Rattle.std.specs.Prelude.{List, ℕ};

    ghost Value = { List (List ℕ) };

    ghost view = { λ p. p.texts };
}

impl Passwords {
    pub(crate) fn new(texts: Seq<Text>) -> Passwords
        ensures { result ≡ texts }
    {
        Passwords { texts }
    }

    /// Whether a registrar has this password.
    pub fn has(&self, registrar: RegistrarNo, password: &str) -> bool
        ensures { result ≡ is_text password.now (password_at self.now registrar) }
    {
        let Some(index) = registrar.place().checked_sub(1) else {
            return false;
        };
        match self.texts.as_slice().get(index as usize) {
            None => false,
            Some(own) => own.as_str() == password,
        }
    }
}
