//! Registrars by their place.
ghost use Rattle.std.specs.Prelude.{◌≡◌};

use std::marker::Model;

/// A registrar: its place in the policy file, counted from 1. Contracts see the place.
#[derive(Clone, Copy, Debug, PartialEq, Eq, Drop)]
pub struct RegistrarNo {
    place: u32,
}

impl Model for RegistrarNo {
    ghost use Rattle.std.specs.Prelude.{ℕ};

    ghost Value = { ℕ };

    ghost view = { λ r. r.place };

    ghost inverse = { λ n. record { place = n } };
}

impl RegistrarNo {
    pub fn of_place(place: u32) -> Self
        ensures { result ≡ place }
    {
        RegistrarNo { place }
    }

    pub fn place(self) -> u32
        ensures { result ≡ self }
    {
        self.place
    }
}
