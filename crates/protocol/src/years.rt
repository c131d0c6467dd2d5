//! The years for which a domain is registered or renewed at once.
ghost use Rattle.std.specs.Prelude.{◌≡◌};
ghost use Rattle.protocol.specs.Years.{IsYears, years_of};

use std::marker::Model;

/// From one year to ten (RFC 5731, 3.2.1 and 3.2.3).
#[derive(Clone, Copy, Debug, PartialEq, Eq, Drop)]
pub struct Years {
    number: u32,
}

impl Model for Years {
    ghost use Rattle.std.specs.Prelude.{ℕ};
    ghost use Rattle.protocol.specs.Years.{IsYears};

    ghost Value = { ℕ };

    ghost view = { λ years. years.number };

    ghost invariant = { λ years. IsYears years.number };

    ghost inverse = { λ n. record { number = n } };
}

impl Years {
    /// So many years, if they are one to ten.
    pub fn of(number: u64) -> Option<Years>
        ensures { result ≡ years_of number }
    {
        if number < 1 || number > 10 {
            return None;
        }
        Some(Years {
            number: number as u32,
        })
    }

    /// What a command that doesn't say asks for.
    pub fn one() -> Years
        ensures { result ≡ 1 }
    {
        Years { number: 1 }
    }

    pub fn number(self) -> u32
        ensures value { result ≡ self }
        ensures range { IsYears self }
    {
        self.number
    }
}
