//! The keys of the policy file.
ghost use Rattle.std.specs.Prelude.{◌≡◌, option_copied};
ghost use Rattle.policy.specs.Keys as spec;

use crate::Period;
use std::fmt;

/// A key of the policy file, in the order in which faults are looked for.
#[derive(Clone, Copy, Debug, PartialEq, Eq)]
pub enum Key {
    Zone,
    Reserved,
    /// The length of a period, in the table `days`.
    Days(Period),
    /// When a table of `days_from` begins.
    DatedFrom,
    /// The length of a period, in the tables `days_from`.
    DatedDays(Period),
    PriceCreate,
    PriceRenew,
    PriceTransfer,
    SoaMname,
    SoaRname,
    SoaRefresh,
    SoaRetry,
    SoaExpire,
    SoaMinimum,
    SoaTtl,
    RegistrarId,
    RegistrarPassword,
}

impl Key {
    /// The table of the key, if it isn't a key of the document.
    pub fn table(self) -> Option<&'static str>
        ensures { option_copied result ≡ spec.table_of self }
    {
        match self {
            Key::Zone | Key::Reserved => None,
            Key::Days(_) => Some("days"),
            Key::DatedFrom | Key::DatedDays(_) => Some("days_from"),
            Key::PriceCreate | Key::PriceRenew | Key::PriceTransfer => Some("prices"),
            Key::SoaMname
            | Key::SoaRname
            | Key::SoaRefresh
            | Key::SoaRetry
            | Key::SoaExpire
            | Key::SoaMinimum
            | Key::SoaTtl => Some("soa"),
            Key::RegistrarId | Key::RegistrarPassword => Some("registrar"),
        }
    }

    /// The key's name in its table.
    pub fn name(self) -> &'static str
        ensures { result.now ≡ spec.name_of self }
    {
        match self {
            Key::Zone => "zone",
            Key::Reserved => "reserved",
            Key::Days(period) | Key::DatedDays(period) => period.name(),
            Key::DatedFrom => "from",
            Key::PriceCreate => "create",
            Key::PriceRenew => "renew",
            Key::PriceTransfer => "transfer",
            Key::SoaMname => "mname",
            Key::SoaRname => "rname",
            Key::SoaRefresh => "refresh",
            Key::SoaRetry => "retry",
            Key::SoaExpire => "expire",
            Key::SoaMinimum => "minimum",
            Key::SoaTtl => "ttl",
            Key::RegistrarId => "id",
            Key::RegistrarPassword => "password",
        }
    }
}

impl fmt::Display for Key {
    ghost use Rattle.std.specs.Prelude.{Some};

    ghost output = { λ key. Some (spec.key_text key) };

    /// The key with the table before it, as `days.lock`.
    fn fmt<W: fmt::Write>(&self, f: &mut fmt::Formatter<W>) -> fmt::Result {
        let name = self.name();
        match self.table() {
            Some(table) => write!(f, "{table}.{name}"),
            None => f.write_str(name),
        }
    }
}
