//! Lengths of periods.
ghost use Rattle.std.specs.Prelude.{◌≡◌, IfOk, IfSome};
ghost use Rattle.toml.specs.View.{view, table_view};
ghost use Rattle.policy.specs.Reading as spec;
ghost use Rattle.policy.specs.{Reading.Gives, Rules.{AreDays, IsDayCount, length_of}};

use crate::document::{get, lacks};
use crate::{Key, PolicyFault};
use toml::{Table, Value};

/// A period whose length the policy sets.
#[derive(Clone, Copy, Debug, PartialEq, Eq)]
pub enum Period {
    /// The grace period after a create (RFC 3915, 3.1).
    Add,
    /// The grace period after a renewal by the registry (RFC 3915, 3.1).
    AutoRenew,
    /// The grace period after a renewal by the registrar (RFC 3915, 3.1).
    Renew,
    /// The grace period after a transfer (RFC 3915, 3.1).
    Transfer,
    /// The redemption period (RFC 3915, 3.1).
    Redemption,
    /// How long a restored domain waits for its report (RFC 3915, 3.1).
    Restore,
    /// The time between redemption and purge (RFC 3915, 3.1).
    PendingDelete,
    /// How long a transfer waits for the loser's answer.
    Answer,
    /// How long a domain isn't transferred after it is created or transferred.
    Lock,
}

impl Period {
    ghost use Rattle.policy.specs.Keys.{period_name};

    /// Its name in the policy file.
    pub fn name(self) -> &'static str
        ensures { result.now ≡ period_name self }
    {
        match self {
            Period::Add => "add",
            Period::AutoRenew => "auto_renew",
            Period::Renew => "renew",
            Period::Transfer => "transfer",
            Period::Redemption => "redemption",
            Period::Restore => "restore",
            Period::PendingDelete => "pending_delete",
            Period::Answer => "answer",
            Period::Lock => "lock",
        }
    }
}

/// Lengths of periods in days, each from 1 to 3,650 where a policy file gave them.
#[derive(Clone, Copy, Debug, PartialEq, Eq)]
pub struct Days {
    pub add: u32,
    pub auto_renew: u32,
    pub renew: u32,
    pub transfer: u32,
    pub redemption: u32,
    pub restore: u32,
    pub pending_delete: u32,
    pub answer: u32,
    pub lock: u32,
}

impl Days {
    /// The length of a period in days.
    pub fn length(&self, period: Period) -> u32
        ensures value { result ≡ length_of period self.now }
        ensures range { AreDays self.now → IsDayCount result }
    {
        match period {
            Period::Add => self.add,
            Period::AutoRenew => self.auto_renew,
            Period::Renew => self.renew,
            Period::Transfer => self.transfer,
            Period::Redemption => self.redemption,
            Period::Restore => self.restore,
            Period::PendingDelete => self.pending_delete,
            Period::Answer => self.answer,
            Period::Lock => self.lock,
        }
    }
}

/// The number of days that an entry has at a key, if it has one.
fn count_of(entry: &Value, key: Key) -> Option<u32>
    ensures value { result ≡ spec.count_of key (view entry.now) }
    ensures range { IfSome result IsDayCount }
{
    match get(entry.as_table()?, key.name())?.as_integer() {
        Some(n) if n >= 1 && n <= 3_650 => Some(n as u32),
        _ => None,
    }
}

/// Whether an entry has a number of days at a key.
pub(crate) fn has_count(entry: &Value, key: Key) -> bool
    ensures { result ≡ spec.has_count key (view entry.now) }
{
    count_of(entry, key).is_some()
}

/// The number of days that an entry has at a key.
#[tactic(auto, unfolding(crate::specs::Reading::day_count_in))]
fn day_count_in(entry: &Value, key: Key) -> Result<u32, PolicyFault>
    ensures read { Gives (λ n. n) result (spec.day_count_in key (view entry.now)) }
    ensures range { IfOk result IsDayCount }
{
    if lacks(entry, key) {
        return Err(PolicyFault::Missing(key));
    }
    count_of(entry, key).ok_or(PolicyFault::Range(key))
}

/// A table of lengths in the policy file.
#[derive(Clone, Copy)]
pub(crate) enum LengthTable {
    /// `days`.
    First,
    /// One of `days_from`.
    Dated,
}

impl LengthTable {
    /// The key of a period's length there.
    fn key(self, period: Period) -> Key
        ensures { result ≡ spec.length_key self period }
    {
        match self {
            LengthTable::First => Key::Days(period),
            LengthTable::Dated => Key::DatedDays(period),
        }
    }
}

/// The lengths that such a table has.
#[tactic(auto, unfolding(crate::specs::Reading::days_in))]
pub(crate) fn days_in(table: LengthTable, entry: &Value) -> Result<Days, PolicyFault>
    ensures read { Gives (λ days. days) result (spec.days_in table (view entry.now)) }
    ensures range { IfOk result AreDays }
{
    Ok(Days {
        add: day_count_in(entry, table.key(Period::Add))?,
        auto_renew: day_count_in(entry, table.key(Period::AutoRenew))?,
        renew: day_count_in(entry, table.key(Period::Renew))?,
        transfer: day_count_in(entry, table.key(Period::Transfer))?,
        redemption: day_count_in(entry, table.key(Period::Redemption))?,
        restore: day_count_in(entry, table.key(Period::Restore))?,
        pending_delete: day_count_in(entry, table.key(Period::PendingDelete))?,
        answer: day_count_in(entry, table.key(Period::Answer))?,
        lock: day_count_in(entry, table.key(Period::Lock))?,
    })
}

/// The table `days`.
#[tactic(auto, unfolding(crate::specs::Reading::days_at))]
pub(crate) fn days_at(document: &Table) -> Result<Days, PolicyFault>
    ensures read { Gives (λ days. days) result (spec.days_at (table_view document.now)) }
    ensures range { IfOk result AreDays }
{
    match get(document, "days") {
        Some(entry) => days_in(LengthTable::First, entry),
        None => Err(PolicyFault::Missing(Key::Days(Period::Add))),
    }
}
