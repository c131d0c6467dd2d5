//! The rows of a statement.
ghost use Rattle.std.specs.Prelude.{◌≡◌, ◌++◌, ◌+ℤ◌, pos, string_bytes, IfOk, OnOk};
ghost use Rattle.accounts.specs.Lines.{amount};
ghost use Rattle.statements.specs.Tables as spec;

use crate::extract::Bounds;
use crate::in_time::by_moment;
use accounts::{Line, LineKind, Lines};
use basis::text::Text;
use calendar::Moment;
use objects::Roid;
use std::alloc::{AllocError, Global};

const HEADING: &str = "moment,kind,object,years,cents,balance\r\n";

/// The statement of an account: a heading, and a row for each line that was recorded within the bounds, by
/// their moments. A row has the cents that the line adds to the balance, which are 0 of a charge that was
/// given back, and the balance after it.
pub fn statement(alloc: Global, lines: &Lines, bounds: Bounds) -> Result<String, AllocError>
    ensures { IfOk result (λ text. string_bytes text ≡ spec.statement bounds lines.now) }
{
    let lines = by_moment(lines)?;
    table(alloc, &lines, &bounds)
}

/// The heading, and the rows of these lines.
#[tactic(auto, unfolding(crate::specs::Tables::rows))]
fn table(alloc: Global, lines: &[Line], bounds: &Bounds) -> Result<String, AllocError>
    ensures { IfOk result (λ text. string_bytes text ≡ spec.heading ++ spec.rows bounds.now (pos 0) lines.now) }
{
    let text = String::from_str(alloc, HEADING)?;
    let mut written = Written { text, balance: 0 };
    for line in lines {
        written.add(alloc, line, bounds)?;
    }
    Ok(written.text)
}

/// What is written of a statement, and the balance after its lines.
#[derive(Drop)]
struct Written {
    text: String,
    balance: i128,
}

impl Written {
    /// One line more, which has a row if it was recorded within the bounds.
    fn add(&mut self, alloc: Global, line: &Line, bounds: &Bounds) -> Result<(), AllocError>
        ensures balance { OnOk result (self.new.balance ≡ self.old.balance +ℤ amount line.now) }
        ensures text { OnOk result (string_bytes self.new.text ≡ string_bytes self.old.text
            ++ spec.row_within bounds.now line.now (self.old.balance +ℤ amount line.now)) }
    {
        self.count(line)?;
        self.push_within(alloc, line, bounds)
    }

    /// The balance with a line more. One that is too great is refused as lack of memory, since no memory holds so
    /// many lines.
    fn count(&mut self, line: &Line) -> Result<(), AllocError>
        ensures balance { OnOk result (self.new.balance ≡ self.old.balance +ℤ amount line.now) }
        ensures text { self.new.text ≡ self.old.text }
    {
        match self.balance.checked_add(line.amount()) {
            Some(balance) => {
                self.balance = balance;
                Ok(())
            }
            None => Err(AllocError),
        }
    }

    /// Adds the row of a line, if it was recorded within the bounds.
    fn push_within(&mut self, alloc: Global, line: &Line, bounds: &Bounds) -> Result<(), AllocError>
        ensures balance { self.new.balance ≡ self.old.balance }
        ensures text { OnOk result (string_bytes self.new.text ≡ string_bytes self.old.text
            ++ spec.row_within bounds.now line.now self.old.balance) }
    {
        if !bounds.has(line.recorded) {
            return Ok(());
        }
        self.push(alloc, line)
    }

    /// Adds the row of a line.
    fn push(&mut self, alloc: Global, line: &Line) -> Result<(), AllocError>
        ensures balance { self.new.balance ≡ self.old.balance }
        ensures text { OnOk result (string_bytes self.new.text ≡ string_bytes self.old.text
            ++ spec.row line.now self.old.balance) }
    {
        let row = row(alloc, line, self.balance)?;
        self.text.push_str(row.as_str())
    }
}

impl Bounds {
    /// Whether a moment is within them.
    fn has(&self, moment: Moment) -> bool
        ensures { result ≡ spec.is_within self.now moment }
    {
        is_from(self.from, moment) && is_before(self.to, moment)
    }
}

fn is_from(from: Option<Moment>, moment: Moment) -> bool
    ensures { result ≡ spec.is_from from moment }
{
    match from {
        None => true,
        Some(from) => from <= moment,
    }
}

fn is_before(to: Option<Moment>, moment: Moment) -> bool
    ensures { result ≡ spec.is_before to moment }
{
    match to {
        None => true,
        Some(to) => moment < to,
    }
}

/// A line, with the balance after it.
fn row(alloc: Global, line: &Line, balance: i128) -> Result<String, AllocError>
    ensures { IfOk result (λ text. string_bytes text ≡ spec.row line.now balance) }
{
    let (moment, object) = (line.recorded.text(alloc)?, object_text(alloc, &line.roid)?);
    let (kind, object) = (kind_word(line.kind), object.as_str());
    let (years, cents) = (line.years, line.amount());
    format!(in alloc; "{moment},{kind},{object},{years},{cents},{balance}\r\n")
}

fn kind_word(kind: LineKind) -> &'static str
    ensures { result.now ≡ spec.kind_word kind }
{
    match kind {
        LineKind::Deposit => "deposit",
        LineKind::Create => "create",
        LineKind::Renew => "renew",
        LineKind::AutoRenew => "automatic renewal",
        LineKind::Transfer => "transfer",
        LineKind::Restore => "restore",
    }
}

/// The domain's identifier, or nothing.
fn object_text(alloc: Global, roid: &Option<Roid>) -> Result<Text, AllocError>
    ensures { IfOk result (λ text. text ≡ spec.roid_or_empty roid.now) }
{
    match roid {
        None => Text::from_str(alloc, ""),
        Some(roid) => roid.text(alloc),
    }
}
