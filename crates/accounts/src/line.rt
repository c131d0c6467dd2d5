//! Lines of an account.
ghost use Rattle.std.specs.Prelude.{◌≡◌, ◌<◌};
ghost use Rattle.accounts.specs.Lines as spec;

use calendar::Moment;
use objects::{ObjectKind, Roid};

/// What a line is for.
#[derive(Clone, Copy, Debug, PartialEq, Eq, Drop)]
pub enum LineKind {
    Deposit,
    Create,
    Renew,
    AutoRenew,
    Transfer,
    Restore,
}

/// A deposit, or a charge for a domain.
#[derive(Clone, Copy, Drop)]
pub struct Line {
    pub kind: LineKind,
    /// The domain that was charged for; none of a deposit.
    pub roid: Option<Roid>,
    pub recorded: Moment,
    pub years: u32,
    /// Whole cents.
    pub cents: u64,
    /// When its grace began, if it did.
    pub started: Option<Moment>,
    /// When it was given back, if it was.
    pub refunded: Option<Moment>,
}

/// A line that replaces another from now on.
#[derive(Clone, Copy, Drop)]
pub struct LineSwap {
    pub from: Line,
    pub to: Line,
}

impl LineKind {
    /// Its place among the kinds.
    pub fn rank(self) -> u8
        ensures { result ≡ spec.kind_rank self }
    {
        match self {
            LineKind::Deposit => 0,
            LineKind::Create => 1,
            LineKind::Renew => 2,
            LineKind::AutoRenew => 3,
            LineKind::Transfer => 4,
            LineKind::Restore => 5,
        }
    }

    /// Whether it is this kind.
    pub fn is(self, other: LineKind) -> bool
        ensures { result ≡ spec.is_kind self other }
    {
        self.rank() == other.rank()
    }
}

/// The place of a kind of objects among the kinds.
pub fn object_rank(kind: ObjectKind) -> u8
    ensures { result ≡ spec.object_rank kind }
{
    match kind {
        ObjectKind::Contact => 0,
        ObjectKind::Domain => 1,
        ObjectKind::Host => 2,
    }
}

/// Whether two moments are one, or there is neither.
fn is_same_moment(a: Option<Moment>, b: Option<Moment>) -> bool
    ensures { result ≡ spec.is_same_number a b }
{
    match (a, b) {
        (None, None) => true,
        (Some(a), Some(b)) => a == b,
        _ => false,
    }
}

/// Whether two lines are on one domain, or both on none.
fn is_same_domain(a: &Option<Roid>, b: &Option<Roid>) -> bool
    ensures { result ≡ spec.is_same_domain a.now b.now }
{
    match (a, b) {
        (None, None) => true,
        (Some(a), Some(b)) => is_same_roid(a, b),
        _ => false,
    }
}

/// Whether two identifiers are one.
pub fn is_same_roid(a: &Roid, b: &Roid) -> bool
    ensures { result ≡ spec.is_same_roid a.now b.now }
{
    object_rank(a.kind) == object_rank(b.kind) && a.creator == b.creator && a.serial == b.serial
}

impl Line {
    /// Whether another line is the same in all that it says.
    #[tactic(auto, unfolding(crate::specs::Lines::is_line))]
    pub fn is(&self, other: &Line) -> bool
        ensures { result ≡ spec.is_line self.now other.now }
    {
        self.is_for(other)
            && self.cents == other.cents
            && is_same_moment(self.started, other.started)
            && is_same_moment(self.refunded, other.refunded)
    }

    /// Whether another line is for the same.
    #[tactic(auto, unfolding(crate::specs::Lines::is_line_for))]
    fn is_for(&self, other: &Line) -> bool
        ensures { result ≡ spec.is_line_for self.now other.now }
    {
        self.kind.is(other.kind)
            && is_same_domain(&self.roid, &other.roid)
            && self.recorded == other.recorded
            && self.years == other.years
    }

    /// Whether it was charged for the domain with this identifier.
    pub fn is_on(&self, roid: &Roid) -> bool
        ensures { result ≡ spec.is_on roid.now self.now }
    {
        match &self.roid {
            None => false,
            Some(other) => is_same_roid(other, roid),
        }
    }

    /// Whether it was charged for a transfer of the domain, and not given back.
    fn is_for_transfer(&self, roid: &Roid) -> bool
        ensures { result ≡ spec.is_for_transfer roid.now self.now }
    {
        self.kind.is(LineKind::Transfer) && self.is_on(roid) && self.refunded.is_none()
    }

    /// Whether it was charged for a transfer of the domain that isn't completed.
    fn waits(&self, roid: &Roid) -> bool
        ensures { result ≡ spec.waits roid.now self.now }
    {
        self.is_for_transfer(roid) && self.started.is_none()
    }

    /// Whether its grace began before the moment, or then and with no more years.
    fn begins_by(&self, moment: Moment, years: u32) -> bool
        ensures { result ≡ spec.begins_by self.now.started self.now.years moment years }
    {
        let Some(started) = self.started else {
            return false;
        };
        started < moment || (started == moment && self.years <= years)
    }

    /// What it adds to the balance.
    pub fn amount(&self) -> i128
        ensures value { result ≡ spec.amount self.now }
        ensures small { self.now.cents < 18_446_744_073_709_551_616 }
    {
        let cents = i128::from(self.cents);
        if self.kind.is(LineKind::Deposit) {
            return cents;
        }
        if self.refunded.is_some() { 0 } else { -cents }
    }
}

/// A change of the lines of one domain.
pub trait LineChange {
    ghost use Rattle.std.specs.Prelude.{◌≡◌, false};
    ghost use Rattle.accounts.specs.Lines.{is_on};
    ghost use Rattle.accounts.specs.declared.line.Line.{Line};
    ghost use Rattle.objects.specs.declared.roid.Roid.{Roid};

    ghost domain: { Self → Roid };

    ghost changed: { Self → Line → Line };

    /// The domain that it is about.
    fn domain(&self) -> Roid
        ensures { result ≡ domain self.now };

    fn changed(&self, line: Line) -> Line
        ensures { result ≡ changed self.now line };

    /// Lines of another domain stay as they are, and those of this one stay its own.
    ghost elsewhere: { (change : Self) (line : Line) → is_on (domain change) line ≡ false → changed change line ≡ line };

    ghost stays: { (change : Self) (line : Line) → (changed change line).roid ≡ line.roid };
}

/// A transfer that was refused or withdrawn at a moment: its charge is given back.
#[derive(Clone, Copy, Drop)]
pub struct TransferRefund {
    pub roid: Roid,
    pub moment: Moment,
}

/// A transfer that was completed at a moment with so many years: its grace begins.
#[derive(Clone, Copy, Drop)]
pub struct TransferStart {
    pub roid: Roid,
    pub moment: Moment,
    pub years: u32,
}

impl LineChange for TransferRefund {
    ghost use Rattle.accounts.specs.LineChanges.{refund-elsewhere, refund-stays};
    ghost use Rattle.accounts.specs.Lines.{transfer_refunded};

    ghost domain = { λ x. x.roid };

    ghost changed = { transfer_refunded };

    ghost elsewhere = { refund-elsewhere };

    ghost stays = { refund-stays };

    fn domain(&self) -> Roid {
        self.roid
    }

    fn changed(&self, line: Line) -> Line {
        let mut line = line;
        if line.waits(&self.roid) {
            line.refunded = Some(self.moment);
        }
        line
    }
}

impl LineChange for TransferStart {
    ghost use Rattle.accounts.specs.LineChanges.{start-elsewhere, start-stays};
    ghost use Rattle.accounts.specs.Lines.{transfer_started};

    ghost domain = { λ x. x.roid };

    ghost changed = { transfer_started };

    ghost elsewhere = { start-elsewhere };

    ghost stays = { start-stays };

    fn domain(&self) -> Roid {
        self.roid
    }

    fn changed(&self, line: Line) -> Line {
        let mut line = line;
        if line.is_for_transfer(&self.roid) && !line.begins_by(self.moment, self.years) {
            line.started = Some(self.moment);
            line.years = self.years;
        }
        line
    }
}
