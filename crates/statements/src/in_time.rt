//! The lines of an account in the order of their moments.
ghost use Rattle.std.specs.Prelude.{◌≡◌, ◌<◌, IfOk};
ghost use Rattle.accounts.specs.Lines.{maybe_number};
ghost use Rattle.statements.specs.Tables as spec;

use accounts::{Line, Lines, object_rank};
use calendar::Moment;
use std::alloc::AllocError;

/// The lines of an account by their moments, and those of one moment by their kinds and domains.
pub(crate) fn by_moment(lines: &Lines) -> Result<Vec<Line>, AllocError>
    ensures { IfOk result (λ sorted. sorted.items ≡ spec.by_moment lines.now) }
{
    let mut sorted = lines.all()?;
    sorted.sort_by_key(place)?;
    Ok(sorted)
}

/// The numbers that tell a line from any other, its moment first.
#[tactic(auto, unfolding(crate::specs::Tables::place, accounts::specs::Lines::numbers))]
fn place(line: &Line) -> [u64; 10]
    ensures { result ≡ spec.place line.now }
{
    let (recorded, kind) = (secs(line.recorded), u64::from(line.kind.rank()));
    let (years, cents) = (u64::from(line.years), line.cents);
    let (started, refunded) = (maybe_secs(line.started), maybe_secs(line.refunded));
    match &line.roid {
        None => [
            recorded, kind, 0, 0, 0, recorded, years, cents, started, refunded,
        ],
        Some(roid) => {
            let object = 1 + u64::from(object_rank(roid.kind));
            let (creator, serial) = (u64::from(roid.creator.place()), roid.serial);
            [
                recorded, kind, object, creator, serial, recorded, years, cents, started, refunded,
            ]
        }
    }
}

fn secs(moment: Moment) -> u64
    ensures value { result ≡ moment }
    ensures range { result < 9_223_372_036_854_775_808 }
{
    moment.secs().unsigned_abs()
}

fn maybe_secs(moment: Option<Moment>) -> u64
    ensures { result ≡ maybe_number moment }
{
    match moment {
        None => 0,
        Some(moment) => 1 + secs(moment),
    }
}
