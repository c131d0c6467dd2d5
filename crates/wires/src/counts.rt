//! How often something was asked and answered so.
ghost use Rattle.std.specs.Prelude.{◌<◌, IfSome, length};

use std::alloc::{AllocError, Global};

/// So many different ones are counted at most. Others are left out.
const MOST_COUNTS: usize = 10_000;

/// How often a command of a registrar was answered so.
#[derive(Drop)]
pub(crate) struct Tally {
    pub registrar: Vec<u8>,
    pub command: String,
    /// 0 of a greeting.
    pub code: u16,
    pub times: u64,
}

impl Tally {
    fn is_of(&self, registrar: &[u8], command: &str, code: u16) -> bool {
        self.code == code
            && self.command.as_str() == command
            && self.registrar.as_slice() == registrar
    }
}

/// Counts one more.
pub(crate) fn count(
    alloc: Global,
    counts: &mut Vec<Tally>,
    registrar: &[u8],
    command: &str,
    code: u16,
) -> Result<(), AllocError> {
    if let Some(place) = place_of(counts, registrar, command, code) {
        let found = &mut counts[place];
        found.times = found.times.wrapping_add(1);
        return Ok(());
    }
    if counts.len() < MOST_COUNTS {
        let registrar = Vec::from_slice(alloc, registrar)?;
        let command = String::from_str(alloc, command)?;
        counts.push(Tally {
            registrar,
            command,
            code,
            times: 1,
        })?;
    }
    Ok(())
}

fn place_of(counts: &[Tally], registrar: &[u8], command: &str, code: u16) -> Option<usize>
    ensures { IfSome result (λ place. place < length counts.now) }
{
    counts
        .iter()
        .position(|it| it.is_of(registrar, command, code))
}
