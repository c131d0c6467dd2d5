//! A file that counts its calls, and fails some of them.
ghost use Rattle.std.specs.Prelude.{◌≡◌, ◌+◌, ◌&&◌, not, false};
ghost use Rattle.sqlite_disk.specs.{Disk.CountsFault, Refusal.finds_no_room};

use sqlite_disk::{Crash, Disk, Tally};
use std::io;

/// No call fails.
pub const NONE: (u64, u64) = (u64::MAX, 0);

/// A file that counts its calls, and fails each from one to another.
#[derive(Drop)]
pub struct Failing<D: Disk> {
    inner: D,
    calls: u64,
    failing: (u64, u64),
    refused: u64,
    sync_refused: bool,
}

impl<D: Disk> Failing<D> {
    pub fn new(inner: D, failing: (u64, u64)) -> Failing<D> {
        Failing {
            inner,
            calls: 0,
            failing,
            refused: 0,
            sync_refused: false,
        }
    }

    pub fn inner(&self) -> &D {
        &self.inner
    }

    /// Whether a call has failed.
    pub fn has_failed(&self) -> bool {
        self.refused > 0
    }
}

fn count(calls: &mut u64, failing: (u64, u64), refused: &mut u64) -> io::Result<()>
    ensures faults { CountsFault result refused.old refused.new }
    ensures kind { finds_no_room result ≡ false }
{
    let earlier = *calls;
    *calls = earlier.saturating_add(1);
    if earlier >= failing.0 && earlier <= failing.1 {
        *refused = refused.saturating_add(1);
        return Err(io::Error::other("a call fails"));
    }
    Ok(())
}

impl<D: Disk> Disk for Failing<D> {
    ghost seen = { λ f. D.Disk.seen f.inner };

    ghost may_leave = { λ f. D.Disk.may_leave f.inner };

    ghost is_usable = { λ f. D.Disk.is_usable f.inner && not f.sync_refused };

    ghost faults = { λ f. D.Disk.faults f.inner + f.refused };

    ghost tally_of = { λ f. D.Disk.tally_of f.inner };

    ghost key_of = { λ f. D.Disk.key_of f.inner };

    ghost is_clean = { λ f. D.Disk.is_clean f.inner };

    ghost is_fair = { λ f. D.Disk.is_fair f.inner };

    ghost fair_if_clean = { λ f. D.Disk.fair_if_clean f.inner };

    ghost seen_may_stay = { λ f. D.Disk.seen_may_stay f.inner };

    fn mixes(&self) -> bool {
        false
    }

    fn key(&self) -> u64 {
        self.inner.key()
    }

    fn tally(&self) -> Tally {
        self.inner.tally()
    }

    fn may_be_used(&self) -> bool {
        self.inner.may_be_used() && !self.sync_refused
    }

    fn len(&mut self) -> io::Result<usize> {
        count(&mut self.calls, self.failing, &mut self.refused)?;
        self.inner.len()
    }

    fn read_at(&mut self, at: usize, buf: &mut [u8]) -> io::Result<()> {
        count(&mut self.calls, self.failing, &mut self.refused)?;
        self.inner.read_at(at, buf)
    }

    fn read_checked(&mut self, key: u64, want: u64, at: usize, buf: &mut [u8]) -> io::Result<()> {
        count(&mut self.calls, self.failing, &mut self.refused)?;
        self.inner.read_checked(key, want, at, buf)
    }

    fn write_at(&mut self, at: usize, bytes: &[u8]) -> io::Result<()> {
        count(&mut self.calls, self.failing, &mut self.refused)?;
        self.inner.write_at(at, bytes)
    }

    fn set_len(&mut self, len: usize) -> io::Result<()> {
        count(&mut self.calls, self.failing, &mut self.refused)?;
        self.inner.set_len(len)
    }

    fn sync(&mut self) -> io::Result<()> {
        if let Err(error) = count(&mut self.calls, self.failing, &mut self.refused) {
            self.sync_refused = true;
            return Err(error);
        }
        self.inner.sync()
    }
}

/// The machine comes back, and no call fails.
impl<D: Crash> Crash for Failing<D> {
    fn crash(&mut self) {
        self.inner.crash();
        self.failing = NONE;
        self.sync_refused = false;
    }
}
