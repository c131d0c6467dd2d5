//! How long a connection may take.
ghost use Rattle.std.specs.Prelude.{◌≡◌, ◌*◌, map};
ghost use Rattle.wires.specs.inner.Lateness as spec;

use std::time::Duration;

/// How long a connection may take over what it has to do.
#[derive(Clone, Copy, Debug, PartialEq, Eq)]
pub struct Limits {
    /// Until its first byte is there.
    pub first: Duration,
    /// Until the head of a request is whole.
    pub head: Duration,
    /// From the first byte of a frame until it is whole.
    pub frame: Duration,
    /// Until somebody is logged in.
    pub login: Duration,
    /// From a reply until the next frame begins, and until a reply is taken.
    pub pause: Duration,
    /// In place of `pause`, and between two bytes, while another connection waits.
    pub still: Duration,
    /// For a whole session, while another connection waits.
    pub session: Duration,
}

impl Limits {
    /// Those of a registry whose operator names no others.
    pub fn usual() -> Limits
        ensures { spec.nanos_of result ≡ map (λ secs. secs * 1_000_000_000) spec.usual }
    {
        Limits {
            first: Duration::from_secs(10),
            head: Duration::from_secs(10),
            frame: Duration::from_secs(30),
            login: Duration::from_secs(30),
            pause: Duration::from_secs(60),
            still: Duration::from_secs(10),
            session: Duration::from_secs(60),
        }
    }
}

/// Whether more time than a limit has passed from one moment to another.
pub(crate) fn has_passed(limit: Duration, from: Duration, now: Duration) -> bool
    ensures { result ≡ spec.has_passed limit from now }
{
    now.saturating_sub(from).as_nanos() > limit.as_nanos()
}
