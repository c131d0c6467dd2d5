//! The head of a request (RFC 9112, 2.1).
ghost use Rattle.std.specs.Prelude.{◌≡◌, take};
ghost use Rattle.rdap.specs.Heads.{IsFrontReading, IsReading, most_bytes};

use httparse::Status;
use httparse::spans::{EMPTY_HEADER_SPAN, parse_request};

/// The most bytes of a head, with the empty line at its end.
pub const MOST_BYTES: usize = 8_192;

/// The most fields of a head.
pub const MOST_FIELDS: usize = 64;

/// What a request asks for: its method and its target (RFC 9112, 3).
#[derive(Clone, Copy, Debug)]
pub struct Asked<'b> {
    pub method: &'b [u8],
    pub target: &'b [u8],
}

/// What some bytes of a connection are.
#[derive(Clone, Copy, Debug)]
pub enum Reading<'b> {
    /// They begin with a whole head. What follows it isn't looked at.
    Whole(Asked<'b>),
    /// They begin with no whole head yet; more bytes may make it one.
    Cut,
    /// Whatever follows, they begin with no head of HTTP/1.0 or 1.1 of at most [`MOST_BYTES`] bytes
    /// and [`MOST_FIELDS`] fields.
    Bad,
}

/// Reads the head that bytes begin with.
pub fn read_head(bytes: &[u8]) -> Reading<'_>
    ensures { IsReading bytes.now result }
{
    match read_front(front_of(bytes)) {
        Reading::Whole(asked) => Reading::Whole(asked),
        Reading::Cut => {
            if bytes.len() < MOST_BYTES {
                Reading::Cut
            } else {
                Reading::Bad
            }
        }
        Reading::Bad => Reading::Bad,
    }
}

/// Those of the bytes that a head may have.
fn front_of(bytes: &[u8]) -> &[u8]
    ensures { result.now ≡ take most_bytes bytes.now }
{
    &bytes[..MOST_BYTES.min(bytes.len())]
}

/// Reads the head of any length that bytes begin with.
fn read_front(front: &[u8]) -> Reading<'_>
    ensures { IsFrontReading front.now result }
{
    let mut fields = [EMPTY_HEADER_SPAN; MOST_FIELDS];
    match parse_request(front, &mut fields) {
        Ok(Status::Complete(head)) => Reading::Whole(Asked {
            method: head.method.of(front),
            target: head.path.of(front),
        }),
        Ok(Status::Partial) => Reading::Cut,
        Err(_) => Reading::Bad,
    }
}
