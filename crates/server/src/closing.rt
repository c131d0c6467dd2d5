//! How a connection is let go: so that its client reads all that was written, whatever it sent besides.
ghost use Rattle.std.specs.{Prelude.{◌≡◌, true, length, vec_len, IfOk}, Io.KnownBytes.IsAtEnd};
ghost use Rattle.server.specs.inner.Closing as spec;

use crate::connection::ConnectionEnd;
use crate::http::HttpEnd;
use frames::SessionEnd;
use std::alloc::{AllocError, Global};
use std::io::{ErrorKind, Read};
use std::net::{Shutdown, TcpStream};
use std::time::Duration;

/// How many reads are made after the end of a connection.
const MOST_READS: u32 = 100;

/// How many bytes each of them takes at most.
const MOST_PIECE: usize = 65_536;

/// How many milliseconds each of them waits.
const MOST_WAIT: u64 = 10;

/// Lets a connection go that ended so, or that took longer than it may (`None`). A machine that lets one go
/// with bytes unread resets it, and what was written and not yet read is lost to the client. So what a
/// client sent after the end is read and thrown away until it ends its side, a hundred times 65,536 bytes
/// or ten milliseconds at most.
pub fn let_go(alloc: Global, stream: &TcpStream, end: Option<ConnectionEnd>) {
    if may_have_more(end) {
        let_go_with_more(alloc, stream);
    } else {
        // The client reads the end of what was written.
        let _ = stream.shutdown(Shutdown::Write);
    }
}

/// Lets a connection go whose client may have sent more than was read.
pub fn let_go_with_more(alloc: Global, stream: &TcpStream) {
    let _ = stream.shutdown(Shutdown::Write);
    let wait = Duration::from_millis(MOST_WAIT);
    if stream.set_read_timeout(Some(wait)).is_err() {
        return;
    }
    if let Ok(mut piece) = piece_buffer(alloc) {
        let _ = read_on(&mut &*stream, &mut piece);
    }
}

/// Whether a client may have sent more than was read, after what ended its connection.
fn may_have_more(end: Option<ConnectionEnd>) -> bool
    ensures { result ≡ spec.may_have_more end }
{
    match end {
        None => true,
        Some(ConnectionEnd::Session(session)) => session_may_have_more(session),
        Some(ConnectionEnd::Http(request)) => request_may_have_more(request),
        Some(ConnectionEnd::Unread) => false,
    }
}

fn session_may_have_more(end: SessionEnd) -> bool
    ensures { result ≡ spec.session_may_have_more end }
{
    match end {
        SessionEnd::Logout | SessionEnd::Length | SessionEnd::Lost => true,
        SessionEnd::End | SessionEnd::Cut | SessionEnd::ReadFault | SessionEnd::WriteFault => false,
    }
}

fn request_may_have_more(end: HttpEnd) -> bool
    ensures { result ≡ spec.request_may_have_more end }
{
    match end {
        HttpEnd::Answered => true,
        HttpEnd::Unanswered | HttpEnd::WriteFault => false,
    }
}

/// The memory for what is read at once.
fn piece_buffer(alloc: Global) -> Result<Vec<u8>, AllocError>
    ensures { IfOk result (λ piece. vec_len piece ≡ spec.most_piece) }
{
    vec![in alloc; 0u8; MOST_PIECE]
}

/// Reads on and throws away what comes, up to the end of the input, to a read that fails, or to the last
/// of so many reads. Answers whether the input ended.
fn read_on<R: Read>(reader: &mut R, piece: &mut [u8]) -> bool
    requires { length piece.old ≡ spec.most_piece }
    ensures bound { spec.TakesUpTo spec.most_behind (R.remaining reader.old)
        (R.remaining reader.new) }
    ensures end { result ≡ true → IsAtEnd (R.remaining reader.new) }
{
    'reads: for _turn in 0..MOST_READS {
        match reader.read(piece) {
            Ok(0) => return true,
            Ok(_) => {}
            Err(error) if is_passing(error.kind()) => {}
            Err(_) => return false,
        }
    }
    false
}

/// Whether a read that failed so may be made again: nothing came while it waited, or it was interrupted.
fn is_passing(kind: ErrorKind) -> bool
    ensures { result ≡ spec.is_passing kind }
{
    matches!(kind, ErrorKind::WouldBlock | ErrorKind::Interrupted)
}
