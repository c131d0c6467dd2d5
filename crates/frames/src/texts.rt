//! The two replies that need no memory.
ghost use Rattle.std.specs.{Prelude.{OnOk, OnErr}, Io.KnownBytes.Appends};
ghost use Rattle.frames.specs.{Frames.frame, Texts.{closing_text, failed_text}};
ghost use Rattle.streams.specs.Moves.{AppendsLess};

use crate::frame::write_frame;
use std::io::Write;
use streams::WriteFault;

/// The reply where a command could not be carried out (RFC 5730, 3: 2400).
pub const FAILED: &[u8] = b"{\"code\":2400,\"msg\":\"Command failed\",\"svTRID\":\"ANON\"}";

/// The reply before the server closes the connection (RFC 5730, 3: 2500).
pub const CLOSING: &[u8] =
    b"{\"code\":2500,\"msg\":\"Command failed; server closing connection\",\"svTRID\":\"ANON\"}";

/// Writes the frame of [`FAILED`]. A fault leaves a beginning of it, and never the whole.
pub fn write_failed<W: Write>(writer: &mut W) -> Result<(), WriteFault>
    ensures ok { OnOk result (Appends (W.contents writer.old) (W.contents writer.new)
        (frame failed_text)) }
    ensures err { OnErr result (AppendsLess (W.contents writer.old) (W.contents writer.new)
        (frame failed_text)) }
{
    write_frame(writer, FAILED)
}

/// Writes the frame of [`CLOSING`]. A fault leaves a beginning of it, and never the whole.
pub fn write_closing<W: Write>(writer: &mut W) -> Result<(), WriteFault>
    ensures ok { OnOk result (Appends (W.contents writer.old) (W.contents writer.new)
        (frame closing_text)) }
    ensures err { OnErr result (AppendsLess (W.contents writer.old) (W.contents writer.new)
        (frame closing_text)) }
{
    write_frame(writer, CLOSING)
}
