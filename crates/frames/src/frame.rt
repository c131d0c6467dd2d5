//! Frames: four bytes of total length, big-endian, these four included, and the payload.
ghost use Rattle.std.specs.Prelude.{◌≡◌, ℕ, ◌+◌, ◌^◌, ◌<◌, ◌≤◌, length, vec_len, IfOk, OnOk, OnErr};
ghost use Rattle.std.specs.Io.KnownBytes.{Appends};
ghost use Rattle.frames.specs.Frames.{frame, Receives};
ghost use Rattle.streams.specs.Moves.{AppendsLess};

use std::alloc::{AllocError, Global};
use std::io::{Read, Write};
use streams::{WriteFault, read_to_fill, write_whole};

/// The bytes of the length.
const HEADER: usize = 4;

/// The least total length.
const LEAST: usize = 6;

/// The greatest total length.
const GREATEST: usize = 65_540;

/// The greatest length of a payload, which is that of a frame's buffer.
pub const ROOM: usize = 65_536;

/// What stood next in the input.
#[derive(Clone, Copy, Debug, PartialEq, Eq)]
pub enum Received {
    /// A whole frame. Its payload is the first so many bytes of the buffer.
    Frame(usize),
    /// The end, between two frames.
    End,
    /// The end, inside a frame.
    Cut,
    /// A total length that no frame may have.
    BadLength,
    /// A read failed.
    ReadFault,
}

/// The memory for one frame after the other.
pub fn frame_buffer(alloc: Global) -> Result<Vec<u8>, AllocError>
    ensures { IfOk result (λ buffer. vec_len buffer ≡ ROOM) }
{
    vec![in alloc; 0u8; ROOM]
}

/// Reads the next frame into the buffer.
pub fn read_frame<R: Read>(reader: &mut R, buffer: &mut [u8]) -> Received
    requires { length buffer.old ≡ ROOM }
    ensures received { Receives result buffer.new (R.remaining reader.old)
        (R.remaining reader.new) }
    ensures room { (n : ℕ) → result ≡ Received.Frame n → n ≤ ROOM }
{
    let mut header = [0u8; HEADER];
    match read_to_fill(reader, &mut header) {
        Ok(0) => return Received::End,
        Ok(HEADER) => {}
        Ok(_) => return Received::Cut,
        Err(_) => return Received::ReadFault,
    }
    let total = u32::from_be_bytes(header) as usize;
    if total < LEAST || total > GREATEST {
        return Received::BadLength;
    }
    let len = total - HEADER;
    match read_to_fill(reader, &mut buffer[..len]) {
        Ok(count) if count == len => Received::Frame(len),
        Ok(_) => Received::Cut,
        Err(_) => Received::ReadFault,
    }
}

/// Writes the frame of a payload. A fault leaves a beginning of the frame, and never the whole.
pub fn write_frame<W: Write>(writer: &mut W, payload: &[u8]) -> Result<(), WriteFault>
    requires { length payload.now + 4 < 2 ^ 32 }
    ensures ok { OnOk result (Appends (W.contents writer.old) (W.contents writer.new)
        (frame payload.now)) }
    ensures err { OnErr result (AppendsLess (W.contents writer.old) (W.contents writer.new)
        (frame payload.now)) }
{
    let total = (payload.len() + HEADER) as u32;
    write_whole(writer, &total.to_be_bytes())?;
    write_whole(writer, payload)
}
