//! Reads and writes that go on until all bytes are moved, in however many pieces that takes.
ghost use Rattle.std.specs.Prelude.{◌<◌, ◌≤◌, length, take, IfOk, OnOk, OnErr};
ghost use Rattle.std.specs.Io.KnownBytes.{Appends, Consumes, IsAtEnd};
ghost use Rattle.streams.specs.Moves.{AppendsLess};

use std::io::{self, ErrorKind, Read, Write};

/// A read failed.
#[derive(Clone, Copy, Debug, PartialEq, Eq)]
pub struct ReadFault;

/// A write failed, or took no byte.
#[derive(Clone, Copy, Debug, PartialEq, Eq)]
pub struct WriteFault;

/// Reads until the buffer is full or the input ends, and answers how many bytes that were. After a
/// fault nothing is known of the bytes that were taken.
pub fn read_to_fill<R: Read>(reader: &mut R, buffer: &mut [u8]) -> Result<usize, ReadFault>
    ensures bound { IfOk result (λ n. n ≤ length buffer.new) }
    ensures bytes { IfOk result (λ n. Consumes (R.remaining reader.old) (R.remaining reader.new)
        (take n buffer.new)) }
    ensures end { IfOk result (λ n. n < length buffer.new → IsAtEnd (R.remaining reader.new)) }
{
    let mut count = 0;
    'reads: for _ in 0..u64::MAX {
        if count >= buffer.len() {
            return Ok(count);
        }
        match reader.read(&mut buffer[count..]) {
            Ok(0) => return Ok(count),
            Ok(more) => count += more,
            Err(error) if error.kind() == ErrorKind::Interrupted => {}
            Err(_) => return Err(ReadFault),
        }
    }
    Err(ReadFault)
}

/// Writes all bytes. A fault leaves a beginning of them, and never the whole.
pub fn write_whole<W: Write>(writer: &mut W, bytes: &[u8]) -> Result<(), WriteFault>
    ensures ok { OnOk result (Appends (W.contents writer.old) (W.contents writer.new) bytes.now) }
    ensures err { OnErr result (AppendsLess (W.contents writer.old) (W.contents writer.new)
        bytes.now) }
{
    match write_all(writer, bytes) {
        Ok(()) => Ok(()),
        Err(_) => Err(WriteFault),
    }
}

/// The same with the error of the write that failed. `Write::write_all` doesn't say what one leaves.
pub fn write_all<W: Write>(writer: &mut W, bytes: &[u8]) -> io::Result<()>
    ensures ok { OnOk result (Appends (W.contents writer.old) (W.contents writer.new) bytes.now) }
    ensures err { OnErr result (AppendsLess (W.contents writer.old) (W.contents writer.new)
        bytes.now) }
{
    let mut sent = 0;
    'writes: for _ in 0..u64::MAX {
        if sent >= bytes.len() {
            break;
        }
        match writer.write(&bytes[sent..]) {
            Ok(0) => return Err(io::Error::from(ErrorKind::WriteZero)),
            Ok(more) => sent += more,
            Err(error) if error.kind() == ErrorKind::Interrupted => {}
            Err(error) => return Err(error),
        }
    }
    if sent < bytes.len() {
        return Err(io::Error::from(ErrorKind::Interrupted));
    }
    Ok(())
}
