//! A connection of HTTP: one request, answered by its head (RFC 7480, 4).
ghost use Rattle.std.specs.Prelude.{◌≡◌, ◌<◌, ◌≤◌, true, false, length, take, vec_len, Some, IfOk, IfSome};
ghost use Rattle.rdap.specs.Heads.{IsCut, IsDecided, most_bytes};
ghost use Rattle.server.specs.Http.{AnswersHttp, IsRead, IsWritten};

use crate::at_moment::answer_at;
use books::Book;
use frames::Clock;
use rdap::{MOST_BYTES, Reading, Routes, read_head};
use registry::{Fault, Registry};
use std::alloc::{AllocError, Global};
use std::io::{ErrorKind, Read, Write};
use streams::{ReadFault, WriteFault, write_whole};

/// How a connection of HTTP ended.
#[derive(Clone, Copy, Debug, PartialEq, Eq)]
pub enum HttpEnd {
    /// Its request was answered.
    Answered,
    /// A read failed, there was no memory, or the registry gave up. Nothing was answered.
    Unanswered,
    /// A write failed, and left a beginning of the answer, never the whole.
    WriteFault,
}

/// A registry after a connection of HTTP that ended.
#[derive(Drop)]
pub(crate) struct HttpServed<B: Book> {
    pub registry: Registry<B>,
    pub end: HttpEnd,
}

/// Answers the request that a connection begins with. What follows its head isn't looked at.
pub(crate) fn serve_http<R: Read, W: Write, C: Clock, B: Book + Drop>(
    alloc: Global,
    routes: &Routes,
    reader: &mut R,
    writer: &mut W,
    clock: &mut C,
    registry: Registry<B>,
) -> HttpServed<B>
    ensures served { AnswersHttp registry.policy (R.remaining reader.old) (C.moments clock.old)
        (B.state registry.book) (W.contents writer.old) (W.contents writer.new)
        (C.moments clock.new) (B.state result.registry.book) result.end }
    ensures policy { result.registry.policy ≡ registry.policy }
{
    let Some(head) = read_request(alloc, reader) else {
        return HttpServed {
            registry,
            end: HttpEnd::Unanswered,
        };
    };
    answer_request(alloc, routes, &head, writer, clock, registry)
}

/// Answers a request by its head, at the clock's moment.
fn answer_request<W: Write, C: Clock, B: Book + Drop>(
    alloc: Global,
    routes: &Routes,
    head: &[u8],
    writer: &mut W,
    clock: &mut C,
    registry: Registry<B>,
) -> HttpServed<B>
    ensures served { AnswersHttp registry.policy (Some head.now) (C.moments clock.old)
        (B.state registry.book) (W.contents writer.old) (W.contents writer.new)
        (C.moments clock.new) (B.state result.registry.book) result.end }
    ensures policy { result.registry.policy ≡ registry.policy }
{
    let moment = clock.moment();
    let asked = answer_at(alloc, routes, head, moment, registry);
    let end = write_answer(writer, asked.answer);
    HttpServed {
        registry: asked.registry,
        end,
    }
}

/// Writes an answer, where there is one.
fn write_answer<W: Write>(writer: &mut W, answer: Result<Vec<u8>, Fault>) -> HttpEnd
    ensures { IsWritten (λ bytes. bytes.items) answer (W.contents writer.old)
        (W.contents writer.new) result }
{
    let Ok(answer) = answer else {
        return HttpEnd::Unanswered;
    };
    match write_whole(writer, &answer) {
        Ok(()) => HttpEnd::Answered,
        Err(WriteFault) => HttpEnd::WriteFault,
    }
}

// ---- the request

/// The bytes of a connection, up to where it is decided which head they begin with, or to their end.
/// None where a read fails or there is no memory.
fn read_request<R: Read>(alloc: Global, reader: &mut R) -> Option<Vec<u8>>
    ensures { IfSome result (λ head. IsRead (R.remaining reader.old) (R.remaining reader.new)
        head.items) }
{
    let Ok(mut buffer) = head_buffer(alloc) else {
        return None;
    };
    let Ok(count) = read_to_decide(reader, &mut buffer) else {
        return None;
    };
    buffer.truncate(count);
    Some(buffer)
}

/// The memory for a head.
fn head_buffer(alloc: Global) -> Result<Vec<u8>, AllocError>
    ensures { IfOk result (λ buffer. vec_len buffer ≡ most_bytes) }
{
    vec![in alloc; 0u8; MOST_BYTES]
}

/// Reads until it is decided which head the bytes begin with, or the input ends, and answers how many
/// bytes were read.
fn read_to_decide<R: Read>(reader: &mut R, buffer: &mut [u8]) -> Result<usize, ReadFault>
    requires { most_bytes ≤ length buffer.old }
    ensures bound { IfOk result (λ n. n ≤ length buffer.new) }
    ensures read { IfOk result (λ n. IsRead (R.remaining reader.old) (R.remaining reader.new)
        (take n buffer.new)) }
{
    let mut count = 0;
    'reads: for _ in 0..u64::MAX {
        if is_decided(&buffer[..count]) {
            return Ok(count);
        }
        match reader.read(&mut buffer[count..]) {
            Ok(0) => return Ok(count),
            Ok(more) => count += more,
            Err(error) if error.kind() == ErrorKind::Interrupted => {}
            Err(_) => return Err(ReadFault),
        }
    }
    Err(ReadFault)
}

/// Whether it is decided which head the bytes begin with, whatever follows them.
fn is_decided(bytes: &[u8]) -> bool
    ensures decided { result ≡ true → IsDecided bytes.now }
    ensures cut { result ≡ false → IsCut bytes.now }
{
    !matches!(read_head(bytes), Reading::Cut)
}
