//! Requests of the operator's, as a connection gives them.
ghost use Rattle.std.specs.Prelude.{◌≡◌, ◌≤◌, ◌⊎◌, true, false, drop, take, length, vec_len, IfOk, IfSome, MatchResult};
ghost use Rattle.std.specs.Io.KnownBytes.{Consumes, IsAtEnd};
ghost use Rattle.operator.specs.Heard.{IsBodyOf, IsHeard, IsOpen, IsUnheard, StaysHeadless, most_head};

use crate::request::{Asked, MOST_FIELDS, read_head};
use httparse::Status;
use httparse::spans::{EMPTY_HEADER_SPAN, parse_request};
use policy::Policy;
use std::alloc::{AllocError, Global};
use std::io::{ErrorKind, Read};
use streams::{ReadFault, read_to_fill};

/// The most bytes of a head, with the empty line at its end.
pub const MOST_HEAD: usize = 8_192;

/// A request.
#[derive(Drop)]
pub struct Heard {
    pub asked: Asked,
    pub body: Vec<u8>,
}

/// Why none was heard.
#[derive(Clone, Copy, Debug, PartialEq, Eq)]
pub enum Unheard {
    /// What came begins with no head.
    Headless,
    /// A read failed, the input ended in a body, or there was no memory.
    Lost,
}

/// Reads a request: its head, and after it the body of an order.
pub fn hear<R: Read>(
    alloc: Global,
    policy: &Policy,
    credentials: &[u8],
    reader: &mut R,
) -> Result<Heard, Unheard>
    ensures { MatchResult result (λ heard. IsHeard policy.now credentials.now (R.remaining reader.old)
        heard.asked heard.body.items) (IsUnheard (R.remaining reader.old)) }
{
    let Ok(mut buffer) = head_buffer(alloc) else {
        return Err(Unheard::Lost);
    };
    hear_in(alloc, policy, credentials, &mut buffer, reader)
}

/// The same with memory for its head.
fn hear_in<R: Read>(
    alloc: Global,
    policy: &Policy,
    credentials: &[u8],
    buffer: &mut [u8],
    reader: &mut R,
) -> Result<Heard, Unheard>
    requires { length buffer.old ≡ most_head }
    ensures { MatchResult result (λ heard. IsHeard policy.now credentials.now (R.remaining reader.old)
        heard.asked heard.body.items) (IsUnheard (R.remaining reader.old)) }
{
    let Ok(count) = read_to_head(reader, buffer) else {
        return Err(Unheard::Lost);
    };
    let front = front_of(buffer, count);
    let Some((asked, len)) = read_head(policy, credentials, front) else {
        return Err(Unheard::Headless);
    };
    match body_of(alloc, &asked, &mut behind(front, len).chain(reader)) {
        Some(body) => Ok(Heard { asked, body }),
        None => Err(Unheard::Lost),
    }
}

/// The body that an order has. None where a read fails, the input ends in it, or there is no memory.
fn body_of<R: Read>(alloc: Global, asked: &Asked, reader: &mut R) -> Option<Vec<u8>>
    ensures bytes { IfSome result (λ body. Consumes (R.remaining reader.old) (R.remaining reader.new)
        body.items) }
    ensures body_is { IfSome result (λ body. IsBodyOf asked.now body.items) }
{
    match asked {
        Asked::Order(length) => read_body(alloc, *length, reader),
        _ => Some(Vec::new(alloc)),
    }
}

/// So many bytes.
fn read_body<R: Read>(alloc: Global, count: usize, reader: &mut R) -> Option<Vec<u8>>
    ensures bytes { IfSome result (λ body. Consumes (R.remaining reader.old) (R.remaining reader.new)
        body.items) }
    ensures size { IfSome result (λ body. length body.items ≡ count) }
{
    let mut body = body_buffer(alloc, count).ok()?;
    match read_to_fill(reader, &mut body) {
        Ok(read) if read == count => Some(body),
        _ => None,
    }
}

// ---- memory, and the head

fn front_of(bytes: &[u8], count: usize) -> &[u8]
    requires { count ≤ length bytes.now }
    ensures { result.now ≡ take count bytes.now }
{
    &bytes[..count]
}

fn behind(bytes: &[u8], count: usize) -> &[u8]
    requires { count ≤ length bytes.now }
    ensures { result.now ≡ drop count bytes.now }
{
    &bytes[count..]
}

fn head_buffer(alloc: Global) -> Result<Vec<u8>, AllocError>
    ensures { IfOk result (λ buffer. vec_len buffer ≡ most_head) }
{
    vec![in alloc; 0u8; MOST_HEAD]
}

fn body_buffer(alloc: Global, count: usize) -> Result<Vec<u8>, AllocError>
    ensures { IfOk result (λ buffer. vec_len buffer ≡ count) }
{
    vec![in alloc; 0u8; count]
}

/// Reads until more bytes can't bring a head, or the input ends, and answers how many bytes were read.
fn read_to_head<R: Read>(reader: &mut R, buffer: &mut [u8]) -> Result<usize, ReadFault>
    requires { most_head ≤ length buffer.old }
    ensures bound { IfOk result (λ n. n ≤ length buffer.new) }
    ensures bytes { IfOk result (λ n. Consumes (R.remaining reader.old) (R.remaining reader.new)
        (take n buffer.new)) }
    ensures enough { IfOk result (λ n. StaysHeadless (take n buffer.new) ⊎ IsAtEnd (R.remaining reader.new)) }
{
    let mut count = 0;
    'reads: for _ in 0..u64::MAX {
        if is_decided(&buffer[..count]) {
            return Ok(count);
        }
        match reader.read(&mut buffer[count..]) {
            Ok(0) => return Ok(count),
            Ok(more) => count += more,
            Err(error) if error.kind() == ErrorKind::Interrupted => {}
            Err(_) => return Err(ReadFault),
        }
    }
    Err(ReadFault)
}

/// Whether more bytes can't bring a head where there is none.
fn is_decided(bytes: &[u8]) -> bool
    ensures decided { result ≡ true → StaysHeadless bytes.now }
    ensures cut { result ≡ false → IsOpen bytes.now }
{
    if bytes.len() >= MOST_HEAD {
        return true;
    }
    let mut headers = [EMPTY_HEADER_SPAN; MOST_FIELDS];
    match parse_request(bytes, &mut headers) {
        Ok(Status::Complete(_)) => true,
        Ok(Status::Partial) => false,
        Err(_) => true,
    }
}
