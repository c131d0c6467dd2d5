//! What the bytes of a reply tell.
ghost use Rattle.std.specs.{Prelude.{◌≡◌, fold}, List.list_all};
ghost use Rattle.wires.specs.inner.Replies as spec;

use crate::progress::front_of;

/// The text before a reply's code. No text of JSON holds it, since a quote in one is escaped.
const CODE: &[u8] = b"\"code\":";

/// So many bytes of a reply are looked at for its code, which comes after a client's number at most.
const FRONT: usize = 512;

/// How many digits a code has.
const DIGITS: usize = 4;

/// The text before the code of an answer over HTTP, and how many digits it has.
const VERSION: &[u8] = b"HTTP/1.1 ";

const HTTP_DIGITS: usize = 3;

/// The text after the server's number, and how many bytes from the end on it begins at most.
const END: &[u8] = b"\"}";

const TAIL: usize = 96;

/// The code of a reply, where it has one: a greeting has none.
#[tactic(auto, unfolding(crate::specs::inner::Replies::reply_code))]
pub(crate) fn code_of(reply: &[u8]) -> Option<u16>
    ensures { result ≡ spec.reply_code reply.now }
{
    number_behind(CODE, DIGITS, front_of(reply, FRONT))
}

/// The code of an answer over HTTP.
pub(crate) fn http_code_of(answer: &[u8]) -> Option<u16>
    ensures { result ≡ spec.http_code_of answer.now }
{
    if answer.len() < VERSION.len() {
        return None;
    }
    number_of(&answer[VERSION.len()..], HTTP_DIGITS)
}

/// The server's number of a reply: its last text.
pub(crate) fn sv_trid_of(reply: &[u8]) -> &[u8] {
    let tail = &reply[reply.len().saturating_sub(TAIL)..];
    let Some(texts) = tail.strip_suffix(END) else {
        return b"";
    };
    let start = match texts.iter().rposition(|byte| *byte == b'"') {
        Some(at) => at.saturating_add(1),
        None => 0,
    };
    texts.get(start..).unwrap_or(b"")
}

/// The number of so many digits behind the first place where a word is.
#[tactic(auto, using(crate::proofs::ReplyLemmas::not_here, crate::proofs::ReplyLemmas::here, crate::proofs::ReplyLemmas::nowhere))]
fn number_behind(word: &[u8], digits: usize, bytes: &[u8]) -> Option<u16>
    ensures { result ≡ spec.number_behind word.now digits bytes.now }
{
    for at in 0..bytes.len() {
        let (_, rest) = bytes.split_at(at);
        if let Some(behind) = rest.strip_prefix(word) {
            return number_of(behind, digits);
        }
    }
    None
}

/// The number that these bytes begin with, of so many digits.
#[tactic(auto, unfolding(crate::specs::inner::Replies::number_of))]
fn number_of(bytes: &[u8], digits: usize) -> Option<u16>
    ensures { result ≡ spec.number_of bytes.now digits }
{
    if bytes.len() < digits {
        return None;
    }
    let front = &bytes[..digits];
    if !are_digits(front) {
        return None;
    }
    Some(value_of(front))
}

fn are_digits(bytes: &[u8]) -> bool
    ensures { result ≡ list_all spec.is_decimal_digit bytes.now }
{
    bytes.iter().all(|byte| byte.is_ascii_digit())
}

/// The number of these digits.
fn value_of(digits: &[u8]) -> u16
    ensures { result ≡ fold spec.with_digit 0 digits.now }
{
    digits.iter().fold(0u16, |number, digit| {
        number
            .wrapping_mul(10)
            .wrapping_add(u16::from(digit.saturating_sub(b'0')))
    })
}
