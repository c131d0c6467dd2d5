//! What a request of the operator's asks for.
ghost use Rattle.std.specs.Prelude.{◌≡◌, length, map, All, Some, MatchOption, option_map};
ghost use Rattle.std.specs.List.{list_any};
ghost use Rattle.httparse.specs.Spans.{IsHeaderWithin, header_bytes};
ghost use Rattle.operator.specs.Requests as spec;
ghost use Rattle.operator.specs.Requests.{HasHeadAsking, HasNoHead, IsLength, IsNumber};

use crate::token::is_same;
use basis::registrar::RegistrarNo;
use httparse::Status;
use httparse::spans::{EMPTY_HEADER_SPAN, HeaderSpan, parse_request};
use policy::Policy;
use statements::{Bounds, Extract, account_asked, after, bounds_asked};

/// The most bytes of an order: those of a frame's payload.
pub const MOST_BODY: usize = 65_536;

/// The most fields of a head.
pub const MOST_FIELDS: usize = 64;

/// What is asked.
#[derive(Clone, Copy, Debug, PartialEq, Eq)]
pub enum Asked {
    /// `POST /orders`, with a body of so many bytes.
    Order(usize),
    /// `GET /zone`
    Zone,
    /// `GET /metrics`
    Metrics,
    /// `GET /statement/REGISTRAR?from=MOMENT&to=MOMENT`
    Statement(Extract),
    /// Something that is refused.
    Refused(Refusal),
}

/// Why a request is refused.
#[derive(Clone, Copy, Debug, PartialEq, Eq)]
pub enum Refusal {
    /// It doesn't have the token.
    Token,
    /// There is no such target.
    Target,
    /// The query isn't one or two moments.
    Query,
    /// Its target has the method GET alone.
    OnlyGet,
    /// Its target has the method POST alone.
    OnlyPost,
    /// It doesn't say how long its body is.
    Length,
    /// Its body is longer than an order may be.
    Size,
}

/// What the head asks for that bytes begin with, and how long it is. None where they begin with none.
pub fn read_head(policy: &Policy, credentials: &[u8], bytes: &[u8]) -> Option<(Asked, usize)>
    ensures { MatchOption result (HasNoHead bytes.now) (λ read. HasHeadAsking policy.now credentials.now bytes.now
        read.0 read.1) }
{
    let mut headers = [EMPTY_HEADER_SPAN; MOST_FIELDS];
    match parse_request(bytes, &mut headers) {
        Ok(Status::Complete(head)) => {
            let fields = &headers[..head.headers];
            let asked = asked_by(
                policy,
                bears(credentials, bytes, fields),
                head.method.of(bytes),
                head.path.of(bytes),
                length_of(bytes, fields),
            );
            Some((asked, head.len))
        }
        Ok(Status::Partial) => None,
        Err(_) => None,
    }
}

// ---- what is asked

fn asked_by(
    policy: &Policy,
    has_token: bool,
    method: &[u8],
    target: &[u8],
    length: Option<usize>,
) -> Asked
    ensures { result ≡ spec.asked_by policy.now has_token method.now target.now length }
{
    if has_token {
        routed(policy, method, target, length)
    } else {
        Asked::Refused(Refusal::Token)
    }
}

fn routed(policy: &Policy, method: &[u8], target: &[u8], length: Option<usize>) -> Asked
    ensures { result ≡ spec.routed policy.now method.now target.now length }
{
    if target == b"/orders".as_slice() {
        if method == b"POST".as_slice() {
            ordered(length)
        } else {
            Asked::Refused(Refusal::OnlyPost)
        }
    } else if target == b"/zone".as_slice() {
        got(method, Asked::Zone)
    } else if target == b"/metrics".as_slice() {
        got(method, Asked::Metrics)
    } else {
        elsewhere(policy, after(b"/statement/", target), method)
    }
}

/// What a target of none of the others asks for, by what follows `/statement/` in it.
fn elsewhere(policy: &Policy, text: Option<&[u8]>, method: &[u8]) -> Asked
    ensures { result ≡ spec.elsewhere policy.now (option_map (λ text. text.now) text.entry)
        method.now }
{
    match text {
        Some(text) => statement_of(policy, text, method),
        None => Asked::Refused(Refusal::Target),
    }
}

fn statement_of(policy: &Policy, text: &[u8], method: &[u8]) -> Asked
    ensures { result ≡ spec.elsewhere policy.now (Some text.now) method.now }
{
    match account_asked(policy, text) {
        Some(registrar) => got(method, stated(bounds_asked(text), registrar)),
        None => Asked::Refused(Refusal::Target),
    }
}

fn stated(bounds: Option<Bounds>, registrar: RegistrarNo) -> Asked
    ensures { result ≡ spec.stated bounds registrar }
{
    match bounds {
        Some(bounds) => Asked::Statement(Extract { registrar, bounds }),
        None => Asked::Refused(Refusal::Query),
    }
}

fn got(method: &[u8], asked: Asked) -> Asked
    ensures { result ≡ spec.got method.now asked }
{
    if method == b"GET".as_slice() {
        asked
    } else {
        Asked::Refused(Refusal::OnlyGet)
    }
}

fn ordered(length: Option<usize>) -> Asked
    ensures { result ≡ spec.order_of_length length }
{
    match length {
        Some(length) if length <= MOST_BODY => Asked::Order(length),
        Some(_) => Asked::Refused(Refusal::Size),
        None => Asked::Refused(Refusal::Length),
    }
}

// ---- fields

/// Whether the only field Authorization has these credentials.
fn bears(credentials: &[u8], bytes: &[u8], fields: &[HeaderSpan]) -> bool
    requires { All (IsHeaderWithin (length bytes.now)) fields.now }
    ensures { result ≡ spec.bears credentials.now (map (header_bytes bytes.now) fields.now) }
{
    match only_value(bytes, fields, b"Authorization") {
        Some(value) => is_same(value, credentials),
        None => false,
    }
}

/// The number that the only field Content-Length is.
fn length_of(bytes: &[u8], fields: &[HeaderSpan]) -> Option<usize>
    requires { All (IsHeaderWithin (length bytes.now)) fields.now }
    ensures { IsLength (map (header_bytes bytes.now) fields.now) result }
{
    let value = only_value(bytes, fields, b"Content-Length")?;
    number_of(value)
}

/// The number of these digits. A sign is none of them.
fn number_of(digits: &[u8]) -> Option<usize>
    ensures { IsNumber digits.now result }
{
    if digits.starts_with(b"+") {
        return None;
    }
    let Ok(text) = str::from_utf8(digits) else {
        return None;
    };
    text.parse().ok()
}

/// The value of the only field of a name.
fn only_value<'b>(bytes: &'b [u8], fields: &[HeaderSpan], name: &[u8]) -> Option<&'b [u8]>
    requires { All (IsHeaderWithin (length bytes.now)) fields.now }
    ensures { option_map (λ value. value.now) result
        ≡ spec.only_value name.now (map (header_bytes bytes.now) fields.now) }
{
    match fields.split_first() {
        Some((first, others)) => {
            if !is_named(bytes, first, name) {
                only_value(bytes, others, name)
            } else if has_named(bytes, others, name) {
                None
            } else {
                Some(first.value.of(bytes))
            }
        }
        None => None,
    }
}

/// Whether there is a field of a name.
fn has_named(bytes: &[u8], fields: &[HeaderSpan], name: &[u8]) -> bool
    requires { All (IsHeaderWithin (length bytes.now)) fields.now }
    ensures { result ≡ list_any (spec.is_field_named name.now) (map (header_bytes bytes.now) fields.now) }
{
    match fields.split_first() {
        Some((first, others)) => is_named(bytes, first, name) || has_named(bytes, others, name),
        None => false,
    }
}

fn is_named(bytes: &[u8], field: &HeaderSpan, name: &[u8]) -> bool
    requires { IsHeaderWithin (length bytes.now) field.now }
    ensures { result ≡ spec.is_field_named name.now (header_bytes bytes.now field.now) }
{
    field.name.of(bytes).eq_ignore_ascii_case(name)
}
