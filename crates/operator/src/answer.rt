//! Answers on the operator's port.
ghost use Rattle.std.specs.Prelude.{◌≡◌, IfOk, string_bytes};
ghost use Rattle.operator.specs.Answers as spec;

use crate::request::Refusal;
use std::alloc::{AllocError, Global};

/// What becomes of a request.
#[derive(Clone, Copy, Debug, PartialEq, Eq)]
pub enum Outcome {
    Done,
    Malformed,
    Unauthorized,
    NotFound,
    OnlyGet,
    OnlyPost,
    /// An order that the rules refuse.
    Conflict,
    LengthRequired,
    TooLarge,
    /// The registry gave up, or there was no memory.
    Failed,
}

/// What a body is.
#[derive(Clone, Copy, Debug, PartialEq, Eq)]
pub enum Kind {
    Json,
    Plain,
    Prometheus,
    Csv,
    /// The text of a zone.
    Dns,
}

impl Outcome {
    /// Its status code and reason (RFC 9110, 15).
    pub fn status(self) -> &'static str
        ensures { result.now ≡ spec.status_of self }
    {
        match self {
            Outcome::Done => "200 OK",
            Outcome::Malformed => "400 Bad Request",
            Outcome::Unauthorized => "401 Unauthorized",
            Outcome::NotFound => "404 Not Found",
            Outcome::OnlyGet | Outcome::OnlyPost => "405 Method Not Allowed",
            Outcome::Conflict => "409 Conflict",
            Outcome::LengthRequired => "411 Length Required",
            Outcome::TooLarge => "413 Content Too Large",
            Outcome::Failed => "500 Internal Server Error",
        }
    }

    /// The field that some have besides.
    fn field(self) -> &'static str
        ensures { result.now ≡ spec.field_of self }
    {
        match self {
            Outcome::Unauthorized => "WWW-Authenticate: Bearer\r\n",
            Outcome::OnlyGet => "Allow: GET\r\n",
            Outcome::OnlyPost => "Allow: POST\r\n",
            _ => "",
        }
    }
}

impl Kind {
    /// Its media type.
    fn name(self) -> &'static str
        ensures { result.now ≡ spec.type_of self }
    {
        match self {
            Kind::Json => "application/json",
            Kind::Plain => "text/plain",
            Kind::Prometheus => "text/plain; version=0.0.4",
            Kind::Csv => "text/csv",
            Kind::Dns => "text/dns",
        }
    }
}

/// How a refused request is answered.
pub fn outcome_of(refusal: Refusal) -> Outcome
    ensures { result ≡ spec.refusal_outcome refusal }
{
    match refusal {
        Refusal::Token => Outcome::Unauthorized,
        Refusal::Target => Outcome::NotFound,
        Refusal::Query => Outcome::Malformed,
        Refusal::OnlyGet => Outcome::OnlyGet,
        Refusal::OnlyPost => Outcome::OnlyPost,
        Refusal::Length => Outcome::LengthRequired,
        Refusal::Size => Outcome::TooLarge,
    }
}

/// The answer with this body.
pub fn response(
    alloc: Global,
    outcome: Outcome,
    kind: Kind,
    body: &[u8],
) -> Result<Vec<u8>, AllocError>
    ensures { IfOk result (λ text. text.items ≡ spec.response_of_kind outcome kind body.now) }
{
    let head = head(alloc, outcome, kind, body.len())?;
    let mut text = Vec::from_slice(alloc, head.as_bytes())?;
    text.extend_from_slice(body)?;
    Ok(text)
}

fn head(alloc: Global, outcome: Outcome, kind: Kind, length: usize) -> Result<String, AllocError>
    ensures { IfOk result (λ text. string_bytes text ≡ spec.head_of_kind outcome kind length) }
{
    let (status, field, name) = (outcome.status(), outcome.field(), kind.name());
    format!(in alloc;
        "HTTP/1.1 {status}\r\nContent-Type: {name}\r\nContent-Length: {length}\r\n{field}Connection: close\r\n\r\n"
    )
}
