//! Answers on the wire (RFC 7480, 5).
ghost use Rattle.std.specs.Prelude.{◌≡◌, IfOk, length, string_bytes};
ghost use Rattle.rdap.specs.Answers as spec;

use http::StatusCode;
use std::alloc::{AllocError, Global};

/// What becomes of a request.
#[derive(Clone, Copy, Debug, PartialEq, Eq, Drop)]
pub enum Outcome {
    Found,
    BadRequest,
    NotFound,
    MethodNotAllowed,
}

impl Outcome {
    /// Its status code (RFC 9110, 15).
    fn status(self) -> StatusCode
        ensures { result ≡ spec.status_code self }
    {
        match self {
            Outcome::Found => StatusCode::OK,
            Outcome::BadRequest => StatusCode::BAD_REQUEST,
            Outcome::NotFound => StatusCode::NOT_FOUND,
            Outcome::MethodNotAllowed => StatusCode::METHOD_NOT_ALLOWED,
        }
    }

    /// The field with the allowed methods, where another was asked for (RFC 9110, 15.5.6).
    fn allow_field(self) -> &'static str
        ensures { result.now ≡ spec.allow_field_of self }
    {
        match self {
            Outcome::MethodNotAllowed => "Allow: GET\r\n",
            _ => "",
        }
    }

    /// The body that says nothing but the outcome (RFC 9083, 6), or the help (RFC 9083, 7).
    fn fixed_body(self) -> &'static [u8]
        ensures { result.now ≡ spec.fixed_body_of self }
    {
        match self {
            Outcome::Found =>
                b"{\"notices\":[{\"description\":[\"Domain, nameserver and entity look-ups.\"],\"title\":\"Help\"}],\"rdapConformance\":[\"rdap_level_0\"]}".as_slice(),
            Outcome::BadRequest =>
                b"{\"errorCode\":400,\"rdapConformance\":[\"rdap_level_0\"],\"title\":\"Bad Request\"}".as_slice(),
            Outcome::NotFound =>
                b"{\"errorCode\":404,\"rdapConformance\":[\"rdap_level_0\"],\"title\":\"Not Found\"}".as_slice(),
            Outcome::MethodNotAllowed =>
                b"{\"errorCode\":405,\"rdapConformance\":[\"rdap_level_0\"],\"title\":\"Method Not Allowed\"}".as_slice(),
        }
    }
}

/// The answer with this body.
pub fn response(alloc: Global, outcome: Outcome, body: &[u8]) -> Result<Vec<u8>, AllocError>
    ensures { IfOk result (λ text. text.items ≡ spec.response outcome body.now) }
{
    let head = head(alloc, outcome, body.len())?;
    let mut text = Vec::from_slice(alloc, head.as_bytes())?;
    text.extend_from_slice(body)?;
    Ok(text)
}

fn head(alloc: Global, outcome: Outcome, length: usize) -> Result<String, AllocError>
    ensures { IfOk result (λ text. string_bytes text ≡ spec.head outcome length) }
{
    let (status, allow) = (outcome.status(), outcome.allow_field());
    format!(in alloc;
        "HTTP/1.1 {status}\r\nContent-Type: application/rdap+json\r\nContent-Length: {length}\r\n{allow}Connection: close\r\n\r\n"
    )
}

/// The answer to a request that finds no object.
pub fn answer_without_object(alloc: Global, outcome: Outcome) -> Result<Vec<u8>, AllocError>
    ensures { IfOk result (λ text. text.items
        ≡ spec.response outcome (spec.fixed_body_of outcome)) }
{
    response(alloc, outcome, outcome.fixed_body())
}
