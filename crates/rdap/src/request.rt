//! What a request asks for (RFC 9082, 3.1).
ghost use Rattle.std.specs.Prelude.{◌≡◌, ◌<◌, MatchOption, IfOk, IfSome, Some, codes, length, true, false};
ghost use Rattle.std.specs.Str.{bytes_eq};
ghost use Rattle.rdap.specs.Requests as spec;
ghost use Rattle.rdap.specs.Routes.{request_for};

use crate::routes::{Kind, Routes};
use crate::wire::Outcome;
use basis::text::Text;
use http::Method;
use http::method::MethodError;
use std::alloc::{AllocError, Global};
use std::str;

/// What a request asks for. Names and handles are as they were given.
#[derive(Drop)]
pub enum Request {
    Domain(Text),
    Nameserver(Text),
    /// A contact, by letters, digits and hyphens.
    Entity(Text),
    Help,
    /// Nothing that there is, or not in a way that it can be asked for.
    Refused(Outcome),
}

/// What is asked for by a method and a target. Another method than GET is refused before a target that
/// can't be read, and that before a path that isn't there.
#[tactic(auto, unfolding(crate::specs::Requests::request_of))]
pub fn request_of(
    alloc: Global,
    routes: &Routes,
    method: &[u8],
    target: &[u8],
) -> Result<Request, AllocError>
    ensures { IfOk result (λ request. request ≡ spec.request_of method.now target.now) }
{
    if !is_get(alloc, method)? {
        return Ok(Request::Refused(Outcome::MethodNotAllowed));
    }
    match plain_path(path_of(target)) {
        Some(path) => request_at(alloc, routes, path),
        None => Ok(Request::Refused(Outcome::BadRequest)),
    }
}

/// Whether a method is GET (RFC 9110, 9.3.1). Case counts.
fn is_get(alloc: Global, method: &[u8]) -> Result<bool, AllocError>
    ensures { IfOk result (λ is. is ≡ bytes_eq method.now (codes "GET")) }
{
    match Method::from_bytes(alloc, method) {
        Ok(method) => Ok(method == Method::GET),
        Err(MethodError::OutOfMemory) => Err(AllocError),
        Err(MethodError::Invalid) => Ok(false),
    }
}

/// The part before the query.
fn path_of(target: &[u8]) -> &[u8]
    ensures { result.now ≡ spec.path_of target.now }
{
    match query_start(target) {
        Some(end) => &target[..end],
        None => target,
    }
}

/// Where the query begins.
fn query_start(target: &[u8]) -> Option<usize>
    ensures value { result ≡ spec.query_start target.now }
    ensures within { IfSome result (λ start. start < length target.now) }
{
    target.iter().position(|byte| *byte == b'?')
}

fn is_plain(path: &[u8]) -> bool
    ensures { result ≡ spec.is_plain_path path.now }
{
    path.iter()
        .all(|byte| *byte < 127 && *byte != b'#' && *byte != b'%')
}

/// The path as a text, if no byte of it is an escape or past ASCII.
fn plain_path(path: &[u8]) -> Option<&str>
    ensures { MatchOption result (spec.is_plain_path path.now ≡ false) (λ text. (spec.is_plain_path path.now
        ≡ true) × (text.now ≡ path.now)) }
{
    if !is_plain(path) {
        return None;
    }
    match str::from_utf8(path) {
        Ok(text) => Some(text),
        Err(_) => None,
    }
}

/// What a path asks for, by its route.
fn request_at(alloc: Global, routes: &Routes, path: &str) -> Result<Request, AllocError>
    ensures { IfOk result (λ request. request ≡ spec.request_at path.now) }
{
    let Ok(found) = routes.router.at(path) else {
        return Ok(Request::Refused(Outcome::NotFound));
    };
    let name = found.params.get("name").unwrap_or("");
    request_for(alloc, *found.value, name)
}

fn request_for(alloc: Global, kind: Kind, name: &str) -> Result<Request, AllocError>
    ensures { IfOk result (λ request. request ≡ request_for kind name.now) }
{
    match kind {
        Kind::Domain => Ok(Request::Domain(Text::from_str(alloc, name)?)),
        Kind::Nameserver => Ok(Request::Nameserver(Text::from_str(alloc, name)?)),
        Kind::Entity => contact_at(alloc, name),
        Kind::Help => Ok(Request::Help),
    }
}

fn contact_at(alloc: Global, handle: &str) -> Result<Request, AllocError>
    ensures { IfOk result (λ request. request ≡ spec.entity_at (Some handle.now)) }
{
    if is_handle(handle.as_bytes()) {
        Ok(Request::Entity(Text::from_str(alloc, handle)?))
    } else {
        Ok(Request::Refused(Outcome::BadRequest))
    }
}

fn is_handle(handle: &[u8]) -> bool
    ensures { result ≡ spec.is_handle handle.now }
{
    handle
        .iter()
        .all(|byte| byte.is_ascii_alphanumeric() || *byte == b'-')
}
