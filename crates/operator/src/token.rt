//! The token that opens the operator's port (RFC 6750).
ghost use Rattle.std.specs.Prelude.{◌≡◌, bytes_eq, IfErr, IfOk};
ghost use Rattle.operator.specs.Requests as spec;
ghost use Rattle.operator.specs.declared.token.TokenFault.TheVariants as faults;

use std::alloc::{AllocError, Global};

/// The fewest bytes of a token.
pub const LEAST_TOKEN: usize = 32;

/// Why a file has no token.
#[derive(Clone, Copy, Debug, PartialEq, Eq)]
pub enum TokenFault {
    /// It is too short.
    Short,
    /// It has a byte that no token has (RFC 6750, 2.1).
    Byte,
    /// There was no memory.
    Memory,
}

impl From<AllocError> for TokenFault {
    ghost from_gives = { λ _ fault. fault ≡ faults.Memory };

    fn from(_: AllocError) -> TokenFault {
        TokenFault::Memory
    }
}

/// What a request says whose sender has the token of a file: the file's bytes, without the line feed at their end.
pub fn credentials_in(alloc: Global, file: &[u8]) -> Result<Vec<u8>, TokenFault>
    ensures ok { IfOk result (λ credentials. spec.IsFit (spec.token_of file.now)
        × (credentials.items ≡ spec.credentials_of (spec.token_of file.now))) }
    ensures err { IfErr result (spec.IsUnfit (spec.token_of file.now)) }
{
    let token = token_in(file);
    if token.len() < LEAST_TOKEN {
        return Err(TokenFault::Short);
    }
    if !is_visible(token) {
        return Err(TokenFault::Byte);
    }
    let mut credentials = Vec::from_slice(alloc, b"Bearer ")?;
    credentials.extend_from_slice(token)?;
    Ok(credentials)
}

/// The bytes without a line feed at their end.
fn token_in(file: &[u8]) -> &[u8]
    ensures { result.now ≡ spec.token_of file.now }
{
    if file.ends_with(b"\n") {
        &file[..file.len() - 1]
    } else {
        file
    }
}

/// Whether each byte is a letter, a digit or a sign.
fn is_visible(token: &[u8]) -> bool
    ensures { result ≡ spec.is_visible_token token.now }
{
    token.iter().all(|byte| byte.is_ascii_graphic())
}

/// Whether two texts are the same, in time that depends on their lengths alone: each byte is looked at, wherever
/// the first difference is.
pub fn is_same(one: &[u8], other: &[u8]) -> bool
    ensures { result ≡ bytes_eq one.now other.now }
{
    if one.len() != other.len() {
        return false;
    }
    let mut is_same = true;
    for at in 0..one.len() {
        is_same &= one[at] == other[at];
    }
    is_same
}
