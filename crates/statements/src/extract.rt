//! Which lines of which account a statement has.
ghost use Rattle.std.specs.Prelude.{◌≡◌, ◌<◌, length, position, option_map, IfSome, Some, None};
ghost use Rattle.statements.specs.Extracts as spec;

use basis::registrar::RegistrarNo;
use basis::text::text_in;
use calendar::Moment;
use policy::Policy;

/// Between which moments: at or after the one, and before the other.
#[derive(Clone, Copy, Debug, PartialEq, Eq)]
pub struct Bounds {
    pub from: Option<Moment>,
    pub to: Option<Moment>,
}

/// The lines of a registrar's account that were recorded within some bounds.
#[derive(Clone, Copy, Debug, PartialEq, Eq)]
pub struct Extract {
    pub registrar: RegistrarNo,
    pub bounds: Bounds,
}

/// The registrar whose account is asked for, by what follows `/statement/` in a target.
pub fn account_asked(policy: &Policy, text: &[u8]) -> Option<RegistrarNo>
    ensures { result ≡ spec.account_asked policy.now text.now }
{
    registrar_in(policy, front_of(text, b'?'))
}

/// The bounds that are asked for, by the same.
pub fn bounds_asked(text: &[u8]) -> Option<Bounds>
    ensures { result ≡ spec.bounds_asked text.now }
{
    match behind(text, b'?') {
        Some(query) => bounds_in(query),
        None => Some(NO_BOUNDS),
    }
}

const NO_BOUNDS: Bounds = Bounds {
    from: None,
    to: None,
};

// ---- bounds

fn bounds_in(query: &[u8]) -> Option<Bounds>
    ensures { result ≡ spec.bounds_in (Some query.now) }
{
    let bounds = NO_BOUNDS.with_parameter(front_of(query, b'&'))?;
    match behind(query, b'&') {
        Some(second) => bounds.with_parameter(second),
        None => Some(bounds),
    }
}

impl Bounds {
    /// With the bound that a parameter gives. Each is given once.
    fn with_parameter(self, text: &[u8]) -> Option<Bounds>
        ensures { result ≡ spec.with_parameter text.now self }
    {
        if let Some(from) = after(b"from=", text) {
            return self.with_from(moment_in(from)?);
        }
        let to = after(b"to=", text)?;
        self.with_to(moment_in(to)?)
    }

    fn with_from(self, moment: Moment) -> Option<Bounds>
        ensures { result ≡ spec.with_from (Some moment) self }
    {
        if self.from.is_some() {
            return None;
        }
        Some(Bounds {
            from: Some(moment),
            to: self.to,
        })
    }

    fn with_to(self, moment: Moment) -> Option<Bounds>
        ensures { result ≡ spec.with_to (Some moment) self }
    {
        if self.to.is_some() {
            return None;
        }
        Some(Bounds {
            from: self.from,
            to: Some(moment),
        })
    }
}

// ---- pieces of a target

/// The first place of a byte.
fn place_of(text: &[u8], byte: u8) -> Option<usize>
    ensures value { result ≡ position (spec.is_byte byte) text.now }
    ensures bound { IfSome result (λ at. at < length text.now) }
{
    text.iter().position(|other| *other == byte)
}

/// The part before the first such byte, or all.
fn front_of(text: &[u8], byte: u8) -> &[u8]
    ensures { result.now ≡ spec.front_of text.now byte }
{
    match place_of(text, byte) {
        Some(at) => &text[..at],
        None => text,
    }
}

/// The part after it, if there is one.
fn behind(text: &[u8], byte: u8) -> Option<&[u8]>
    ensures { option_map (λ rest. rest.now) result ≡ spec.behind text.now byte }
{
    match place_of(text, byte) {
        Some(at) => Some(&text[at + 1..]),
        None => None,
    }
}

/// What follows a beginning.
pub fn after<'t>(front: &[u8], text: &'t [u8]) -> Option<&'t [u8]>
    ensures { option_map (λ rest. rest.now) result ≡ spec.after front.now text.now }
{
    let size = front.len();
    if text.len() < size || &text[..size] != front {
        return None;
    }
    Some(&text[size..])
}

/// The moment whose text the bytes are.
fn moment_in(bytes: &[u8]) -> Option<Moment>
    ensures { result ≡ spec.moment_from_text bytes.now }
{
    match text_in(bytes) {
        Some(text) => Moment::read(text),
        None => None,
    }
}

/// The registrar whose id the bytes are.
fn registrar_in(policy: &Policy, bytes: &[u8]) -> Option<RegistrarNo>
    ensures { result ≡ spec.registrar_from_text policy.now bytes.now }
{
    match text_in(bytes) {
        Some(text) => policy.find(text),
        None => None,
    }
}
