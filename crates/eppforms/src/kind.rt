//! The kinds of members: a JSON type, a range and a shape.
ghost use Rattle.std.specs.{Prelude.{◌≡◌, ◌<◌, IfSome, length, position}, List.list_all};
ghost use Rattle.serde_json.specs.View.{view};
ghost use Rattle.eppforms.specs.Kind as spec;

use serde_json::Value;

/// The least and the greatest number allowed.
#[derive(Clone, Copy)]
pub struct Limits {
    pub least: u64,
    pub most: u64,
}

impl Limits {
    fn contain(self, number: u64) -> bool
        ensures { result ≡ spec.within self number }
    {
        self.least <= number && number <= self.most
    }
}

/// What a text may be.
#[derive(Clone, Copy)]
pub enum Shape {
    /// Any text. A name, an address and a status have a rule of their own, which is asked where they
    /// are read.
    Free,
    /// No control characters of ASCII.
    Line,
    /// Bytes 33 to 126.
    Printable,
    /// ASCII letters, digits and hyphens.
    Handle,
    /// A country's code: two capitals (RFC 5733, 2.4).
    Country,
    /// A telephone number, as `+49.30123` (RFC 5733, 2.5).
    Voice,
}

impl Shape {
    fn allows(self, byte: u8) -> bool
        ensures { result ≡ spec.byte_fits self byte }
    {
        match self {
            Shape::Line => byte >= 32 && byte != 127,
            Shape::Printable => byte >= 33 && byte <= 126,
            Shape::Handle => byte.is_ascii_alphanumeric() || byte == b'-',
            Shape::Free | Shape::Country | Shape::Voice => true,
        }
    }

    fn all_allowed(self, text: &[u8]) -> bool
        ensures { result ≡ list_all (spec.byte_fits self) text.now }
    {
        text.iter().all(|byte| self.allows(*byte))
    }

    fn fits(self, text: &[u8]) -> bool
        ensures { result ≡ spec.text_fits self text.now }
    {
        match self {
            Shape::Country => is_country(text),
            Shape::Voice => is_voice(text),
            _ => self.all_allowed(text),
        }
    }
}

fn is_country(text: &[u8]) -> bool
    ensures { result ≡ spec.is_country text.now }
{
    match text {
        [a, b] => a.is_ascii_uppercase() && b.is_ascii_uppercase(),
        _ => false,
    }
}

fn is_voice(text: &[u8]) -> bool
    ensures { result ≡ spec.is_voice text.now }
{
    match text {
        [first, rest @ ..] => *first == b'+' && is_dialled(rest),
        [] => false,
    }
}

fn is_dialled(text: &[u8]) -> bool
    ensures { result ≡ spec.is_dialled text.now }
{
    match first_dot(text) {
        Some(dot) => is_number(3, &text[..dot]) && is_number(14, &text[dot + 1..]),
        None => false,
    }
}

fn first_dot(text: &[u8]) -> Option<usize>
    ensures first { result ≡ position spec.is_separator text.now }
    ensures within { IfSome result (λ dot. dot < length text.now) }
{
    text.iter().position(|byte| *byte == b'.')
}

/// Whether a text is one to so many digits.
fn is_number(most: u64, text: &[u8]) -> bool
    ensures { result ≡ spec.is_number most text.now }
{
    let len = Limits { least: 1, most };
    len.contain(text.len() as u64) && are_digits(text)
}

fn are_digits(text: &[u8]) -> bool
    ensures { result ≡ list_all spec.is_digit text.now }
{
    text.iter().all(|byte| byte.is_ascii_digit())
}

/// What a member has to be.
#[derive(Clone, Copy)]
pub enum Kind {
    Text {
        len: Limits,
        shape: Shape,
    },
    Texts {
        count: Limits,
        len: Limits,
        shape: Shape,
    },
    Whole(Limits),
    /// An object, whose members are fields of a place of their own.
    Parts,
}

impl Kind {
    /// Whether the value has the JSON type.
    pub fn has_type(self, value: &Value) -> bool
        ensures { result ≡ spec.has_type self (view value.now) }
    {
        match self {
            Kind::Text { .. } => value.is_string(),
            Kind::Texts { .. } => match value.as_array() {
                Some(items) => all_texts(items),
                None => false,
            },
            Kind::Whole(_) => value.is_number() && !value.is_f64(),
            Kind::Parts => value.is_object(),
        }
    }

    /// Whether the length, the count and the number are allowed.
    pub fn is_in_range(self, value: &Value) -> bool
        ensures { result ≡ spec.in_range self (view value.now) }
    {
        match self {
            Kind::Text { len, .. } => is_within(len, value),
            Kind::Texts { count, len, .. } => match value.as_array() {
                Some(items) => count.contain(items.len() as u64) && all_within(len, items),
                None => false,
            },
            Kind::Whole(limits) => match value.as_u64() {
                Some(number) => limits.contain(number),
                None => false,
            },
            Kind::Parts => true,
        }
    }

    /// Whether each text has the shape.
    pub fn has_shape(self, value: &Value) -> bool
        ensures { result ≡ spec.has_shape self (view value.now) }
    {
        match self {
            Kind::Text { shape, .. } => is_shaped(shape, value),
            Kind::Texts { shape, .. } => match value.as_array() {
                Some(items) => all_shaped(shape, items),
                None => false,
            },
            Kind::Whole(_) | Kind::Parts => true,
        }
    }
}

fn all_texts(items: &[Value]) -> bool
    ensures { result ≡ list_all (λ v. spec.is_string (view v)) items.now }
{
    items.iter().all(|item| item.is_string())
}

fn all_within(len: Limits, items: &[Value]) -> bool
    ensures { result ≡ list_all (λ v. spec.text_within len (view v)) items.now }
{
    items.iter().all(|item| is_within(len, item))
}

fn all_shaped(shape: Shape, items: &[Value]) -> bool
    ensures { result ≡ list_all (λ v. spec.text_shaped shape (view v)) items.now }
{
    items.iter().all(|item| is_shaped(shape, item))
}

fn is_within(len: Limits, value: &Value) -> bool
    ensures { result ≡ spec.text_within len (view value.now) }
{
    match value.as_str() {
        Some(text) => len.contain(text.len() as u64),
        None => false,
    }
}

fn is_shaped(shape: Shape, value: &Value) -> bool
    ensures { result ≡ spec.text_shaped shape (view value.now) }
{
    match value.as_str() {
        Some(text) => shape.fits(text.as_bytes()),
        None => false,
    }
}
