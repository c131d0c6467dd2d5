//! The texts of IPv6 addresses (RFC 4291, 2.2).
ghost use Rattle.std.specs.Prelude.{◌≡◌, ◌<◌, ◌∷◌, [], IfOk, map, string_bytes};
ghost use Rattle.std.specs.{Char.is_ascii_hexdigit, List.list_all, Option.option_map};
ghost use Rattle.names.specs.Ipv6 as spec;
ghost use Rattle.names.specs.Reading.{Gives};

use crate::NameFault;
use basis::text::Text;
use std::alloc::{AllocError, Global};

const GROUPS: usize = 8;

fn digit(byte: u8) -> u16
    ensures value { result ≡ spec.digit_of byte }
    ensures bound { result < 16 }
{
    match byte {
        b'0'..=b'9' => u16::from(byte - b'0'),
        b'a'..=b'f' => u16::from(byte - b'a') + 10,
        b'A'..=b'F' => u16::from(byte - b'A') + 10,
        _ => 0,
    }
}

fn pair(high: u8, low: u8) -> u16
    ensures value { result ≡ spec.pair_of high low }
    ensures bound { result < 256 }
{
    digit(high) * 16 + digit(low)
}

/// The value of a group of up to four hexadecimal digits.
fn group(text: &[u8]) -> u16
    ensures { result ≡ spec.group_of text.now }
{
    match text {
        [a] => digit(*a),
        [a, b] => pair(*a, *b),
        [a, b, c] => digit(*a) * 256 + pair(*b, *c),
        [a, b, c, d] => pair(*a, *b) * 256 + pair(*c, *d),
        _ => 0,
    }
}

fn has_hex_digits(text: &[u8]) -> bool
    ensures { result ≡ list_all is_ascii_hexdigit text.now }
{
    text.iter().all(|byte| byte.is_ascii_hexdigit())
}

fn is_group(text: &[u8]) -> bool
    ensures { result ≡ spec.is_group text.now }
{
    !text.is_empty() && text.len() <= 4 && has_hex_digits(text)
}

fn are_groups(text: &[u8]) -> bool
    ensures { result ≡ list_all spec.is_group (spec.parts_of text.now) }
{
    text.split(|byte| *byte == b':').all(|part| is_group(part))
}

fn values(alloc: Global, text: &[u8]) -> Result<Vec<u16>, AllocError>
    ensures { IfOk result (λ groups. groups.items ≡ map spec.group_of (spec.parts_of text.now)) }
{
    text.split(|byte| *byte == b':')
        .map(|part| group(part))
        .collect(alloc)
}

/// Groups with colons between.
#[tactic(auto, unfolding(crate::specs::Ipv6::groups_of))]
fn groups(alloc: Global, text: &str) -> Result<Vec<u16>, NameFault>
    ensures { Gives (λ groups. groups.items) result (spec.groups_of text.now) }
{
    if !are_groups(text.as_bytes()) {
        return Err(NameFault::Syntax);
    }
    Ok(values(alloc, text.as_bytes())?)
}

/// The groups on one side of a `::`.
#[tactic(auto, unfolding(crate::specs::Ipv6::side_of))]
fn side(alloc: Global, text: &str) -> Result<Vec<u16>, NameFault>
    ensures { Gives (λ groups. groups.items) result (spec.side_of text.now) }
{
    if text.is_empty() {
        return Ok(Vec::new(alloc));
    }
    groups(alloc, text)
}

/// The parts before and after the first `::`.
fn cut_at_gap(text: &str) -> Option<(&str, &str)>
    ensures { option_map (λ sides. (sides.0.now, sides.1.now)) result ≡ spec.cut_at_gap text.now }
{
    text.split_once("::")
}

/// The groups with zeros in place of a `::` between them.
fn with_zeros(alloc: Global, front: &[u16], back: &[u16]) -> Result<Vec<u16>, AllocError>
    ensures { IfOk result (λ groups. groups.items ≡ spec.with_zeros front.now back.now) }
{
    let zeros = GROUPS.saturating_sub(front.len().saturating_add(back.len()));
    let gap = vec![in alloc; 0u16; zeros.max(1)]?;
    let mut groups = Vec::new(alloc);
    groups.extend_from_slice(front)?;
    groups.extend_from_slice(&gap)?;
    groups.extend_from_slice(back)?;
    Ok(groups)
}

/// The groups of an address.
#[tactic(auto, unfolding(crate::specs::Ipv6::all_groups_of))]
fn all_groups(alloc: Global, text: &str) -> Result<Vec<u16>, NameFault>
    ensures { Gives (λ groups. groups.items) result (spec.all_groups_of text.now) }
{
    let Some((front, back)) = cut_at_gap(text) else {
        return groups(alloc, text);
    };
    let front = side(alloc, front)?;
    let back = side(alloc, back)?;
    Ok(with_zeros(alloc, &front, &back)?)
}

/// The text of four groups, in lower case without leading zeros.
fn four_groups(alloc: Global, a: u16, b: u16, c: u16, d: u16) -> Result<String, AllocError>
    ensures { IfOk result (λ text. string_bytes text ≡ spec.joined (a ∷ b ∷ c ∷ d ∷ [])) }
{
    format!(in alloc; "{a:x}:{b:x}:{c:x}:{d:x}")
}

/// The text of eight groups.
#[tactic(auto, unfolding(crate::specs::Ipv6::ipv6_text))]
fn text_of(alloc: Global, groups: &[u16]) -> Result<Text, NameFault>
    ensures { Gives (λ text. text) result (spec.ipv6_text groups.now) }
{
    let [a, b, c, d, e, f, g, h] = groups else {
        return Err(NameFault::Syntax);
    };
    let front = four_groups(alloc, *a, *b, *c, *d)?;
    let back = four_groups(alloc, *e, *f, *g, *h)?;
    Ok(Text::from_string(format!(in alloc; "{front}:{back}")?))
}

/// The canonical text of an IPv6 address.
#[tactic(auto, unfolding(crate::specs::Ipv6::ipv6_of))]
pub(crate) fn ipv6_text(alloc: Global, text: &str) -> Result<Text, NameFault>
    ensures { Gives (λ address. address) result (spec.ipv6_of text.now) }
{
    let groups = all_groups(alloc, text)?;
    text_of(alloc, &groups)
}
