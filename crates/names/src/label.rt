//! The rule of names, over names in lower-case ASCII.
ghost use Rattle.std.specs.{Prelude.{◌≡◌, ◌≤◌, length}, List.list_all};
ghost use Rattle.names.specs.Labels as spec;

/// The most bytes of a label (RFC 1035, 2.3.4).
const LONGEST_LABEL: usize = 63;

/// The most bytes of a name: RFC 1035, 2.3.4 allows 255 with the length before each label and the
/// empty label at the end, so 253 as a text.
const LONGEST_NAME: usize = 253;

fn is_label_byte(byte: u8) -> bool
    ensures { result ≡ spec.is_label_byte byte }
{
    byte.is_ascii_lowercase() || byte.is_ascii_digit() || byte == b'-'
}

fn has_label_bytes(label: &[u8]) -> bool
    ensures { result ≡ list_all spec.is_label_byte label.now }
{
    label.iter().all(|byte| is_label_byte(*byte))
}

/// Whether places 3 and 4 have hyphens.
fn has_hyphens(label: &[u8]) -> bool
    ensures { result ≡ spec.has_hyphens label.now }
{
    label.len() >= 4 && label[2] == b'-' && label[3] == b'-'
}

fn begins_with_xn(label: &[u8]) -> bool
    requires { 2 ≤ length label.now }
    ensures { result ≡ spec.begins_with_xn label.now }
{
    label[0] == b'x' && label[1] == b'n'
}

/// Whether a label has 1 to 63 lower-case letters, digits and hyphens, no hyphen at either end, and
/// hyphens in places 3 and 4 only after `xn`.
#[tactic(auto, unfolding(crate::specs::Labels::is_label))]
pub fn is_label(label: &[u8]) -> bool
    ensures { result ≡ spec.is_label label.now }
{
    let len = label.len();
    if len == 0 || len > LONGEST_LABEL {
        return false;
    }
    if !has_label_bytes(label) || label[0] == b'-' || label[len - 1] == b'-' {
        return false;
    }
    !has_hyphens(label) || begins_with_xn(label)
}

fn has_labels(name: &[u8]) -> bool
    ensures { result ≡ list_all spec.is_label (spec.labels_of name.now) }
{
    name.split(|byte| *byte == b'.')
        .all(|label| is_label(label))
}

/// Whether a name has at most 253 bytes, and each part between its dots is a label.
#[tactic(auto, unfolding(crate::specs::Labels::is_name))]
pub fn is_name(name: &[u8]) -> bool
    ensures { result ≡ spec.is_name name.now }
{
    name.len() <= LONGEST_NAME && has_labels(name)
}
