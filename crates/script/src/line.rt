//! A line of a script: `MOMENT CALLER JSON`, with single blanks.
ghost use Rattle.std.specs.Prelude.{◌≡◌, ℕ, IfSome, IfNone, Some, None, option_map};
ghost use Rattle.std.specs.List.{position};
ghost use Rattle.calendar.specs.{Moment.IsMoment, Text.moment_text};
ghost use Rattle.script.specs.Lines.{Asked, IsKnown, IsLine, asked_by_line, is_blank, registrar_of, sender_in, sender_named};
ghost use Rattle.script.specs.Lines as spec;

use basis::registrar::RegistrarNo;
use basis::text::text_in;
use calendar::Moment;
use policy::Policy;

/// What names the operator in place of a registrar's id. No registrar has it as its id.
const OPERATOR: &str = "operator";

/// Who sends a line's payload.
#[derive(Clone, Copy)]
pub enum Sender {
    /// A registrar, taken as logged in.
    Registrar(RegistrarNo),
    Operator,
}

impl Sender {
    fn read(policy: &Policy, text: &str) -> Option<Sender>
        ensures sender { result ≡ sender_named policy.now text.now }
        ensures known { IfSome result (IsKnown policy.now) }
    {
        if text == OPERATOR {
            return Some(Sender::Operator);
        }
        Some(Sender::Registrar(policy.find(text)?))
    }

    fn in_bytes(policy: &Policy, bytes: &[u8]) -> Option<Sender>
        ensures sender { result ≡ sender_in policy.now bytes.now }
        ensures known { IfSome result (IsKnown policy.now) }
    {
        Sender::read(policy, text_in(bytes)?)
    }

    /// The registrar, or `None` of the operator.
    pub fn registrar(self) -> Option<RegistrarNo>
        ensures { result ≡ registrar_of self }
    {
        match self {
            Sender::Registrar(registrar) => Some(registrar),
            Sender::Operator => None,
        }
    }
}

/// What a line asks: somebody sends a payload at a moment.
#[derive(Clone, Copy)]
pub struct Line<'a> {
    pub moment: Moment,
    pub sender: Sender,
    pub payload: &'a [u8],
}

impl<'a> Line<'a> {
    /// Reads a line without its end.
    pub fn read(policy: &Policy, text: &'a [u8]) -> Option<Line<'a>>
        ensures line { IfSome result (λ line. IsLine policy.now text.now (asked_by_line line)) }
        ensures none { IfNone result ((asked : Asked) → IsLine policy.now text.now asked → ⊥) }
        ensures known { IfSome result (λ line. IsKnown policy.now line.sender) }
    {
        let (moment, rest) = cut(text)?;
        let (caller, payload) = cut(rest)?;
        let moment = moment_in(moment)?;
        let sender = Sender::in_bytes(policy, caller)?;
        Some(Line {
            moment,
            sender,
            payload,
        })
    }
}

/// The moment whose text it is.
fn moment_of(text: &str) -> Option<Moment>
    ensures found { IfSome result (λ m. IsMoment m × (text.now ≡ moment_text m)) }
    ensures only { (m : ℕ) → IsMoment m → text.now ≡ moment_text m → result ≡ Some m }
{
    let moment = Moment::read(text)?;
    let _secs = moment.secs();
    Some(moment)
}

/// The moment whose text the bytes are.
fn moment_in(bytes: &[u8]) -> Option<Moment>
    ensures found { IfSome result (λ m. IsMoment m × (bytes.now ≡ moment_text m)) }
    ensures only { (m : ℕ) → IsMoment m → bytes.now ≡ moment_text m → result ≡ Some m }
{
    match text_in(bytes) {
        Some(text) => moment_of(text),
        None => None,
    }
}

/// The place of the first blank.
fn blank_in(text: &[u8]) -> Option<usize>
    ensures { result ≡ position is_blank text.now }
{
    text.iter().position(|byte| *byte == b' ')
}

/// The bytes before the first blank, and those after it.
fn cut(text: &[u8]) -> Option<(&[u8], &[u8])>
    ensures { option_map (λ parts. (parts.0.now, parts.1.now)) result ≡ spec.cut text.now }
{
    let blank = blank_in(text)?;
    Some((&text[..blank], &text[blank + 1..]))
}
