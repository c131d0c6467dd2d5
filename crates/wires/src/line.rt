//! A line of the log as it is made, of `key=value` with spaces between.
ghost use Rattle.std.specs.Prelude.{◌≡◌, ◌<◌, ◌++◌, ◌∷◌, [], IfOk, OnOk, codes, string_bytes};
ghost use Rattle.wires.specs.inner.Log as spec;

use crate::progress::front_of;
use itoa::{Buffer, Integer};
use std::alloc::{AllocError, Global};

/// The most bytes of a text that a client sent.
const MOST_SENT: usize = 255;

/// A line that isn't ended yet.
#[derive(Drop)]
pub(crate) struct Line {
    bytes: Vec<u8>,
}

impl Line {
    /// A line of a moment, in the memory of an earlier line.
    pub fn at(memory: Vec<u8>, moment: &[u8]) -> Result<Line, AllocError>
        ensures { IfOk result (λ line. line.bytes.items ≡ codes "at=" ++ moment.now) }
    {
        let mut bytes = memory;
        bytes.clear();
        bytes.extend_from_slice(b"at=")?;
        bytes.extend_from_slice(moment)?;
        Ok(Line { bytes })
    }

    /// Adds a word of the program's own.
    pub fn word(&mut self, key: &str, word: &str) -> Result<(), AllocError>
        ensures { OnOk result (self.new.bytes.items ≡ self.old.bytes.items ++ key.now ++ word.now) }
    {
        self.bytes.extend_from_slice(key.as_bytes())?;
        self.bytes.extend_from_slice(word.as_bytes())
    }

    /// Adds a number.
    pub fn number<N: Integer>(&mut self, key: &str, number: N) -> Result<(), AllocError>
        ensures { OnOk result (self.new.bytes.items ≡ self.old.bytes.items ++ key.now ++ N.text number) }
    {
        let mut buffer = Buffer::new();
        self.word(key, buffer.format(number))
    }

    /// Adds a text that a client sent, of letters, digits and few signs, with a question mark for others.
    pub fn sent(&mut self, key: &str, text: &[u8]) -> Result<(), AllocError>
        ensures { OnOk result (self.new.bytes.items ≡ self.old.bytes.items ++ key.now ++ spec.sent_of text.now) }
    {
        if text.is_empty() {
            return self.word(key, "-");
        }
        self.bytes.extend_from_slice(key.as_bytes())?;
        let front = front_of(text, MOST_SENT);
        for byte in front {
            self.bytes.push(plain_of(*byte))?;
        }
        Ok(())
    }

    /// The line with its end.
    pub fn ended(&mut self) -> Result<&[u8], AllocError>
        ensures { IfOk result (λ line. line.now ≡ self.old.bytes.items ++ 10 ∷ []) }
    {
        self.bytes.push(b'\n')?;
        Ok(&self.bytes)
    }

    /// The memory that it was made in.
    pub fn into_memory(self) -> Vec<u8> {
        self.bytes
    }
}

/// The same text as a string.
pub(crate) fn plain(alloc: Global, text: &[u8]) -> Result<String, AllocError>
    ensures { IfOk result (λ plain. string_bytes plain ≡ spec.sent_of text.now) }
{
    if text.is_empty() {
        return String::from_str(alloc, "-");
    }
    let mut plain = String::new(alloc);
    let front = front_of(text, MOST_SENT);
    for byte in front {
        plain.push(char::from(plain_of(*byte)))?;
    }
    Ok(plain)
}

/// A byte that a client sent, as a line has it.
fn plain_of(byte: u8) -> u8
    ensures plain { result ≡ spec.plain_of byte }
    ensures ascii { result < 128 }
{
    match byte {
        b'-' | b'.' | b'/' | b':' | b'_' => byte,
        _ if byte.is_ascii_alphanumeric() => byte,
        _ => b'?',
    }
}
