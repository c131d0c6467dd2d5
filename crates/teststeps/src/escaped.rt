//! Texts of bytes, as a line has them. After `~` comes
//!
//! - `r`, `n`, `0` or `~`: CR, a line feed, a zero byte or `~` itself,
//! - `x` and two digits: the byte of that hexadecimal number,
//! - `N(`: what follows up to `~)`, N times, and `A-B(`: once for each number from A to B, which `~#` prints.

use anyhow::{Context, Result, bail};
use std::alloc::Global;
use std::str;

/// The greatest number of times.
const MOST: usize = 100_000;

/// Adds the bytes that a text means.
pub fn add_bytes(alloc: Global, bytes: &mut Vec<u8>, text: &str) -> Result<()> {
    if !text.contains('~') {
        bytes.extend_from_slice(text.as_bytes())?;
        return Ok(());
    }
    let text = repeated(alloc, text)?;
    let mut is_plain = true;
    for part in text.split('~') {
        if is_plain {
            bytes.extend_from_slice(part.as_bytes())?;
            is_plain = false;
        } else if part.is_empty() {
            bytes.push(b'~')?;
            is_plain = true;
        } else {
            add_escaped(bytes, part.as_bytes())?;
        }
    }
    Ok(())
}

/// Adds what comes after `~`.
fn add_escaped(bytes: &mut Vec<u8>, text: &[u8]) -> Result<()> {
    let (first, others) = text.split_first().context("nothing behind ~")?;
    let (byte, others) = match *first {
        b'r' => (b'\r', others),
        b'n' => (b'\n', others),
        b'0' => (0, others),
        b'x' => hexadecimal(others)?,
        _ => bail!("no escape"),
    };
    bytes.push(byte)?;
    bytes.extend_from_slice(others)?;
    Ok(())
}

/// The byte of two digits, and what follows.
fn hexadecimal(text: &[u8]) -> Result<(u8, &[u8])> {
    if text.len() < 2 {
        bail!("fewer than two digits behind ~x");
    }
    let digits = str::from_utf8(&text[..2]).context("no digits behind ~x")?;
    let byte = u8::from_str_radix(digits, 16).context("no digits behind ~x")?;
    Ok((byte, &text[2..]))
}

/// A text with what is to be repeated as often as it is.
fn repeated(alloc: Global, text: &str) -> Result<String> {
    let mut expanded = String::new(alloc);
    let Some((pieces, last)) = text.rsplit_once("~)") else {
        expanded.push_str(text)?;
        return Ok(expanded);
    };
    for piece in pieces.split("~)") {
        add_piece(alloc, &mut expanded, piece)?;
    }
    expanded.push_str(last)?;
    Ok(expanded)
}

/// Adds what comes before a part, and the part as often as it is.
fn add_piece(alloc: Global, expanded: &mut String, piece: &str) -> Result<()> {
    let (front, part) = piece.rsplit_once('(').context("nothing begins before ~)")?;
    let (front, times) = front.rsplit_once('~').context("no ~ before a parenthesis")?;
    expanded.push_str(front)?;
    let (first, last) = range_of(times)?;
    let is_numbered = part.contains("~#");
    for number in first..=last {
        if is_numbered {
            let numeral = format!(in alloc; "{number}")?;
            expanded.push_str(part.replace(alloc, "~#", numeral.as_str())?.as_str())?;
        } else {
            expanded.push_str(part)?;
        }
    }
    Ok(())
}

/// The numbers of `A-B`, or those from 1 to N of `N`.
pub fn range_of(text: &str) -> Result<(usize, usize)> {
    let (first, last) = match text.split_once('-') {
        Some((first, last)) => (first.parse::<usize>()?, last.parse::<usize>()?),
        None => (1, text.parse::<usize>()?),
    };
    if last > MOST {
        bail!("more than {MOST} times");
    }
    Ok((first, last))
}
