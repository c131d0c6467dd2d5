//! The lines of a file, and its sections.

use anyhow::{Context, Result, bail};
use std::alloc::Global;
use std::fs;
use std::rt::Files;

/// A line: its number, counted from 1, its mark, and what follows.
#[derive(Clone, Copy)]
pub struct Line<'a> {
    pub number: usize,
    pub mark: &'a str,
    pub text: &'a str,
}

/// The lines of a file, but for those that are empty or begin with `#`.
pub fn lines_of(alloc: Global, text: &str) -> Result<Vec<Line<'_>>> {
    let mut lines = Vec::new(alloc);
    let mut number = 0usize;
    for line in text.split('\n') {
        number = number.saturating_add(1);
        if !line.is_empty() && !line.starts_with('#') {
            let (mark, text) = cut(line);
            lines.push(Line { number, mark, text })?;
        }
    }
    Ok(lines)
}

/// The mark of a line, and what follows.
fn cut(line: &str) -> (&str, &str) {
    let is_bytes = line.starts_with('<') || line.starts_with('>');
    let end = if is_bytes { " " } else { ": " };
    match line.split_once(end) {
        Some(parts) => parts,
        None => (line.strip_suffix(":").unwrap_or(line), ""),
    }
}

/// Whether a mark is one of these, between which bars stand.
pub fn is_among(mark: &str, marks: &str) -> bool {
    marks.split('|').any(|it| it == mark)
}

/// Refuses lines of any other mark.
pub fn only(lines: &[Line<'_>], marks: &str) -> Result<()> {
    for line in lines {
        if !is_among(line.mark, marks) {
            bail!("line {}: no such mark", line.number);
        }
    }
    Ok(())
}

/// Those of these lines before the first of a mark.
pub fn up_to<'l, 'a>(lines: &'l [Line<'a>], mark: &str) -> &'l [Line<'a>] {
    match lines.iter().position(|line| line.mark == mark) {
        Some(end) => &lines[..end],
        None => lines,
    }
}

/// What the first line of a mark has.
pub fn text_of<'a>(lines: &[Line<'a>], mark: &str) -> Option<&'a str> {
    for line in lines {
        if line.mark == mark {
            return Some(line.text);
        }
    }
    None
}

/// What the lines of a mark have, with a line feed after each.
pub fn script_of(alloc: Global, lines: &[Line<'_>], mark: &str) -> Result<Vec<u8>> {
    let mut script = Vec::new(alloc);
    for line in lines {
        if line.mark == mark {
            script.extend_from_slice(line.text.as_bytes())?;
            script.push(b'\n')?;
        }
    }
    Ok(script)
}

/// A section of a file: its name, its lines, and those before the first section.
#[derive(Clone, Copy)]
pub struct Section<'a> {
    pub name: &'a str,
    pub common: &'a [Line<'a>],
    pub lines: &'a [Line<'a>],
}

/// The sections of a file, each of which begins with a line of this mark.
pub fn sections_of<'a>(
    alloc: Global,
    lines: &'a [Line<'a>],
    mark: &str,
) -> Result<Vec<Section<'a>>> {
    let common = up_to(lines, mark);
    let mut sections = Vec::new(alloc);
    for (index, line) in lines.iter().enumerate() {
        if line.mark == mark {
            let (name, lines) = (line.text, up_to(&lines[index + 1..], mark));
            sections.push(Section {
                name,
                common,
                lines,
            })?;
        }
    }
    Ok(sections)
}

/// The bytes of a file in the folder.
pub fn read(rt: &(impl Files + AllocGlobal), name: &str) -> Result<Vec<u8>> {
    fs::read(rt, name).context(format_args!("{name} can't be read"))
}

/// The bytes of the file with the policy, which one of these lines names.
pub fn policy_of(rt: &(impl Files + AllocGlobal), lines: &[Line<'_>]) -> Result<Vec<u8>> {
    read(rt, text_of(lines, "policy").context("no policy")?)
}
