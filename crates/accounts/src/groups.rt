//! Lines by the domains that they are for.
ghost use Rattle.std.specs.Prelude.{◌≡◌, ◌<◌, ◌++◌, ◌∷◌, [], length, true, false, IfOk, IfSome, OnOk, OnErr};
ghost use Rattle.std.specs.List.{list_any, position};
ghost use Rattle.basis.specs.Bag.{add, same, taken};
ghost use Rattle.accounts.specs.{Groups.{IsGrouped, all_lines, bag_in, lines_at}, Lines.in_order};
ghost use Rattle.accounts.specs.Lines as spec;

use crate::line::{Line, LineChange, LineSwap, object_rank};
use objects::Roid;
use std::alloc::{AllocError, Global};
use std::collections::BTreeMap;
use std::marker::Model;

/// Lines in an order that says nothing: one that replaces another comes last.
#[derive(Drop)]
pub(crate) struct Group {
    lines: Vec<Line>,
}

impl Model for Group {
    ghost use Rattle.std.specs.Prelude.{List};
    ghost use Rattle.accounts.specs.declared.line.Line.{Line};

    ghost Value = { List Line };

    ghost view = { λ g. g.lines.items };
}

impl Clone for Group {
    ghost is_clone = { λ group copy. copy ≡ group };

    fn clone(&self) -> Result<Group, AllocError> {
        Ok(Group {
            lines: self.lines.clone()?,
        })
    }
}

impl Group {
    fn new(alloc: Global) -> Group
        ensures { result ≡ [] }
    {
        Group {
            lines: Vec::new(alloc),
        }
    }

    fn push(&mut self, line: Line) -> Result<(), AllocError>
        ensures ok { OnOk result (self.new ≡ self.old ++ line ∷ []) }
        ensures err { OnErr result (self.new ≡ self.old) }
    {
        // Names a field of the line for the borrow checker.
        let line = Line {
            started: line.started,
            ..line
        };
        self.lines.push(line)?;
        Ok(())
    }

    /// Takes a line out, and gives whether it was there.
    fn take(&mut self, line: &Line) -> bool
        ensures taken { self.new ≡ taken in_order line.now self.old }
        ensures there { result ≡ list_any (same in_order line.now) self.old }
    {
        match place_of(&self.lines, line) {
            None => false,
            Some(at) => {
                self.lines.remove(at);
                true
            }
        }
    }
}

/// The index of a line.
pub(crate) fn place_of(lines: &[Line], line: &Line) -> Option<usize>
    ensures value { result ≡ position (spec.is_line line.now) lines.now }
    ensures bound { IfSome result (λ at. at < length lines.now) }
{
    lines.iter().position(|it| line.is(it))
}

/// The lines that a change makes others of, each with what it makes of it.
pub(crate) fn swaps_of<C: LineChange>(
    alloc: Global,
    lines: &[Line],
    change: &C,
) -> Result<Vec<LineSwap>, AllocError>
    ensures { IfOk result (λ swaps. swaps.items ≡ spec.swaps_of (C.changed change.now) lines.now) }
{
    let mut swaps = Vec::new(alloc);
    for line in lines {
        let to = change.changed(*line);
        if !to.is(line) {
            swaps.push(LineSwap { from: *line, to })?;
        }
    }
    Ok(swaps)
}

/// The key of a domain's lines, and of those of none.
pub(crate) fn key_of(roid: &Option<Roid>) -> [u64; 3]
    ensures { result ≡ spec.roid_numbers roid.now }
{
    match roid {
        None => [0, 0, 0],
        Some(roid) => [
            1 + u64::from(object_rank(roid.kind)),
            u64::from(roid.creator.place()),
            roid.serial,
        ],
    }
}

/// The lines of the group with this key.
pub(crate) fn lines_at(groups: &BTreeMap<[u64; 3], Group>, key: [u64; 3]) -> &[Line]
    ensures { result.now ≡ lines_at key groups.now.entries }
{
    match groups.get(&key) {
        Some(group) => &group.lines,
        None => &[],
    }
}

/// The lines of all groups, one group after another.
pub(crate) fn joined(
    alloc: Global,
    groups: &BTreeMap<[u64; 3], Group>,
) -> Result<Vec<Line>, AllocError>
    ensures { IfOk result (λ lines. lines.items ≡ all_lines groups.now.entries) }
{
    let mut lines = Vec::new(alloc);
    for (_, group) in groups.iter() {
        lines.extend_from_slice(&group.lines)?;
    }
    Ok(lines)
}

/// Puts a line into the group of its domain.
pub(crate) fn put(
    alloc: Global,
    groups: &mut BTreeMap<[u64; 3], Group>,
    line: Line,
) -> Result<(), AllocError>
    requires { IsGrouped groups.old.entries }
    ensures grouped { IsGrouped groups.new.entries }
    ensures ok { OnOk result (bag_in groups.new.entries ≡ add in_order line
        (bag_in groups.old.entries)) }
    ensures err { OnErr result (bag_in groups.new.entries ≡ bag_in groups.old.entries) }
{
    let key = key_of(&line.roid);
    if let Some(group) = groups.get_mut(&key) {
        return group.push(line);
    }
    let mut group = Group::new(alloc);
    group.push(line)?;
    groups.insert(key, group)?;
    Ok(())
}

/// Takes a line out, if it is there, and gives whether it was.
pub(crate) fn take_out(groups: &mut BTreeMap<[u64; 3], Group>, line: &Line) -> bool
    requires { IsGrouped groups.old.entries }
    ensures grouped { IsGrouped groups.new.entries }
    ensures taken { bag_in groups.new.entries ≡ taken in_order line.now (bag_in groups.old.entries) }
    ensures found { result ≡ true
        → bag_in groups.old.entries ≡ add in_order line.now (bag_in groups.new.entries) }
    ensures missed { result ≡ false → bag_in groups.new.entries ≡ bag_in groups.old.entries }
{
    let Some(group) = groups.get_mut(&key_of(&line.roid)) else {
        return false;
    };
    group.take(line)
}
