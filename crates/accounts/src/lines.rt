//! The lines of an account as contracts see them: a bag, whatever the order in which they came.
ghost use Rattle.std.specs.{Prelude.{◌≡◌, [], true, IfOk, OnOk, OnErr}, List.{filter, list_any}};
ghost use Rattle.basis.specs.Bag.{add, bag_of, remade, same, taken};
ghost use Rattle.accounts.specs.Lines as spec;
ghost use Rattle.accounts.specs.Lines.{in_order};

use crate::groups::{Group, joined, key_of, lines_at, place_of, put, swaps_of, take_out};
use crate::line::{Line, LineChange, LineSwap};
use objects::Roid;
use std::alloc::{AllocError, Global};
use std::collections::BTreeMap;
use std::marker::Model;

/// No memory holds so many lines.
const TOO_MANY: usize = 1 << 62;

/// A bag of lines, with what they add up to. The lines of a domain are found by a look-up, and no
/// call goes over those of others.
#[derive(Drop)]
pub struct Lines {
    alloc: Global,
    groups: BTreeMap<[u64; 3], Group>,
    count: usize,
    balance: i128,
}

impl Model for Lines {
    ghost use Rattle.std.specs.Prelude.{List};
    ghost use Rattle.accounts.specs.Groups.{IsKept, bag_in};
    ghost use Rattle.accounts.specs.declared.line.Line.{Line};

    ghost Value = { List Line };

    ghost view = { λ l. bag_in l.groups.entries };

    ghost invariant = { λ l. IsKept l.groups.entries l.count l.balance };
}

impl Clone for Lines {
    ghost is_clone = { λ lines copy. copy ≡ lines };

    fn clone(&self) -> Result<Lines, AllocError> {
        Ok(Lines {
            alloc: self.alloc,
            groups: self.groups.clone()?,
            count: self.count,
            balance: self.balance,
        })
    }
}

impl Lines {
    pub fn new(alloc: Global) -> Lines
        ensures { result ≡ [] }
    {
        Lines {
            alloc,
            groups: BTreeMap::new(alloc),
            count: 0,
            balance: 0,
        }
    }

    /// The lines on a domain, in no order that says anything.
    pub fn on(&self, roid: &Roid) -> &[Line]
        ensures { bag_of in_order result.now ≡ filter (spec.is_on roid.now) self.now }
    {
        lines_at(&self.groups, key_of(&Some(*roid)))
    }

    /// All lines, in no order that says anything.
    pub fn all(&self) -> Result<Vec<Line>, AllocError>
        ensures { IfOk result (λ lines. bag_of in_order lines.items ≡ self.now) }
    {
        joined(self.alloc, &self.groups)
    }

    /// Whether a line is there, so that it can be taken out and put back.
    pub fn has(&self, line: &Line) -> bool
        ensures there { result ≡ list_any (same in_order line.now) self.now }
        ensures back { result ≡ true
            → add in_order line.now (taken in_order line.now self.now) ≡ self.now }
    {
        place_of(lines_at(&self.groups, key_of(&line.roid)), line).is_some()
    }

    /// What makes of the lines what the change makes of them, one line for another. It reads those of
    /// the change's domain alone.
    pub fn swaps<C: LineChange>(&self, change: &C) -> Result<Vec<LineSwap>, AllocError>
        ensures { IfOk result (λ swaps. spec.swapped_all swaps.items self.now
            ≡ remade in_order (C.changed change.now) self.now) }
    {
        let lines = lines_at(&self.groups, key_of(&Some(change.domain())));
        swaps_of(self.alloc, lines, change)
    }

    /// Adds a deposit or a charge.
    pub fn add(&mut self, line: Line) -> Result<(), AllocError>
        ensures ok { OnOk result (self.new ≡ add in_order line self.old) }
        ensures err { OnErr result (self.new ≡ self.old) }
    {
        if self.count >= TOO_MANY - 1 {
            return Err(AllocError);
        }
        put(self.alloc, &mut self.groups, line)?;
        self.count += 1;
        self.balance = self.balance.saturating_add(line.amount());
        Ok(())
    }

    /// Takes a line back that was added. It goes over those of the same domain alone.
    pub fn take_back(&mut self, line: &Line)
        ensures { self.new ≡ taken in_order line.now self.old }
    {
        if take_out(&mut self.groups, line) {
            self.count -= 1;
            self.balance = self.balance.saturating_sub(line.amount());
        }
    }

    /// Deposits less charges plus refunds.
    pub fn balance(&self) -> i128
        ensures { result ≡ spec.balance self.now }
    {
        self.balance
    }
}
