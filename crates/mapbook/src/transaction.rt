//! How records in ordered maps are changed, and each change taken back.
ghost use Rattle.std.specs.Prelude.{◌≡◌, true, ◌<◌, [], length, OnOk, OnErr};
ghost use Rattle.books.specs.{Book.unused, Records.FindsIn};
ghost use Rattle.mapbook.specs.Edits.{edited, undone_all};
ghost use Rattle.mapbook.specs.Plain.{IsPlainSettled, LatestUndoes, content_of, at_begin, plain_records, plain_state, without_latest};
ghost use Rattle.model.specs.DueBy.{due_by};
ghost use Rattle.states.specs.States.{Makes, Stays};

use crate::content::Content;
use crate::edit::Edit;
use crate::plain::{Plain, PlainBook};
use basis::list::Seq;
use basis::maps::{NameMap, RegistrarMap};
use books::Kept;
use calendar::Moment;
use lifecycle::Due;
use policy::Policy;
use states::BookFault;
use std::alloc::{AllocError, Global};

/// A book with nothing in it, which was never opened.
pub fn new_book(alloc: Global) -> PlainBook
    ensures { plain_state result ≡ unused }
{
    Kept::over(Plain {
        content: Content {
            alloc,
            contacts: NameMap::new(alloc),
            hosts: NameMap::new(alloc),
            domains: NameMap::new(alloc),
            accounts: RegistrarMap::new(alloc),
            clock: Moment::first(),
            terms: None,
        },
        undo: Seq::new(alloc),
        is_open: false,
        is_used: false,
    })
}

// ---- edits that can be undone

impl Plain {
    /// Undoes what there is to undo, the latest change first.
    pub(crate) fn undo_all(&mut self) -> Result<(), AllocError>
        ensures at_begin { at_begin self.new ≡ at_begin self.old }
        ensures open { self.new.is_open ≡ self.old.is_open }
        ensures used { self.new.is_used ≡ self.old.is_used }
        ensures ok { OnOk result (self.new.undo ≡ []) }
    {
        while !self.undo.is_empty() {
            self.undo_latest()?;
        }
        Ok(())
    }

    /// Undoes the latest edit.
    fn undo_latest(&mut self) -> Result<(), AllocError>
        requires { 0 < length self.old.undo }
        ensures at_begin { at_begin self.new ≡ at_begin self.old }
        ensures open { self.new.is_open ≡ self.old.is_open }
        ensures used { self.new.is_used ≡ self.old.is_used }
        ensures ok { OnOk result (length self.new.undo < length self.old.undo) }
    {
        if let Some(latest) = self.undo.as_slice().last() {
            let copy = latest.copy()?;
            self.content.set(copy)?;
            self.undo.drop_last();
        }
        Ok(())
    }

    /// Keeps what undoes an edit that is to be made.
    fn keep_inverse(&mut self, edit: &Edit) -> Result<(), AllocError>
        ensures content { content_of self.new.content ≡ content_of self.old.content }
        ensures open { self.new.is_open ≡ self.old.is_open }
        ensures used { self.new.is_used ≡ self.old.is_used }
        ensures ok { OnOk result (LatestUndoes edit.now self.old self.new) }
        ensures err { OnErr result (at_begin self.new ≡ at_begin self.old) }
    {
        let inverse = self.content.inverse(edit)?;
        self.undo.push(inverse)?;
        Ok(())
    }

    /// Makes an edit that the latest undoes. Where there is no memory for it, the latest is dropped.
    fn set_kept(&mut self, edit: Edit) -> Result<(), AllocError>
        ensures open { self.new.is_open ≡ self.old.is_open }
        ensures used { self.new.is_used ≡ self.old.is_used }
        ensures ok { OnOk result (content_of self.new.content
            ≡ edited edit (content_of self.old.content)) }
        ensures kept { OnOk result (at_begin self.new
            ≡ undone_all self.old.undo (edited edit (content_of self.old.content))) }
        ensures err { OnErr result (at_begin self.new ≡ undone_all (without_latest self.old.undo)
            (content_of self.old.content)) }
    {
        match self.content.set(edit) {
            Ok(()) => Ok(()),
            Err(error) => {
                self.undo.drop_last();
                Err(error)
            }
        }
    }

    /// Makes an edit that can be undone.
    fn make(&mut self, edit: Edit) -> Result<(), AllocError>
        ensures at_begin { at_begin self.new ≡ at_begin self.old }
        ensures open { self.new.is_open ≡ self.old.is_open }
        ensures used { self.new.is_used ≡ self.old.is_used }
        ensures ok { OnOk result (content_of self.new.content
            ≡ edited edit (content_of self.old.content)) }
    {
        match self.keep_inverse(&edit) {
            Ok(()) => self.set_kept(edit),
            Err(error) => {
                drop(edit);
                Err(error)
            }
        }
    }
}

// ---- calls

impl Plain {
    /// Undoes what was left to undo, so that what is held is the content.
    pub(crate) fn settle(&mut self) -> Result<(), BookFault>
        ensures ok { OnOk result (IsPlainSettled (plain_records self.old) self.new) }
        ensures stays { Stays (plain_records self.old) (plain_records self.new) }
    {
        if self.is_open {
            return Ok(());
        }
        self.undo_all()?;
        Ok(())
    }

    /// Makes an edit in the open transaction.
    pub(crate) fn set(&mut self, edit: Edit) -> Result<(), BookFault>
        requires { self.old.is_open ≡ true }
        ensures { Makes result (edited edit (plain_records self.old).content)
            (plain_records self.old) (plain_records self.new) }
    {
        self.make(edit)?;
        Ok(())
    }

    /// All that is due by a moment, in the order in which it lapses.
    pub(crate) fn all_due(&mut self, moment: Moment, policy: &Policy) -> Result<Seq<Due>, BookFault>
        ensures { FindsIn result (due_by policy.now moment)
            (plain_records self.old) (plain_records self.new) }
    {
        self.settle()?;
        Ok(self.content.due_by(moment, policy)?)
    }
}
