//! A book in ordered maps.
ghost use Rattle.std.specs.Prelude.{◌≡◌};

use crate::content::Content;
use crate::edit::Edit;
use basis::list::Seq;
use books::{Book, Kept};

/// A book in ordered maps.
pub type PlainBook = Kept<Plain>;

/// Does nothing. It tells a proof that ordered maps never refused anything. As each fault of Store is
/// counted, no call on a book of theirs answers one: it gives up for want of memory alone.
pub fn never_refuses(book: &PlainBook)
    ensures { (⟦<PlainBook as Book>⟧.state book.now).refused ≡ 0 }
{}

/// Records in ordered maps, with what undoes the changes of the open transaction. A change costs a
/// look-up and a copy of what it replaces; nothing is copied when a transaction begins.
#[derive(Drop)]
pub struct Plain {
    pub(crate) content: Content,
    /// What undoes the transaction's changes, the latest last. Where going back finds no memory,
    /// what is still to be undone, which the next call undoes first.
    pub(crate) undo: Seq<Edit>,
    pub(crate) is_open: bool,
    /// Whether a transaction was ever kept: there is a book from then on.
    pub(crate) is_used: bool,
}
