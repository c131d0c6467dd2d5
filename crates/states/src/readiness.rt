//! What is kept, before anything is asked of it.

/// Whether there is a book in what keeps it.
#[derive(Clone, Copy, Debug, PartialEq, Eq, Drop)]
pub enum Ready {
    /// Nothing is in it.
    Empty,
    /// A book is in it that was opened before.
    Used,
    /// What is in it is no book of this program, or one of another form.
    Other,
}
