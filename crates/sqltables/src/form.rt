//! What a database is to a store of rows.

use states::Ready;

/// What a database is to a store of rows.
#[derive(Clone, Copy, Debug, PartialEq, Eq, Drop)]
pub enum Form {
    /// Nothing was made in it yet.
    Unused,
    /// The open transaction made the eleven tables.
    Making,
    /// It has the eleven tables.
    Made,
    /// It is something else's.
    Other,
}

impl Form {
    ghost use Rattle.std.specs.Prelude.{◌≡◌};
    ghost use Rattle.sqltables.specs.inner.Stored.{committed, has_rows, readiness_of, undone};

    /// Whether a book is in it that was kept before.
    pub fn readiness(self) -> Ready
        ensures { result ≡ readiness_of self }
    {
        match self {
            Form::Unused | Form::Making => Ready::Empty,
            Form::Made => Ready::Used,
            Form::Other => Ready::Other,
        }
    }

    /// Whether the eleven tables are there.
    pub fn has_rows(self) -> bool
        ensures { result ≡ has_rows self }
    {
        matches!(self, Form::Making | Form::Made)
    }

    /// What it is once the open transaction is undone.
    pub fn undone(self) -> Form
        ensures { result ≡ undone self }
    {
        match self {
            Form::Making => Form::Unused,
            form => form,
        }
    }

    /// What it is once the open transaction is committed.
    pub fn committed(self) -> Form
        ensures { result ≡ committed self }
    {
        match self {
            Form::Making => Form::Made,
            form => form,
        }
    }
}
