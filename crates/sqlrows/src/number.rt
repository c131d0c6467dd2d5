//! Whole numbers of rows.

use sqlite::types::{ToSql, ValueRef};
use std::marker::Model;

/// A whole number, by which rows are looked for: a row's own number, a moment, a count.
#[derive(Clone, Copy, Drop)]
pub struct Number {
    value: i64,
}

impl Model for Number {
    ghost use Rattle.std.specs.Prelude.{ℤ};

    ghost Value = { ℤ };

    ghost view = { λ n. n.value };

    ghost inverse = { λ n. record { value = n } };
}

impl Number {
    ghost use Rattle.std.specs.Prelude.{◌≡◌};

    pub fn new(value: i64) -> Number
        ensures { result ≡ value }
    {
        Number { value }
    }
}

impl<'a> ToSql<'a> for Number {
    ghost use Rattle.sqlite_value.specs.declared.value.Value.TheVariants.{Int};

    ghost to_sql = { Int };

    fn to_sql(self) -> ValueRef<'a> {
        ValueRef::Int(self.value)
    }
}
