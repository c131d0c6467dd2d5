//! Rows that things lead to, one after another.
ghost use Rattle.std.specs.{Prelude.{◌≡◌, ◌++◌, IfOk}, List.flat_map};
ghost use Rattle.states.specs.States.{Finds};

use basis::list::Seq;
use sqlite::Alter;
use sqltables::RowStore;
use states::BookFault;
use std::alloc::{AllocError, Global};

/// A way from a thing to rows.
pub(crate) trait Way {
    ghost use Rattle.std.specs.Prelude.{List};
    ghost use Rattle.sqltables.specs.Content.{Content};
    ghost use Rattle.states.specs.States.{Finds};

    type From;

    type Row: Drop;

    ghost rows: { Self → Content → Self.From → List Self.Row };

    /// The rows to which a thing leads.
    fn rows<S: Alter>(
        &self,
        store: &mut RowStore<S>,
        alloc: Global,
        from: &Self::From,
    ) -> Result<Seq<Self::Row>, BookFault>
        ensures { Finds result (rows self.now store.old.content from.now) store.old store.new };
}

/// The rows to which these lead.
pub(crate) fn each_of<W: Way, S: Alter>(
    store: &mut RowStore<S>,
    alloc: Global,
    way: &W,
    things: &[W::From],
) -> Result<Seq<W::Row>, BookFault>
    ensures { Finds result (flat_map (W.rows way.now store.old.content) things.now) store.old
        store.new }
{
    let mut all = Seq::new(alloc);
    for thing in things {
        let found = way.rows(store, alloc, thing)?;
        all = joined(all, found)?;
    }
    Ok(all)
}

pub(crate) fn joined<R: Drop>(rows: Seq<R>, more: Seq<R>) -> Result<Seq<R>, AllocError>
    ensures { IfOk result (λ all. all ≡ rows ++ more) }
{
    let mut all = rows.into_vec();
    all.append(&mut more.into_vec())?;
    Ok(Seq::from_vec(all))
}
