//! The ids of registrars, which are the idents of their accounts.
ghost use Rattle.std.specs.Prelude.{◌≡◌, Some, IfOk};
ghost use Rattle.sqlterms.specs.Terms as spec;

use basis::list::Seq;
use basis::text::Text;
use sqltables::AccountRow;
use states::BookFault;
use std::alloc::Global;

/// Whether it is the ident of an account that has no id; no id begins with #.
fn is_unnamed(ident: &str) -> bool
    ensures { result ≡ spec.is_unnamed ident.now }
{
    match ident.as_bytes() {
        [first, ..] => *first == b'#',
        [] => false,
    }
}

/// The ids of accounts in the order of their numbers; those that have one are refused if they don't
/// have the numbers from 1 on.
pub(crate) fn ids_of(alloc: Global, rows: &[AccountRow]) -> Result<Seq<Text>, BookFault>
    ensures { IfOk result (λ ids. spec.ids_in rows.now ≡ Some ids) }
{
    let mut ids = Seq::new(alloc);
    for row in rows {
        if is_unnamed(row.ident.as_str()) {
            continue;
        }
        if row.id != ids.as_slice().len() as i64 + 1 {
            return Err(BookFault::Store);
        }
        ids.push(row.ident.clone()?)?;
    }
    Ok(ids)
}
