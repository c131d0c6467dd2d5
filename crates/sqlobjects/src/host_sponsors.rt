//! Hosts in the zone are sponsored by whoever sponsors the domain above them.
ghost use Rattle.std.specs.{Prelude.{◌≡◌, ◌||◌, true, is_some}, List.list_all};
ghost use Rattle.sqlcolumns.specs.Transfers as columns;
ghost use Rattle.sqlrows.specs.Meanings.{Changes};
ghost use Rattle.sqlobjects.specs.{Sponsors.IsSponsorSetBelow, inner.Stages.AreHostsMoved};
ghost use Rattle.sqltables.specs.declared.host.HostRow.{HostRow};

use crate::sponsors::domain_sponsor;
use basis::registrar::RegistrarNo;
use basis::text::Text;
use sqlcolumns::{is_same, maybe_registrar_column};
use sqlite::Alter;
use sqltables::{HostRow, RowStore};
use states::BookFault;

/// The accounts that sponsor hosts before and after, if there are such.
#[derive(Clone, Copy, Drop)]
pub(crate) struct Sponsors {
    pub before: Option<i64>,
    pub after: Option<i64>,
}

/// The hosts that lie below a domain, and that nobody sponsors outside the zone, have this registrar as
/// their sponsor, or none, in place of the domain's. Where that is the same nothing is written. Refused
/// is what would leave a row right that was wrong.
pub fn set_sponsor_below<S: Alter>(
    store: &mut RowStore<S>,
    above: &Text,
    after: Option<RegistrarNo>,
) -> Result<(), BookFault>
    requires { store.old.is_open ≡ true }
    ensures { Changes result (IsSponsorSetBelow above.now after) store.old store.new }
{
    store.show_consistent();
    let before = domain_sponsor(store, above.as_str())?;
    let sponsors = Sponsors {
        before,
        after: maybe_registrar_column(after),
    };
    if sponsors.are_same() {
        return Ok(());
    }
    move_hosts(store, above, &sponsors)?;
    store.show_consistent();
    Ok(())
}

impl Sponsors {
    fn are_same(&self) -> bool
        ensures { result ≡ columns.is_same self.now.before self.now.after }
    {
        is_same(self.before, self.after)
    }
}

/// The hosts that take a domain's sponsor have the one that is to come in place of the one before.
fn move_hosts<S: Alter>(
    store: &mut RowStore<S>,
    above: &Text,
    sponsors: &Sponsors,
) -> Result<(), BookFault>
    requires { store.old.is_open ≡ true }
    ensures { Changes result (AreHostsMoved above.now sponsors.now) store.old store.new }
{
    let rows = store.hosts_by_above(above.as_str())?;
    if !had_sponsor(rows.as_slice(), sponsors.before) {
        return Err(BookFault::Store);
    }
    if rows.is_empty() {
        return Ok(());
    }
    store.update_hosts_sponsor(above.as_str(), sponsors.after)
}

/// Whether each of these hosts has this sponsor, unless somebody sponsors it outside the zone.
fn had_sponsor(rows: &[HostRow], sponsor: Option<i64>) -> bool
    ensures { result ≡ list_all (λ (r : HostRow). is_some r.external_sponsor || columns.is_same r.sponsor sponsor)
        rows.now }
{
    rows.iter().all(|row| row.external_sponsor.is_some() || is_same(row.sponsor, sponsor))
}
