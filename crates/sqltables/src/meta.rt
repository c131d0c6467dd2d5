//! What holds of the whole registry, in one row.
ghost use Rattle.std.specs.Prelude.{◌≡◌, true, map, [], ◌∷◌};
ghost use Rattle.sqltables.specs.inner.Calls.{bound, owned, insert_by, update_where, metas_to, Finds, Makes};
ghost use Rattle.sqltables.specs.Meta.{MetaRow, meta_with_id, metas, meta_shown};

use crate::store::RowStore;
use basis::list::Seq;
use basis::text::Text;
use sqlite::types::{ToSql, ValueRef};
use sqlite::{Alter, Error, Row};
use sqlrows::Record;
use states::BookFault;

/// The tree of the table `meta`.
pub(crate) const TREE: u64 = 0;

const ALL: &str =
    "SELECT id, version, clock, zone, reserved, days_add, days_auto_renew, days_renew, days_transfer, days_redemption, days_restore, days_pending_delete, days_answer, days_lock, price_create, price_renew, price_transfer FROM meta ORDER BY id";

const PUT: &str =
    "INSERT INTO meta (id, version, clock, zone, reserved, days_add, days_auto_renew, days_renew, days_transfer, days_redemption, days_restore, days_pending_delete, days_answer, days_lock, price_create, price_renew, price_transfer) VALUES (?1, ?2, ?3, ?4, ?5, ?6, ?7, ?8, ?9, ?10, ?11, ?12, ?13, ?14, ?15, ?16, ?17) ON CONFLICT (id) DO UPDATE SET version = excluded.version, clock = excluded.clock, zone = excluded.zone, reserved = excluded.reserved, days_add = excluded.days_add, days_auto_renew = excluded.days_auto_renew, days_renew = excluded.days_renew, days_transfer = excluded.days_transfer, days_redemption = excluded.days_redemption, days_restore = excluded.days_restore, days_pending_delete = excluded.days_pending_delete, days_answer = excluded.days_answer, days_lock = excluded.days_lock, price_create = excluded.price_create, price_renew = excluded.price_renew, price_transfer = excluded.price_transfer";

const REPLACE: &str =
    "UPDATE meta SET version = ?2, clock = ?3, zone = ?4, reserved = ?5, days_add = ?6, days_auto_renew = ?7, days_renew = ?8, days_transfer = ?9, days_redemption = ?10, days_restore = ?11, days_pending_delete = ?12, days_answer = ?13, days_lock = ?14, price_create = ?15, price_renew = ?16, price_transfer = ?17 WHERE id = ?1";

/// A row of the table `meta`.
#[derive(Drop)]
pub struct MetaRow {
    pub id: i64,
    pub version: i64,
    pub clock: i64,
    pub zone: Text,
    pub reserved: Text,
    pub days_add: i64,
    pub days_auto_renew: i64,
    pub days_renew: i64,
    pub days_transfer: i64,
    pub days_redemption: i64,
    pub days_restore: i64,
    pub days_pending_delete: i64,
    pub days_answer: i64,
    pub days_lock: i64,
    pub price_create: i64,
    pub price_renew: i64,
    pub price_transfer: i64,
}

impl MetaRow {
    /// The parameters of the statement that puts it.
    fn params(&self) -> [ValueRef<'_>; 17]
        ensures bound { bound result ≡ meta_shown self.now }
        ensures owned { map owned result ≡ meta_shown self.now }
    {
        parameters!(
            self: number id, number version, number clock, text zone, text reserved,
            number days_add, number days_auto_renew, number days_renew, number days_transfer,
            number days_redemption, number days_restore, number days_pending_delete,
            number days_answer, number days_lock, number price_create, number price_renew,
            number price_transfer
        )
    }
}

impl Record for MetaRow {
    ghost shown = { meta_shown };

    fn from_row(row: &Row) -> Result<MetaRow, Error> {
        by_columns!(
            MetaRow of row: number id 0, number version 1, number clock 2, text zone 3,
            text reserved 4, number days_add 5, number days_auto_renew 6, number days_renew 7,
            number days_transfer 8, number days_redemption 9, number days_restore 10,
            number days_pending_delete 11, number days_answer 12, number days_lock 13,
            number price_create 14, number price_renew 15, number price_transfer 16
        )
    }
}

impl<S: Alter> RowStore<S> {
    /// All of them, by their numbers.
    pub fn all_metas(&mut self) -> Result<Seq<MetaRow>, BookFault>
        ensures { Finds result self.old.content.metas self.old self.new }
    {
        self.select(TREE, ALL, &[])
    }

    /// Puts a row in the place of the one with its number, or after all others. Afterwards it is known, if
    /// it took the place of the only one.
    pub fn put_meta(&mut self, meta: &MetaRow) -> Result<(), BookFault>
        requires { self.old.is_open ≡ true }
        ensures { Makes result (metas_to (λ xs. insert_by metas.key xs meta.now) self.old.content)
            self.old self.new }
    {
        if !self.has_only(meta) {
            return self.write(TREE, PUT, &meta.params());
        }
        self.write_over(meta)?;
        self.know_only(meta);
        Ok(())
    }

    /// Puts a row in the place of the only one, which has its number.
    fn write_over(&mut self, meta: &MetaRow) -> Result<(), BookFault>
        requires open { self.old.is_open ≡ true }
        requires only { self.old.is_clean ≡ true
            → (x : MetaRow) × (self.old.content.metas ≡ x ∷ []) × (x.id ≡ meta.now.id) }
        ensures { Makes result (metas_to (λ xs. insert_by metas.key xs meta.now) self.old.content)
            self.old self.new }
    {
        self.show_consistent();
        self.replace_meta(meta)
    }

    /// Whether the only row is one with this one's number, as far as is known without a statement.
    fn has_only(&self, meta: &MetaRow) -> bool
        ensures { result ≡ true → self.now.is_clean ≡ true
            → (x : MetaRow) × (self.now.content.metas ≡ x ∷ []) × (x.id ≡ meta.now.id) }
    {
        let Some(Ok(rows)) = self.known::<MetaRow>(TREE, ALL, &[]) else {
            return false;
        };
        is_only(rows.as_slice(), meta)
    }

    /// Puts a row in the place of the one with its number. If there is none, nothing is changed.
    fn replace_meta(&mut self, meta: &MetaRow) -> Result<(), BookFault>
        requires { self.old.is_open ≡ true }
        ensures { Makes result (metas_to (update_where (meta_with_id meta.now.id)
            (λ x. record meta.now { id = x.id })) self.old.content) self.old self.new }
    {
        self.write(TREE, REPLACE, &meta.params())
    }

    /// Keeps this row as the answer to the question for all.
    fn know_only(&mut self, meta: &MetaRow)
        requires { self.old.is_clean ≡ true → self.old.content.metas ≡ meta.now ∷ [] }
        ensures { self.new ≡ self.old }
    {
        self.know(TREE, ALL, &[], &meta.params());
    }
}

/// Whether one row alone was found, with this one's number.
fn is_only(rows: &[MetaRow], meta: &MetaRow) -> bool
    ensures { result ≡ true → (x : MetaRow) × (rows.now ≡ x ∷ []) × (x.id ≡ meta.now.id) }
{
    match rows {
        [row] => row.id == meta.id,
        _ => false,
    }
}
