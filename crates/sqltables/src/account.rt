//! Registrars' accounts.
ghost use Rattle.std.specs.Prelude.{◌≡◌, true, filter, map, [], ◌∷◌};
ghost use Rattle.sqltables.specs.inner.Calls.{bound, owned, insert_by, update_where, accounts_to, Finds, Makes};
ghost use Rattle.sqlite_rules.specs.Lists.{Has};
ghost use Rattle.sqlite_value.specs.declared.value.Value.TheVariants.{Int};
ghost use Rattle.sqltables.specs.Account.{AccountRow, accounts, account_with_id, account_shown};

use crate::store::RowStore;
use basis::list::Seq;
use basis::text::Text;
use sqlite::types::{ToSql, Type, ValueRef};
use sqlite::{Alter, Error, Row, params};
use sqlrows::{Number, Record};
use states::BookFault;

/// The tree of the table `account`.
pub(crate) const TREE: u64 = 1;

const ALL: &str =
    "SELECT id, ident, commands, messages, serial, waiting, balance, held FROM account ORDER BY id";

const BY_ID: &str =
    "SELECT id, ident, commands, messages, serial, waiting, balance, held FROM account WHERE id = ?1 ORDER BY id";

const PUT: &str =
    "INSERT INTO account (id, ident, commands, messages, serial, waiting, balance, held) VALUES (?1, ?2, ?3, ?4, ?5, ?6, ?7, ?8) ON CONFLICT (id) DO UPDATE SET ident = excluded.ident, commands = excluded.commands, messages = excluded.messages, serial = excluded.serial, waiting = excluded.waiting, balance = excluded.balance, held = excluded.held";

const REPLACE: &str =
    "UPDATE account SET ident = ?2, commands = ?3, messages = ?4, serial = ?5, waiting = ?6, balance = ?7, held = ?8 WHERE id = ?1";

/// A row of the table `account`.
#[derive(Clone, Drop)]
pub struct AccountRow {
    pub id: i64,
    pub ident: Text,
    pub commands: i64,
    pub messages: i64,
    pub serial: i64,
    pub waiting: i64,
    pub balance: [u8; 16],
    pub held: i64,
}

impl AccountRow {
    /// The parameter of the question that finds it.
    fn number(&self) -> [ValueRef<'_>; 1]
        ensures { bound result ≡ Int self.now.id ∷ [] }
    {
        [self.id.to_sql()]
    }

    /// The parameters of the statement that puts it.
    fn params(&self) -> [ValueRef<'_>; 8]
        ensures bound { bound result ≡ account_shown self.now }
        ensures owned { map owned result ≡ account_shown self.now }
    {
        [
            self.id.to_sql(),
            self.ident.as_str().to_sql(),
            self.commands.to_sql(),
            self.messages.to_sql(),
            self.serial.to_sql(),
            self.waiting.to_sql(),
            self.balance.as_slice().to_sql(),
            self.held.to_sql(),
        ]
    }
}

impl Record for AccountRow {
    ghost shown = { account_shown };

    fn from_row(row: &Row) -> Result<AccountRow, Error> {
        let bytes: Vec<u8> = row.get(6)?;
        if bytes.len() != 16 {
            return Err(Error::InvalidColumnType(6, Type::Blob));
        }
        let mut balance = [0; 16];
        balance.copy_from_slice(&bytes);
        Ok(AccountRow {
            id: row.get(0)?,
            ident: Text::from_string(row.get(1)?),
            commands: row.get(2)?,
            messages: row.get(3)?,
            serial: row.get(4)?,
            waiting: row.get(5)?,
            balance,
            held: row.get(7)?,
        })
    }
}

impl<S: Alter> RowStore<S> {
    /// All of them, by their numbers.
    pub fn all_accounts(&mut self) -> Result<Seq<AccountRow>, BookFault>
        ensures { Finds result self.old.content.accounts self.old self.new }
    {
        self.select(TREE, ALL, &[])
    }

    /// Those with this number.
    pub fn accounts_by_id(&mut self, id: Number) -> Result<Seq<AccountRow>, BookFault>
        ensures { Finds result (filter (account_with_id id) self.old.content.accounts) self.old
            self.new }
    {
        self.select(TREE, BY_ID, params![id])
    }

    /// Puts a row in the place of the one with its number, or after all others. Afterwards it is known.
    pub fn put_account(&mut self, account: &AccountRow) -> Result<(), BookFault>
        requires { self.old.is_open ≡ true }
        ensures { Makes result (accounts_to (λ xs. insert_by accounts.key xs account.now)
            self.old.content) self.old self.new }
    {
        self.show_consistent();
        self.write_account(account)?;
        self.know_account(account);
        Ok(())
    }

    /// The same, which isn't known. If there was one with its number, as far as is known, it is replaced.
    fn write_account(&mut self, account: &AccountRow) -> Result<(), BookFault>
        requires { self.old.is_open ≡ true }
        ensures { Makes result (accounts_to (λ xs. insert_by accounts.key xs account.now)
            self.old.content) self.old self.new }
    {
        if self.has_account(account) {
            self.show_consistent();
            return self.replace_account(account);
        }
        self.write(TREE, PUT, &account.params())
    }

    /// Whether there is one with this one's number, as far as is known without a statement.
    fn has_account(&self, account: &AccountRow) -> bool
        ensures { result ≡ true → self.now.is_clean ≡ true
            → (x : AccountRow) × Has self.now.content.accounts x × (x.id ≡ account.now.id) }
    {
        let Some(Ok(rows)) = self.known::<AccountRow>(TREE, BY_ID, &account.number()) else {
            return false;
        };
        !rows.is_empty()
    }

    /// Puts a row in the place of the one with its number. If there is none, nothing is changed.
    fn replace_account(&mut self, account: &AccountRow) -> Result<(), BookFault>
        requires { self.old.is_open ≡ true }
        ensures { Makes result (accounts_to (update_where (account_with_id account.now.id)
            (λ x. record account.now { id = x.id })) self.old.content) self.old self.new }
    {
        self.write(TREE, REPLACE, &account.params())
    }

    /// Keeps this row as the answer to the question which account has its number.
    fn know_account(&mut self, account: &AccountRow)
        requires { self.old.is_clean ≡ true
            → filter (account_with_id account.now.id) self.old.content.accounts ≡ account.now ∷ [] }
        ensures { self.new ≡ self.old }
    {
        self.know(TREE, BY_ID, &account.number(), &account.params());
    }
}
