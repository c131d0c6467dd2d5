//! Messages that wait.
ghost use Rattle.std.specs.Prelude.{◌≡◌, true, filter, take};
ghost use Rattle.sqltables.specs.inner.Calls.{bound, delete_where, insert_by, messages_to, Finds, Makes, appended};
ghost use Rattle.sqltables.specs.Message.{messages, message_with_id, is_same_message, queue_of, message_shown};

use crate::store::RowStore;
use basis::list::Seq;
use basis::text::Text;
use sqlite::types::{ToSql, ValueRef};
use sqlite::{Alter, Error, Row, params};
use sqlrows::{Number, Record};
use states::BookFault;

/// The tree of the table `message`.
const TREE: u64 = 12;

const FIRST_BY_ACCOUNT: &str =
    "SELECT id, account, moment, class, number, name, subject, notice FROM message WHERE account = ?1 ORDER BY moment, class, number, name, subject, notice, id LIMIT 1";

const SAME: &str =
    "SELECT id, account, moment, class, number, name, subject, notice FROM message WHERE account = ?1 AND moment = ?2 AND class = ?3 AND number = ?4 AND name = ?5 AND subject = ?6 AND notice = ?7 ORDER BY id";

const PUT: &str =
    "INSERT INTO message (id, account, moment, class, number, name, subject, notice) VALUES (?1, ?2, ?3, ?4, ?5, ?6, ?7, ?8) ON CONFLICT (id) DO UPDATE SET account = excluded.account, moment = excluded.moment, class = excluded.class, number = excluded.number, name = excluded.name, subject = excluded.subject, notice = excluded.notice";

const APPEND: &str =
    "INSERT INTO message (account, moment, class, number, name, subject, notice) VALUES (?1, ?2, ?3, ?4, ?5, ?6, ?7)";

const REMOVE_ID: &str = "DELETE FROM message WHERE id = ?1";

/// A row of the table `message`.
#[derive(Drop)]
pub struct MessageRow {
    pub id: i64,
    pub account: i64,
    pub moment: i64,
    /// 0 for what time brought, and 1 for what a command brought.
    pub class: i64,
    /// The recipient's number of a command's message; of time's, the place of its letter.
    pub number: i64,
    pub name: Text,
    pub subject: i64,
    /// What a command's message says of a transfer, and 0 of time's.
    pub notice: i64,
}

impl MessageRow {
    /// Its columns as parameters, its number first.
    fn params(&self) -> [ValueRef<'_>; 8]
        ensures { bound result ≡ message_shown self.now }
    {
        parameters!(
            self: number id, number account, number moment, number class, number number, text name,
            number subject, number notice
        )
    }
}

impl Record for MessageRow {
    ghost shown = { message_shown };

    fn from_row(row: &Row) -> Result<MessageRow, Error> {
        by_columns!(
            MessageRow of row: number id 0, number account 1, number moment 2, number class 3,
            number number 4, text name 5, number subject 6, number notice 7
        )
    }
}

impl<S: Alter> RowStore<S> {
    /// The first of an account's queue alone, if it has any.
    pub fn first_messages_by_account(
        &mut self,
        account: Number,
    ) -> Result<Seq<MessageRow>, BookFault>
        ensures { Finds result (take 1 (queue_of account self.old.content.messages)) self.old
            self.new }
    {
        self.select(TREE, FIRST_BY_ACCOUNT, params![account])
    }

    /// Those that are equal to this one in all columns but the number.
    pub fn same_messages(&mut self, message: &MessageRow) -> Result<Seq<MessageRow>, BookFault>
        ensures { Finds result (filter (is_same_message message.now) self.old.content.messages)
            self.old self.new }
    {
        self.select(TREE, SAME, &message.params()[1..])
    }

    /// Puts a row in the place of the one with its number, or after all others.
    pub fn put_message(&mut self, message: &MessageRow) -> Result<(), BookFault>
        requires { self.old.is_open ≡ true }
        ensures { Makes result (messages_to (λ xs. insert_by messages.key xs message.now)
            self.old.content) self.old self.new }
    {
        self.write(TREE, PUT, &message.params())
    }

    /// Adds a row at the end, with the number after the last one. The given row's number isn't looked at.
    pub fn append_message(&mut self, message: &MessageRow) -> Result<(), BookFault>
        requires { self.old.is_open ≡ true }
        ensures { Makes result
            (messages_to (appended messages (λ id. record message.now { id = id }))
            self.old.content) self.old self.new }
    {
        self.write(TREE, APPEND, &message.params()[1..])
    }

    /// Removes those whose `id` is this.
    pub fn remove_messages_by_id(&mut self, id: Number) -> Result<(), BookFault>
        requires { self.old.is_open ≡ true }
        ensures { Makes result (messages_to (delete_where (message_with_id id)) self.old.content)
            self.old self.new }
    {
        self.write(TREE, REMOVE_ID, params![id])
    }
}
