//! Contacts.
ghost use Rattle.std.specs.Prelude.{◌≡◌, true, filter, take, IfOk};
ghost use Rattle.sqltables.specs.inner.Calls.{bound, insert_by, next_key, delete_where, update_where, contacts_to, Finds, Makes, appended};
ghost use Rattle.sqltables.specs.Contact.{ContactRow, contact_shown, contacts, contact_with_id, contact_with_name, contact_within_due, contact_of_sponsor_within, contacts_by_due};

use crate::store::RowStore;
use basis::list::Seq;
use basis::text::Text;
use sqlite::types::{ToSql, ValueRef};
use sqlite::{Alter, Error, Row, params};
use sqlrows::{Number, Record, maybe_number, maybe_text, maybe_text_of};
use states::BookFault;

/// The tree of the table `contact`.
const TREE: u64 = 3;

const BY_ID: &str =
    "SELECT id, name, creator, serial, sponsor, created, transferred, updated, statuses, secret, postal_name, org, street, city, state, postal_code, country, voice, due, mail FROM contact WHERE id = ?1 ORDER BY id";

const BY_NAME: &str =
    "SELECT id, name, creator, serial, sponsor, created, transferred, updated, statuses, secret, postal_name, org, street, city, state, postal_code, country, voice, due, mail FROM contact WHERE name = ?1 ORDER BY id";

const UNTIL_DUE: &str =
    "SELECT id, name, creator, serial, sponsor, created, transferred, updated, statuses, secret, postal_name, org, street, city, state, postal_code, country, voice, due, mail FROM contact WHERE due >= 0 AND due <= ?1 ORDER BY due, id";

const FIRST_UNTIL_DUE: &str =
    "SELECT id, name, creator, serial, sponsor, created, transferred, updated, statuses, secret, postal_name, org, street, city, state, postal_code, country, voice, due, mail FROM contact WHERE due >= 0 AND due <= ?1 ORDER BY due, id LIMIT ?2";

const BY_SPONSOR_UNTIL_DUE: &str =
    "SELECT id, name, creator, serial, sponsor, created, transferred, updated, statuses, secret, postal_name, org, street, city, state, postal_code, country, voice, due, mail FROM contact WHERE sponsor = ?1 AND due >= 0 AND due <= ?2 ORDER BY id";

const PUT: &str =
    "INSERT INTO contact (id, name, creator, serial, sponsor, created, transferred, updated, statuses, secret, postal_name, org, street, city, state, postal_code, country, voice, due, mail) VALUES (?1, ?2, ?3, ?4, ?5, ?6, ?7, ?8, ?9, ?10, ?11, ?12, ?13, ?14, ?15, ?16, ?17, ?18, ?19, ?20) ON CONFLICT (id) DO UPDATE SET name = excluded.name, creator = excluded.creator, serial = excluded.serial, sponsor = excluded.sponsor, created = excluded.created, transferred = excluded.transferred, updated = excluded.updated, statuses = excluded.statuses, secret = excluded.secret, postal_name = excluded.postal_name, org = excluded.org, street = excluded.street, city = excluded.city, state = excluded.state, postal_code = excluded.postal_code, country = excluded.country, voice = excluded.voice, due = excluded.due, mail = excluded.mail";

const REPLACE: &str =
    "UPDATE contact SET name = ?2, creator = ?3, serial = ?4, sponsor = ?5, created = ?6, transferred = ?7, updated = ?8, statuses = ?9, secret = ?10, postal_name = ?11, org = ?12, street = ?13, city = ?14, state = ?15, postal_code = ?16, country = ?17, voice = ?18, due = ?19, mail = ?20 WHERE id = ?1";

const APPEND: &str =
    "INSERT INTO contact (name, creator, serial, sponsor, created, transferred, updated, statuses, secret, postal_name, org, street, city, state, postal_code, country, voice, due, mail) VALUES (?1, ?2, ?3, ?4, ?5, ?6, ?7, ?8, ?9, ?10, ?11, ?12, ?13, ?14, ?15, ?16, ?17, ?18, ?19)";

const REMOVE_ID: &str = "DELETE FROM contact WHERE id = ?1";

/// The postal columns of a row.
#[derive(Drop)]
pub struct PostalRow {
    pub name: Text,
    pub org: Option<Text>,
    pub street: Text,
    pub city: Text,
    pub state: Option<Text>,
    pub postal_code: Option<Text>,
    pub country: Text,
}

/// The postal columns of a contact's row.
fn postal_of(row: &Row) -> Result<PostalRow, Error>
    ensures { (x : ContactRow) → row.now ≡ contact_shown x → IfOk result (λ r. r ≡ x.postal) }
{
    by_columns!(
        PostalRow of row: text name 10, maybe_text org 11, text street 12, text city 13,
        maybe_text state 14, maybe_text postal_code 15, text country 16
    )
}

/// A row of the table `contact`.
#[derive(Drop)]
pub struct ContactRow {
    pub id: i64,
    pub name: Text,
    pub creator: i64,
    pub serial: i64,
    pub sponsor: i64,
    pub created: i64,
    pub transferred: Option<i64>,
    pub updated: Option<i64>,
    pub statuses: Text,
    pub secret: Text,
    pub voice: Option<Text>,
    pub due: Option<i64>,
    pub mail: Text,
    pub postal: PostalRow,
}

impl ContactRow {
    /// Its columns as parameters, its number first.
    fn params(&self) -> [ValueRef<'_>; 20]
        ensures { bound result ≡ contact_shown self.now }
    {
        parameters!(
            self: number id, text name, number creator, number serial, number sponsor,
            number created, maybe_number transferred, maybe_number updated, text statuses,
            text secret, text postal.name, maybe_text postal.org, text postal.street,
            text postal.city, maybe_text postal.state, maybe_text postal.postal_code,
            text postal.country, maybe_text voice, maybe_number due, text mail
        )
    }
}

/// The moments in a contact's row, in seconds since 1970.
#[derive(Clone, Copy, Drop)]
struct ContactDates {
    created: i64,
    transferred: Option<i64>,
    updated: Option<i64>,
    due: Option<i64>,
}

fn dates_of(row: &Row) -> Result<ContactDates, Error>
    ensures { (x : ContactRow) → row.now ≡ contact_shown x
        → IfOk result (λ dates. (dates.created ≡ x.created) × (dates.transferred ≡ x.transferred)
        × (dates.updated ≡ x.updated) × (dates.due ≡ x.due)) }
{
    by_columns!(
        ContactDates of row: number created 5, maybe_number transferred 6, maybe_number updated 7,
        maybe_number due 18
    )
}

impl Record for ContactRow {
    ghost shown = { contact_shown };

    fn from_row(row: &Row) -> Result<ContactRow, Error> {
        let dates = dates_of(row)?;
        Ok(ContactRow {
            id: row.get(0)?,
            name: Text::from_string(row.get(1)?),
            creator: row.get(2)?,
            serial: row.get(3)?,
            sponsor: row.get(4)?,
            created: dates.created,
            transferred: dates.transferred,
            updated: dates.updated,
            statuses: Text::from_string(row.get(8)?),
            secret: Text::from_string(row.get(9)?),
            voice: maybe_text_of(row.get(17)?),
            due: dates.due,
            mail: Text::from_string(row.get(19)?),
            postal: postal_of(row)?,
        })
    }
}

impl<S: Alter> RowStore<S> {
    /// Those with this number.
    pub fn contacts_by_id(&mut self, id: Number) -> Result<Seq<ContactRow>, BookFault>
        ensures { Finds result (filter (contact_with_id id) self.old.content.contacts) self.old
            self.new }
    {
        self.select(TREE, BY_ID, params![id])
    }

    /// Those whose `name` is this.
    pub fn contacts_by_name(&mut self, name: &str) -> Result<Seq<ContactRow>, BookFault>
        ensures { Finds result (filter (contact_with_name name.now) self.old.content.contacts)
            self.old self.new }
    {
        self.select(TREE, BY_NAME, params![name])
    }

    /// Those whose `due` is this moment or one before, in the order in which they are due. No moment is
    /// before 1970.
    pub fn contacts_until_due(&mut self, due: Number) -> Result<Seq<ContactRow>, BookFault>
        ensures { Finds result
            (contacts_by_due (filter (contact_within_due due) self.old.content.contacts)) self.old
            self.new }
    {
        self.select(TREE, UNTIL_DUE, params![due])
    }

    /// The first of those whose `due` is this moment or one before, in the order in which they are due, and
    /// no more than so many.
    pub fn first_contacts_until_due(
        &mut self,
        due: Number,
        at_most: u32,
    ) -> Result<Seq<ContactRow>, BookFault>
        ensures { Finds result (take at_most
            (contacts_by_due (filter (contact_within_due due) self.old.content.contacts))) self.old
            self.new }
    {
        self.select(TREE, FIRST_UNTIL_DUE, params![due, at_most])
    }

    /// Those whose `sponsor` is this and whose `due` is this moment or one before.
    pub fn contacts_by_sponsor_until_due(
        &mut self,
        sponsor: Number,
        due: Number,
    ) -> Result<Seq<ContactRow>, BookFault>
        ensures { Finds result (filter (contact_of_sponsor_within sponsor due)
            self.old.content.contacts) self.old self.new }
    {
        self.select(TREE, BY_SPONSOR_UNTIL_DUE, params![sponsor, due])
    }

    /// Puts a row in the place of the one with its number, or after all others.
    pub fn put_contact(&mut self, contact: &ContactRow) -> Result<(), BookFault>
        requires { self.old.is_open ≡ true }
        ensures { Makes result (contacts_to (λ xs. insert_by contacts.key xs contact.now)
            self.old.content) self.old self.new }
    {
        self.write(TREE, PUT, &contact.params())
    }

    /// Puts a row in the place of the one with its number. If there is none, nothing is changed. An index
    /// whose columns stay is left alone, which an upsert doesn't do.
    pub fn replace_contact(&mut self, contact: &ContactRow) -> Result<(), BookFault>
        requires { self.old.is_open ≡ true }
        ensures { Makes result (contacts_to (update_where (contact_with_id contact.now.id)
            (λ x. record contact.now { id = x.id })) self.old.content) self.old self.new }
    {
        self.write(TREE, REPLACE, &contact.params())
    }

    /// Adds a row at the end, with the number after the last one, and answers that number. The given row's
    /// isn't looked at.
    pub fn append_contact(&mut self, contact: &ContactRow) -> Result<i64, BookFault>
        requires { self.old.is_open ≡ true }
        ensures made { Makes result
            (contacts_to (appended contacts (λ id. record contact.now { id = id }))
            self.old.content) self.old self.new }
        ensures numbered { IfOk result (λ id. self.new.is_clean ≡ true
            → id ≡ next_key contacts.key self.old.content.contacts) }
    {
        self.run(TREE, APPEND, &contact.params()[1..])
    }

    /// Removes those whose `id` is this.
    pub fn remove_contacts_by_id(&mut self, id: Number) -> Result<(), BookFault>
        requires { self.old.is_open ≡ true }
        ensures { Makes result (contacts_to (delete_where (contact_with_id id)) self.old.content)
            self.old self.new }
    {
        self.write(TREE, REMOVE_ID, params![id])
    }
}
