//! The schema: eleven tables with their indexes, made in a database that was never used; and the one before it.
ghost use Rattle.std.specs.Prelude.{◌≡◌, true, OnOk, IsTrue};
ghost use Rattle.sqlrows.specs.{inner.{Calls.ForgetsNoFault, Definitions.Makes}, Columns.no_schema};
ghost use Rattle.sqlite.specs.{Held.state, State.HasCleanDisk};
ghost use Rattle.sqltables.specs.{inner.Content.IsContent, Content.no_content};
ghost use Rattle.sqltables.specs.{inner.FirstTables.first_registry, Tables.registry};

use sqlite::{Alter, Connection, Error};
use sqlrows::define;

const LINE: &str =
    "CREATE TABLE line (id INTEGER PRIMARY KEY, account INTEGER NOT NULL REFERENCES account (id), kind INTEGER NOT NULL, creator INTEGER, serial INTEGER, years INTEGER NOT NULL, cents INTEGER NOT NULL, started INTEGER, ends INTEGER, refunded INTEGER, recorded INTEGER NOT NULL) STRICT";

const FIRST_LINE: &str =
    "CREATE TABLE line (id INTEGER PRIMARY KEY, account INTEGER NOT NULL REFERENCES account (id), kind INTEGER NOT NULL, creator INTEGER, serial INTEGER, years INTEGER NOT NULL, cents INTEGER NOT NULL, started INTEGER, refunded INTEGER, recorded INTEGER NOT NULL) STRICT";

const DAYS: &str =
    "CREATE TABLE days (id INTEGER PRIMARY KEY, starts INTEGER NOT NULL, days_add INTEGER NOT NULL, days_auto_renew INTEGER NOT NULL, days_renew INTEGER NOT NULL, days_transfer INTEGER NOT NULL, days_redemption INTEGER NOT NULL, days_restore INTEGER NOT NULL, days_pending_delete INTEGER NOT NULL, days_answer INTEGER NOT NULL, days_lock INTEGER NOT NULL) STRICT";

/// The texts that make a schema: those of both, round the one of its lines, and its own after them. First
/// its tables, then their indexes.
macro_rules! texts {
    ($line:ident $(, $more:ident)*) => {
        &[
            "CREATE TABLE meta (id INTEGER PRIMARY KEY, version INTEGER NOT NULL, clock INTEGER NOT NULL, zone TEXT NOT NULL, reserved TEXT NOT NULL, days_add INTEGER NOT NULL, days_auto_renew INTEGER NOT NULL, days_renew INTEGER NOT NULL, days_transfer INTEGER NOT NULL, days_redemption INTEGER NOT NULL, days_restore INTEGER NOT NULL, days_pending_delete INTEGER NOT NULL, days_answer INTEGER NOT NULL, days_lock INTEGER NOT NULL, price_create INTEGER NOT NULL, price_renew INTEGER NOT NULL, price_transfer INTEGER NOT NULL) STRICT",
            "CREATE TABLE account (id INTEGER PRIMARY KEY, ident TEXT NOT NULL UNIQUE, commands INTEGER NOT NULL, messages INTEGER NOT NULL, serial INTEGER NOT NULL, waiting INTEGER NOT NULL, balance BLOB NOT NULL, held INTEGER NOT NULL) STRICT",
            "CREATE TABLE contact (id INTEGER PRIMARY KEY, name TEXT NOT NULL UNIQUE, creator INTEGER NOT NULL, serial INTEGER NOT NULL, sponsor INTEGER NOT NULL REFERENCES account (id), created INTEGER NOT NULL, transferred INTEGER, updated INTEGER, statuses TEXT NOT NULL, secret TEXT NOT NULL, postal_name TEXT NOT NULL, org TEXT, street TEXT NOT NULL, city TEXT NOT NULL, state TEXT, postal_code TEXT, country TEXT NOT NULL, voice TEXT, due INTEGER, mail TEXT NOT NULL) STRICT",
            "CREATE TABLE domain (id INTEGER PRIMARY KEY, name TEXT NOT NULL UNIQUE, creator INTEGER NOT NULL, serial INTEGER NOT NULL, sponsor INTEGER NOT NULL REFERENCES account (id), created INTEGER NOT NULL, years INTEGER NOT NULL, transferred INTEGER, updated INTEGER, statuses TEXT NOT NULL, secret TEXT NOT NULL, registrant INTEGER NOT NULL REFERENCES contact (id), deleted INTEGER, restore_requested INTEGER, due INTEGER NOT NULL) STRICT",
            "CREATE TABLE host (id INTEGER PRIMARY KEY, name TEXT NOT NULL UNIQUE, creator INTEGER NOT NULL, serial INTEGER NOT NULL, above TEXT NOT NULL, external_sponsor INTEGER REFERENCES account (id), sponsor INTEGER REFERENCES account (id), created INTEGER NOT NULL, updated INTEGER, statuses TEXT NOT NULL) STRICT",
            "CREATE TABLE address (id INTEGER PRIMARY KEY, host INTEGER NOT NULL REFERENCES host (id), address TEXT NOT NULL) STRICT",
            "CREATE TABLE link (id INTEGER PRIMARY KEY, domain INTEGER NOT NULL REFERENCES domain (id), contact INTEGER REFERENCES contact (id), host INTEGER REFERENCES host (id), role INTEGER NOT NULL, due INTEGER NOT NULL) STRICT",
            $line,
            "CREATE TABLE message (id INTEGER PRIMARY KEY, account INTEGER NOT NULL REFERENCES account (id), moment INTEGER NOT NULL, class INTEGER NOT NULL, number INTEGER NOT NULL, name TEXT NOT NULL, subject INTEGER NOT NULL, notice INTEGER NOT NULL) STRICT",
            "CREATE TABLE transfer (id INTEGER PRIMARY KEY, contact INTEGER REFERENCES contact (id), domain INTEGER REFERENCES domain (id), requester INTEGER NOT NULL REFERENCES account (id), losing INTEGER NOT NULL REFERENCES account (id), requested INTEGER NOT NULL, ac_date INTEGER NOT NULL, due INTEGER, state INTEGER NOT NULL) STRICT",
            "CREATE INDEX contact_due ON contact (due)",
            "CREATE INDEX domain_registrant ON domain (registrant)",
            "CREATE INDEX domain_due ON domain (due)",
            "CREATE INDEX domain_sponsor ON domain (sponsor, due)",
            "CREATE INDEX host_above ON host (above)",
            "CREATE INDEX address_host ON address (host)",
            "CREATE INDEX link_domain ON link (domain)",
            "CREATE INDEX link_contact ON link (contact)",
            "CREATE INDEX link_host ON link (host)",
            "CREATE INDEX line_object ON line (account, creator, serial)",
            "CREATE INDEX message_queue ON message (account, moment, class, number, name, subject, notice)",
            "CREATE INDEX transfer_contact ON transfer (contact)",
            "CREATE INDEX transfer_domain ON transfer (domain)",
            "CREATE INDEX transfer_requester ON transfer (requester, due)",
            "CREATE INDEX contact_sponsor ON contact (sponsor, due)",
            "CREATE INDEX domain_roid ON domain (creator, serial)",
            "CREATE INDEX domain_registrant_due ON domain (registrant, due)",
            "CREATE INDEX link_contact_due ON link (contact, due)",
            "CREATE INDEX link_host_due ON link (host, due)",
            "CREATE INDEX transfer_losing ON transfer (losing, due)",
            $($more,)*
        ]
    };
}

/// Makes the tables and their indexes, in a transaction on a database that was never used.
pub fn create<S: Alter>(conn: &mut Connection<S>) -> Result<(), Error>
    ensures makes { conn.old.schema ≡ no_schema → IsTrue (state S.Store conn.old).is_open
        → conn.old.in_transaction ≡ true → HasCleanDisk (state S.Store conn.new)
        → Makes registry (state S.Store conn.old) (state S.Store conn.new) result }
    ensures empty { conn.old.schema ≡ no_schema → IsTrue (state S.Store conn.old).is_open
        → conn.old.in_transaction ≡ true → HasCleanDisk (state S.Store conn.new)
        → OnOk result (IsContent no_content (state S.Store conn.new).now) }
    ensures steady { ForgetsNoFault (state S.Store conn.old) (state S.Store conn.new) }
    ensures opened { HasCleanDisk (state S.Store conn.new) → IsTrue (state S.Store conn.new).is_open
        → IsTrue (state S.Store conn.old).is_open }
{
    define(conn, texts!(LINE, DAYS))
}

/// Makes the tables of the schema before this one, in a transaction on a database that was never used.
pub fn create_first<S: Alter>(conn: &mut Connection<S>) -> Result<(), Error>
    ensures { conn.old.schema ≡ no_schema → IsTrue (state S.Store conn.old).is_open
        → conn.old.in_transaction ≡ true → HasCleanDisk (state S.Store conn.new)
        → Makes first_registry (state S.Store conn.old) (state S.Store conn.new) result }
{
    define(conn, texts!(FIRST_LINE))
}
