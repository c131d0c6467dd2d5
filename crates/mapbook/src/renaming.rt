//! A host's new name in ordered maps.
ghost use Rattle.std.specs.Prelude.{◌≡◌, true, Some};
ghost use Rattle.mapbook.specs.Plain.{plain_records};
ghost use Rattle.mapbook.specs.Renaming as spec;
ghost use Rattle.books.specs.Tables.{host_moved, host_renamed_if_there, host_set};
ghost use Rattle.states.specs.States.{Makes};

use crate::edit::Edit;
use crate::plain::Plain;
use basis::text::Text;
use objects::Host;
use states::BookFault;

impl Plain {
    /// A host goes from one name to that of its own, and each domain that named it names it by that. Where there is
    /// no host of the one name, or one of the other, nothing is changed.
    pub(crate) fn rename(&mut self, from: Text, host: Host) -> Result<(), BookFault>
        requires { self.old.is_open ≡ true }
        ensures { Makes result (host_renamed_if_there from host (plain_records self.old).content)
            (plain_records self.old) (plain_records self.new) }
    {
        if !self.content.may_rename(&from, &host.name) {
            return Ok(());
        }
        self.move_host(from, host)
    }

    /// The same where there is such a host, and no other has that name.
    fn move_host(&mut self, from: Text, host: Host) -> Result<(), BookFault>
        requires { self.old.is_open ≡ true }
        ensures { Makes result (host_moved from host (plain_records self.old).content)
            (plain_records self.old) (plain_records self.new) }
    {
        let names = self.content.domains_naming(&from)?;
        self.rename_in(&from, &host.name, names.as_slice())?;
        self.set(Edit::Host(from, None))?;
        self.put_named(host)
    }

    /// A host is under its name.
    pub(crate) fn put_named(&mut self, host: Host) -> Result<(), BookFault>
        requires { self.old.is_open ≡ true }
        ensures { Makes result (host_set host.name (Some host) (plain_records self.old).content)
            (plain_records self.old) (plain_records self.new) }
    {
        let name = host.name.clone()?;
        self.set(Edit::Host(name, Some(host)))
    }

    /// Each of these domains names the host of the one name by the other.
    fn rename_in(&mut self, from: &Text, to: &Text, names: &[Text]) -> Result<(), BookFault>
        requires { self.old.is_open ≡ true }
        ensures { Makes result (spec.host_renamed_in from.now to.now names.now
            (plain_records self.old).content) (plain_records self.old) (plain_records self.new) }
    {
        for name in names {
            self.rename_at(name, from, to)?;
        }
        Ok(())
    }

    /// The domain of a name, if there is one, names the host of the one name by the other.
    fn rename_at(&mut self, domain: &Text, from: &Text, to: &Text) -> Result<(), BookFault>
        requires { self.old.is_open ≡ true }
        ensures { Makes result (spec.host_renamed_at from.now to.now domain.now
            (plain_records self.old).content) (plain_records self.old) (plain_records self.new) }
    {
        let name = domain.clone()?;
        match self.content.host_renamed_at(domain, from, to)? {
            None => Ok(()),
            Some(renamed) => self.set(Edit::Domain(name, Some(renamed))),
        }
    }
}
