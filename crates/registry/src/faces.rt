//! What can be looked up in a registry at a moment: what everyone may know, and a registrar's
//! account.
ghost use Rattle.std.proofs.Common.{ap};
ghost use Rattle.std.specs.Prelude.{Some};
ghost use Rattle.concerns.specs.Names.{named_by};
ghost use Rattle.objects.specs.declared.roid.ObjectKind.TheVariants as kinds;
ghost use Rattle.registry.specs.Faces.{IsLookUp, balance_command};
ghost use Rattle.registry.specs.inner.Passing.{about, concerning, everything, lapsing};
ghost use Rattle.registry.specs.inner.FaceLaws as laws;
ghost use Rattle.model.specs.{Registry.account_of, Zone.zone_data};
ghost use Rattle.books.specs.Faces.{contact_face_at, domain_face_at, host_face_at};

use crate::passing::{Scope, pass};
use crate::work::Work;
use accounts::Lines;
use basis::registrar::RegistrarNo;
use basis::text::Text;
use books::{Book, BookFault};
use calendar::Moment;
use names::{DomainName, HostName};
use objects::{ContactFace, DomainFace, HostFace, ObjectKind, ZoneData};
use policy::Policy;
use std::alloc::Global;

/// What can be looked up in a book.
pub(crate) trait LookUp {
    ghost use Rattle.std.specs.Prelude.{◌≡◌};
    ghost use Rattle.model.specs.Registry.{Registry};
    ghost use Rattle.policy.specs.Rules.{PolicyRules};
    ghost use Rattle.model.specs.Lapse.{now};
    ghost use Rattle.registry.specs.inner.Passing.{Extent, IsSettledAs, extent_of};
    ghost use Rattle.books.specs.Book.{BookFinds};

    /// What is found.
    type Found: Drop;

    /// What it is in a registry.
    ghost finds: { Self → PolicyRules → Registry → Self.Found };

    /// What lapses before.
    ghost awaits: { Self → Extent };

    /// Once that has lapsed, it is what it is once all has that is due.
    ghost is_as_now: { (it : Self) (p : PolicyRules) (s : Registry) → IsSettledAs p (awaits it) s
        → finds it p (now p s) ≡ finds it p s };

    /// What lapses before.
    fn scope(&self) -> Scope<'_>
        ensures { extent_of result ≡ awaits self.now };

    /// Looks it up in an open transaction.
    fn look<B: Book>(&self, book: &mut B, policy: &Policy) -> Result<Self::Found, BookFault>
        ensures { BookFinds result (finds self.now policy.now (B.state book.old).content.registry)
            (B.state book.old) (B.state book.new) };
}

/// The domain under a name.
impl LookUp for DomainName {
    type Found = Option<DomainFace>;

    ghost finds = { λ name p s. domain_face_at p s name };

    ghost awaits = { λ name. about kinds.Domain name };

    ghost is_as_now = { λ name p s. laws.domain-face-now p name s };

    fn scope(&self) -> Scope<'_> {
        Scope::Object(ObjectKind::Domain, self.text())
    }

    fn look<B: Book>(
        &self,
        book: &mut B,
        policy: &Policy,
    ) -> Result<Option<DomainFace>, BookFault> {
        book.domain_face(self.text(), policy)
    }
}

/// The host under a name.
impl LookUp for HostName {
    type Found = Option<HostFace>;

    ghost finds = { λ name p s. host_face_at p s name };

    ghost awaits = { λ name. about kinds.Host name };

    ghost is_as_now = { λ name p s. laws.host-face-now p name s };

    fn scope(&self) -> Scope<'_> {
        Scope::Object(ObjectKind::Host, self.text())
    }

    fn look<B: Book>(&self, book: &mut B, policy: &Policy) -> Result<Option<HostFace>, BookFault> {
        book.host_face(self.text(), policy)
    }
}

/// The contact under a name.
#[derive(Clone, Copy, Drop)]
pub(crate) struct ContactAt<'n>(pub &'n Text);

impl LookUp for ContactAt<'_> {
    type Found = Option<ContactFace>;

    ghost finds = { λ it p s. contact_face_at s it.0.now };

    ghost awaits = { λ it. about kinds.Contact it.0.now };

    ghost is_as_now = { λ it p s. laws.contact-face-now p it.0.now s };

    fn scope(&self) -> Scope<'_> {
        Scope::Object(ObjectKind::Contact, self.0)
    }

    fn look<B: Book>(&self, book: &mut B, _: &Policy) -> Result<Option<ContactFace>, BookFault> {
        book.contact_face(self.0)
    }
}

/// What a zone has.
#[derive(Clone, Copy, Drop)]
pub(crate) struct Zoned;

impl LookUp for Zoned {
    type Found = ZoneData;

    ghost finds = { λ _ p s. zone_data p.zone s };

    ghost awaits = { λ _. everything };

    ghost is_as_now = { λ _ p s. ap (zone_data p.zone) };

    fn scope(&self) -> Scope<'_> {
        Scope::All
    }

    fn look<B: Book>(&self, book: &mut B, policy: &Policy) -> Result<ZoneData, BookFault> {
        book.zone_data(policy)
    }
}

/// The lines of a registrar's account. What concerns the registrar lapses first.
#[derive(Clone, Copy, Drop)]
pub(crate) struct LinesOf(pub RegistrarNo);

impl LookUp for LinesOf {
    type Found = Lines;

    ghost finds = { λ it p s. (account_of it.0 s).lines };

    ghost awaits = { λ it. concerning (Some it.0) (named_by balance_command) };

    ghost is_as_now = { λ it p s. laws.lines-now p it.0 s };

    fn scope(&self) -> Scope<'_> {
        Scope::Registrar(self.0)
    }

    fn look<B: Book>(&self, book: &mut B, _: &Policy) -> Result<Lines, BookFault> {
        book.lines(self.0)
    }
}

/// A look-up at a moment.
#[derive(Drop)]
pub(crate) struct LookUpWork<'l, L> {
    pub what: &'l L,
    pub moment: Moment,
}

impl<L: LookUp> Work for LookUpWork<'_, L> {
    type Answer = L::Found;

    ghost step = { λ it p. IsLookUp p (L.finds it.what.now p) (lapsing p (L.awaits it.what.now))
        it.moment };

    fn work<B: Book>(
        &self,
        book: &mut B,
        alloc: Global,
        policy: &Policy,
    ) -> Result<L::Found, BookFault> {
        pass(book, alloc, &self.what.scope(), self.moment, policy)?;
        self.what.look(book, policy)
    }
}
