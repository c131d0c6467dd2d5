//! A registry at one moment, as a source of faces.
ghost use Rattle.std.specs.Prelude.{◌≡◌, IfOk, true};
ghost use Rattle.rdap.specs.Answering.{Faces, IsAnswer};
ghost use Rattle.server.specs.Http.{MayShow, Passes};

use basis::text::Text;
use books::Book;
use calendar::Moment;
use names::{DomainName, HostName};
use objects::{ContactFace, DomainFace, HostFace};
use policy::Policy;
use rdap::{FaceSource, Routes, answer};
use registry::{Fault, Registry};
use std::alloc::Global;

/// A registry that is lent with a moment: what is looked up is what everyone may know of it then.
#[derive(Drop)]
pub struct AtMoment<B: Book> {
    registry: Registry<B>,
    moment: Moment,
}

impl<B: Book + Drop> AtMoment<B> {
    pub fn new(registry: Registry<B>, moment: Moment) -> AtMoment<B>
        ensures registry { result.registry ≡ registry }
        ensures moment { result.moment ≡ moment }
    {
        AtMoment { registry, moment }
    }

    /// The registry, once nothing more is looked up.
    pub fn into_registry(self) -> Registry<B>
        ensures { result ≡ self.registry }
    {
        self.registry
    }
}

impl<B: Book + Drop> FaceSource for AtMoment<B> {
    ghost use Rattle.std.specs.Prelude.{◌≡◌, true};
    ghost use Rattle.server.specs.Http.{MayShow, Passes};

    type Fault = Fault;

    ghost shows = { λ it faces.
        ((B.state it.registry.book).is_clean ≡ true)
        × MayShow it.registry.policy it.moment (B.state it.registry.book) faces };

    ghost rules = { λ it. it.registry.policy };

    ghost leaves = { λ old new.
        Passes old.registry.policy old.moment (B.state old.registry.book) (B.state new.registry.book)
        × (new.registry.policy ≡ old.registry.policy) × (new.moment ≡ old.moment) };

    fn policy(&self) -> &Policy {
        self.registry.policy()
    }

    fn domain(&mut self, name: &DomainName) -> Result<Option<DomainFace>, Fault> {
        self.registry.domain_face(name, self.moment)
    }

    fn host(&mut self, name: &HostName) -> Result<Option<HostFace>, Fault> {
        self.registry.host_face(name, self.moment)
    }

    fn contact(&mut self, name: &Text) -> Result<Option<ContactFace>, Fault> {
        self.registry.contact_face(name, self.moment)
    }
}

/// What a request's head is answered at a moment, and the registry that was asked.
#[derive(Drop)]
pub(crate) struct Asked<B: Book> {
    pub answer: Result<Vec<u8>, Fault>,
    pub registry: Registry<B>,
}

/// Answers a request's head by what everyone may know of a registry at a moment.
pub(crate) fn answer_at<B: Book + Drop>(
    alloc: Global,
    routes: &Routes,
    head: &[u8],
    moment: Moment,
    registry: Registry<B>,
) -> Asked<B>
    ensures answer { IfOk result.answer (λ bytes. (B.state result.registry.book).is_clean ≡ true
        → (faces : Faces) → MayShow registry.policy moment (B.state registry.book) faces → IsAnswer registry.policy faces head.now bytes.items) }
    ensures passes { Passes registry.policy moment (B.state registry.book)
        (B.state result.registry.book) }
    ensures policy { result.registry.policy ≡ registry.policy }
{
    let mut source = AtMoment::new(registry, moment);
    let answer = answer(alloc, routes, head, &mut source);
    Asked {
        answer,
        registry: source.into_registry(),
    }
}
