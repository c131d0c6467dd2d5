//! Answers to heads of requests (RFC 7480, 5).
ghost use Rattle.std.specs.Prelude.{◌≡◌, IfOk, option_map};
ghost use Rattle.rdap.specs.Answering.{Faces, IsAnswer, MayLeave, domain_answer, nameserver_answer, object_answer, request_answer, without_object};
ghost use Rattle.rdap.specs.Bodies.{contact_text, domain_text, nameserver_text};
ghost use Rattle.names.specs.Names.{domain_of, host_of};

use crate::domain::domain_body;
use crate::entity::contact_body;
use crate::head::{Reading, read_head};
use crate::nameserver::nameserver_body;
use crate::request::{Request, request_of};
use crate::routes::Routes;
use crate::source::FaceSource;
use crate::wire::{Outcome, answer_without_object, response};
use basis::text::Text;
use names::{DomainName, HostName, NameFault};
use objects::{ContactFace, DomainFace, HostFace};
use std::alloc::{AllocError, Global};

/// Answers the head that the bytes begin with. Bytes that begin with none are a bad request, also
/// where they are cut. At most one look-up is made. The routes are made once, for all answers.
pub fn answer<F: FaceSource>(
    alloc: Global,
    routes: &Routes,
    head: &[u8],
    source: &mut F,
) -> Result<Vec<u8>, F::Fault>
    ensures answer { IfOk result (λ bytes. (faces : Faces) → F.shows source.new faces
        → IsAnswer (F.rules source.old) faces head.now bytes.items) }
    ensures left { MayLeave F.leaves source.old source.new }
{
    match read_head(head) {
        Reading::Whole(asked) => {
            let request = request_of(alloc, routes, asked.method, asked.target)?;
            answer_request(alloc, request, source)
        }
        Reading::Cut => Ok(answer_without_object(alloc, Outcome::BadRequest)?),
        Reading::Bad => Ok(answer_without_object(alloc, Outcome::BadRequest)?),
    }
}

fn answer_request<F: FaceSource>(
    alloc: Global,
    request: Request,
    source: &mut F,
) -> Result<Vec<u8>, F::Fault>
    ensures answer { IfOk result (λ bytes. (faces : Faces) → F.shows source.new faces
        → bytes.items ≡ request_answer (F.rules source.old) faces request) }
    ensures left { MayLeave F.leaves source.old source.new }
{
    match request {
        Request::Domain(name) => answer_domain(alloc, &name, source),
        Request::Nameserver(name) => answer_nameserver(alloc, &name, source),
        Request::Entity(handle) => answer_contact(alloc, &handle, source),
        Request::Help => Ok(answer_without_object(alloc, Outcome::Found)?),
        Request::Refused(outcome) => Ok(answer_without_object(alloc, outcome)?),
    }
}

fn answer_domain<F: FaceSource>(
    alloc: Global,
    name: &Text,
    source: &mut F,
) -> Result<Vec<u8>, F::Fault>
    ensures answer { IfOk result (λ bytes. (faces : Faces) → F.shows source.new faces
        → bytes.items ≡ domain_answer (F.rules source.old) faces
        (domain_of (F.rules source.old).zone name.now)) }
    ensures left { MayLeave F.leaves source.old source.new }
{
    match DomainName::read(alloc, name.as_str(), source.policy().zone()) {
        Ok(name) => {
            let face = source.domain(&name)?;
            let answer = domain_response(alloc, &*source, &name, &face);
            drop(face);
            answer
        }
        Err(fault) => Ok(answer_fault(alloc, fault)?),
    }
}

/// The answer about a name that isn't one of the zone's.
fn answer_fault(alloc: Global, fault: NameFault) -> Result<Vec<u8>, AllocError>
    ensures { IfOk result (λ bytes. (fault ≡ NameFault.Syntax
        → bytes.items ≡ without_object Outcome.BadRequest)
        × (fault ≡ NameFault.Policy → bytes.items ≡ without_object Outcome.NotFound)
        × (¬ (fault ≡ NameFault.Memory))) }
{
    match fault {
        NameFault::Syntax => answer_without_object(alloc, Outcome::BadRequest),
        NameFault::Policy => answer_without_object(alloc, Outcome::NotFound),
        NameFault::Memory => Err(AllocError),
    }
}

fn domain_response<F: FaceSource>(
    alloc: Global,
    source: &F,
    name: &DomainName,
    face: &Option<DomainFace>,
) -> Result<Vec<u8>, F::Fault>
    ensures { IfOk result (λ bytes. bytes.items
        ≡ object_answer (option_map (domain_text (F.rules source.now) name.now) face.now)) }
{
    let Some(face) = face else {
        return Ok(answer_without_object(alloc, Outcome::NotFound)?);
    };
    let body = domain_body(alloc, source.policy(), name, face)?;
    Ok(response(alloc, Outcome::Found, &body)?)
}

fn answer_nameserver<F: FaceSource>(
    alloc: Global,
    name: &Text,
    source: &mut F,
) -> Result<Vec<u8>, F::Fault>
    ensures answer { IfOk result (λ bytes. (faces : Faces) → F.shows source.new faces
        → bytes.items ≡ nameserver_answer faces (host_of (F.rules source.old).zone name.now)) }
    ensures left { MayLeave F.leaves source.old source.new }
{
    match HostName::read(alloc, name.as_str(), source.policy().zone()) {
        Ok(name) => {
            let face = source.host(&name)?;
            let answer = nameserver_response(alloc, &name, &face);
            drop(face);
            Ok(answer?)
        }
        Err(fault) => Ok(answer_fault(alloc, fault)?),
    }
}

fn nameserver_response(
    alloc: Global,
    name: &HostName,
    face: &Option<HostFace>,
) -> Result<Vec<u8>, AllocError>
    ensures { IfOk result (λ bytes. bytes.items
        ≡ object_answer (option_map (nameserver_text name.now) face.now)) }
{
    let Some(face) = face else {
        return answer_without_object(alloc, Outcome::NotFound);
    };
    let body = nameserver_body(alloc, name, face)?;
    response(alloc, Outcome::Found, &body)
}

fn answer_contact<F: FaceSource>(
    alloc: Global,
    name: &Text,
    source: &mut F,
) -> Result<Vec<u8>, F::Fault>
    ensures answer { IfOk result (λ bytes. (faces : Faces) → F.shows source.new faces
        → bytes.items ≡ object_answer (option_map contact_text (faces.contact name.now))) }
    ensures left { MayLeave F.leaves source.old source.new }
{
    let face = source.contact(name)?;
    Ok(contact_response(alloc, &face)?)
}

fn contact_response(alloc: Global, face: &Option<ContactFace>) -> Result<Vec<u8>, AllocError>
    ensures { IfOk result (λ bytes. bytes.items ≡ object_answer (option_map contact_text face.now)) }
{
    let Some(face) = face else {
        return answer_without_object(alloc, Outcome::NotFound);
    };
    let body = contact_body(alloc, face)?;
    response(alloc, Outcome::Found, &body)
}
