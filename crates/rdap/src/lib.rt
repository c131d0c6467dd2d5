//! Answers of RDAP (RFC 7480, RFC 9082, RFC 9083) to the head of an HTTP request, from the faces of
//! domains, hosts and contacts (a face is the public part of an object).
//!
//! - `head`: the head at the beginning of the bytes.
//! - `request`: what its method and its target ask for, by the paths of `routes`.
//! - `answering`: the answer, from a `source` of faces; `wire`: the answer as bytes.
//! - `domain`, `nameserver`, `entity`: the bodies, made of `body` and the words of `status`.
//! - `laws`: an answer is a function of the head, the policy and the faces.
#![tactic(auto)]

mod answering;
mod body;
mod domain;
mod entity;
mod head;
mod laws;
mod nameserver;
mod request;
mod routes;
mod source;
mod status;
mod wire;

pub use answering::answer;
pub use domain::{Role, domain_body};
pub use entity::contact_body;
pub use head::{Asked, MOST_BYTES, MOST_FIELDS, Reading, read_head};
pub use laws::answers_agree;
pub use nameserver::nameserver_body;
pub use request::{Request, request_of};
pub use routes::Routes;
pub use source::FaceSource;
pub use status::{grace_word, status_word, status_words};
pub use wire::{Outcome, answer_without_object, response};
