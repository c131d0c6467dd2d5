//! The operator's port: orders, the zone, figures and statements of accounts over HTTP, for a client
//! that has the token.
//!
//! - `request`: what a head asks for, by its token, its method and its target; `token` compares.
//! - `hearing`: a request as a connection gives it, head and body.
//! - `answer`: an answer as bytes.
//! - `orders`: what becomes of an order; `figures`: a text for Prometheus.
//! - `serving`: one request, from its head to its answer.
#![tactic(auto)]

mod answer;
mod figures;
mod hearing;
mod orders;
mod request;
mod serving;
mod token;

pub use answer::{Kind, Outcome, response};
pub use figures::Figures;
pub use request::{Asked, Refusal, read_head};
pub use serving::{RequestEnd, serve_request};
pub use token::{TokenFault, credentials_in, is_same};
