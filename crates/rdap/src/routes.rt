//! The paths of requests (RFC 9082, 3.1).
ghost use Rattle.std.specs.Prelude.{◌≡◌, IfOk};
ghost use Rattle.rdap.specs.Routes as spec;

use matchit::{InsertError, Router};
use std::alloc::{AllocError, Global};
use std::marker::Model;

/// What a path asks for.
#[derive(Clone, Copy, Debug, PartialEq, Eq, Drop)]
pub(crate) enum Kind {
    Domain,
    Nameserver,
    /// A contact.
    Entity,
    Help,
}

/// The paths that can be asked for. They are made once, and lent to each answer.
#[derive(Drop)]
pub struct Routes {
    pub(crate) router: Router<Kind>,
}

impl Model for Routes {
    ghost use Rattle.std.specs.Prelude.{◌≡◌, ⊤};
    ghost use Rattle.rdap.specs.Routes as spec;

    ghost Value = { ⊤ };

    ghost view = { λ _. tt };

    ghost invariant = { λ it. it.router ≡ spec.routes };
}

impl Routes {
    pub fn new(alloc: Global) -> Result<Routes, AllocError> {
        match router_of(alloc) {
            Ok(router) => Ok(Routes { router }),
            Err(_) => Err(AllocError),
        }
    }
}

/// The router of all routes. They don't conflict, so it fails for want of memory alone.
fn router_of(alloc: Global) -> Result<Router<Kind>, InsertError>
    ensures { IfOk result (λ router. router ≡ spec.routes) }
{
    let mut router = Router::new(alloc);
    router.insert("/domain/{name}", Kind::Domain)?;
    router.insert("/nameserver/{name}", Kind::Nameserver)?;
    router.insert("/entity/{name}", Kind::Entity)?;
    router.insert("/help", Kind::Help)?;
    Ok(router)
}
