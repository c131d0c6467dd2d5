//! What holds of each command that comes, since the types of its values keep it.
ghost use Rattle.std.specs.{Prelude.◌≤◌, List.slice_get, Option.IfSome};
ghost use Rattle.names.specs.Canonical.{IsCanonical};
ghost use Rattle.protocol.specs.Requests.{asks_of, domains_asked, transfer_years};
ghost use Rattle.decisions.specs.Askable.{CanBeAsked};
ghost use Rattle.rules.specs.Conditions.{host_name_after};

use protocol::{Command, Request, TransferOp};

/// A command asks for ten years at most, and its names were read.
pub(crate) fn show_can_be_asked(command: &Command)
    ensures { CanBeAsked command.now }
{
    match command {
        Command::Bad { .. } => {}
        Command::Asked { request, .. } => {
            show_ten_years(request);
            show_canonical_domain(request);
            show_canonical_host(request);
        }
    }
}

fn show_ten_years(request: &Request)
    ensures { (asks_of request.now).years ≤ 10 }
{
    match request {
        Request::CreateDomain(new) => {
            new.years.number();
        }
        Request::RenewDomain { years, .. } => {
            years.number();
        }
        Request::TransferDomain { op, .. } => show_transfer_years(*op),
        _ => {}
    }
}

fn show_transfer_years(op: TransferOp)
    ensures { transfer_years op ≤ 10 }
{
    match op {
        TransferOp::Request => {}
        TransferOp::Query => {}
        TransferOp::Approve => {}
        TransferOp::Reject => {}
        TransferOp::Cancel => {}
    }
}

/// The name of the domain was read.
fn show_canonical_domain(request: &Request)
    ensures { IfSome (slice_get (domains_asked request.now) 0) IsCanonical }
{
    if let Some(name) = request.domains().first() {
        name.is_canonical();
    }
}

/// The name that the host has afterwards was read.
fn show_canonical_host(request: &Request)
    ensures { IfSome (host_name_after request.now) IsCanonical }
{
    let name = match request.new_host() {
        Some(name) => Some(name),
        None => request.hosts().first(),
    };
    if let Some(name) = name {
        name.is_canonical();
    }
}
