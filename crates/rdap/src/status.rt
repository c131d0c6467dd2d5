//! The words by which RDAP shows statuses (RFC 9083, 10.2.2; RFC 8056).
ghost use Rattle.std.specs.Prelude.{◌≡◌, ◌++◌, IfOk, OnOk, map};
ghost use Rattle.rdap.specs.StatusWords as spec;

use basis::list::Seq;
use basis::text::Text;
use objects::{Rgp, Status, in_order};
use std::alloc::{AllocError, Global};

/// The word of a status.
pub fn status_word(status: Status) -> &'static str
    ensures { result.now ≡ spec.status_word status }
{
    match status {
        Status::ClientDeleteProhibited => "client delete prohibited",
        Status::ClientHold => "client hold",
        Status::ClientRenewProhibited => "client renew prohibited",
        Status::ClientTransferProhibited => "client transfer prohibited",
        Status::ClientUpdateProhibited => "client update prohibited",
        Status::Inactive => "inactive",
        Status::Linked => "associated",
        Status::Fine => "active",
        Status::PendingDelete => "pending delete",
        Status::PendingTransfer => "pending transfer",
        Status::ServerDeleteProhibited => "server delete prohibited",
        Status::ServerHold => "server hold",
        Status::ServerRenewProhibited => "server renew prohibited",
        Status::ServerTransferProhibited => "server transfer prohibited",
        Status::ServerUpdateProhibited => "server update prohibited",
    }
}

/// The word of a state of grace.
pub fn grace_word(state: Rgp) -> &'static str
    ensures { result.now ≡ spec.grace_word state }
{
    match state {
        Rgp::AddPeriod => "add period",
        Rgp::AutoRenewPeriod => "auto renew period",
        Rgp::PendingDelete => "pending delete",
        Rgp::PendingRestore => "pending restore",
        Rgp::RedemptionPeriod => "redemption period",
        Rgp::RenewPeriod => "renew period",
        Rgp::TransferPeriod => "transfer period",
    }
}

/// The words of an object's statuses and states of grace, sorted, each once.
pub fn status_words(
    alloc: Global,
    statuses: &[Status],
    states: &[Rgp],
) -> Result<Seq<Text>, AllocError>
    ensures { IfOk result (λ words. words ≡ spec.status_words statuses.now states.now) }
{
    let mut words = words_of(alloc, statuses)?;
    add_graces(alloc, states, &mut words)?;
    let mut sorted = in_order(alloc, &words)?.into_vec();
    sorted.dedup();
    Ok(Seq::from_vec(sorted))
}

fn words_of(alloc: Global, statuses: &[Status]) -> Result<Vec<Text>, AllocError>
    ensures { IfOk result (λ words. words.items ≡ map spec.status_word statuses.now) }
{
    let mut words = Vec::new(alloc);
    for status in statuses {
        words.push(Text::from_str(alloc, status_word(*status))?)?;
    }
    Ok(words)
}

fn add_graces(alloc: Global, states: &[Rgp], words: &mut Vec<Text>) -> Result<(), AllocError>
    ensures { OnOk result (words.new.items ≡ words.old.items ++ map spec.grace_word states.now) }
{
    for state in states {
        words.push(Text::from_str(alloc, grace_word(*state))?)?;
    }
    Ok(())
}
