//! Changes of one account, apart from all others.
ghost use Rattle.std.specs.Prelude.{◌≡◌, ◌++◌, option_to_list, IfOk, OnOk};
ghost use Rattle.books.specs.inner.Grouping as spec;

use crate::records::Posts;
use basis::registrar::RegistrarNo;
use decisions::Change;
use lifecycle::AccountChange;
use std::alloc::{AllocError, Global};

/// Changes, of which those of one account stand apart.
#[derive(Drop)]
pub(crate) struct Parted {
    pub posts: Posts,
    /// What is left, in its order.
    pub others: Vec<Change>,
}

/// The account of the first change that is one of an account.
pub(crate) fn first_account(changes: &[Change]) -> Option<RegistrarNo>
    ensures { result ≡ spec.first_account changes.now }
{
    for change in changes {
        let account = account_in(change);
        if account.is_some() {
            return account;
        }
    }
    None
}

/// The changes of this account, and the others.
pub(crate) fn part(
    alloc: Global,
    changes: Vec<Change>,
    registrar: RegistrarNo,
) -> Result<Parted, AllocError>
    ensures registrar { IfOk result (λ it. it.posts.registrar ≡ registrar) }
    ensures posts { IfOk result (λ it. it.posts.changes.items ≡ spec.posts_of registrar changes.items) }
    ensures others { IfOk result (λ it. it.others.items ≡ spec.others registrar changes.items) }
{
    let mut posts = Vec::new(alloc);
    let mut others = Vec::new(alloc);
    for change in changes {
        if account_in(&change) == Some(registrar) {
            add_done(&mut posts, done_by(change))?;
        } else {
            others.push(change)?;
        }
    }
    Ok(Parted {
        posts: Posts {
            registrar,
            changes: posts,
        },
        others,
    })
}

/// Adds what is done to an account, if anything is.
pub(crate) fn add_done(
    changes: &mut Vec<AccountChange>,
    what: Option<AccountChange>,
) -> Result<(), AllocError>
    ensures { OnOk result (changes.new.items ≡ changes.old.items ++ option_to_list what) }
{
    if let Some(what) = what {
        changes.push(what)?;
    }
    Ok(())
}

/// What a change does to its account, if it does anything.
fn done_by(change: Change) -> Option<AccountChange>
    ensures { result ≡ spec.done_by change }
{
    match change {
        Change::Post(_, what) => Some(what),
        _ => None,
    }
}

/// The account that a change is of.
fn account_in(change: &Change) -> Option<RegistrarNo>
    ensures { result ≡ spec.account_of_change change.now }
{
    match change {
        Change::OpenAccount(registrar) | Change::Post(registrar, _) => Some(*registrar),
        _ => None,
    }
}
