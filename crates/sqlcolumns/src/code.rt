//! Codes: a small number for each variant of an enum.
ghost use Rattle.std.specs.Prelude.{◌≡◌, ℤ, List, Some, IfSome};
ghost use Rattle.std.proofs.Common.{rules};
ghost use Rattle.sqlcolumns.specs.Codes as spec;

use accounts::{LineKind, Subject};
use objects::TransferState;

/// An enum whose variants lie in a column as codes.
pub trait Coded: Copy + 'static {
    ghost code: { Self → ℤ };

    ghost all: { List Self };

    /// All variants.
    fn all() -> &'static [Self]
        ensures { result.now ≡ all };

    /// The variant's code.
    fn column(self) -> i64
        ensures { result ≡ code self };

    /// Each variant is found by its code: none is left out, and no two have the same.
    ghost back: { (x : Self) → spec.with_code code all (code x) ≡ Some x };

    /// The variant with this code.
    #[tactic(auto, using(crate::proofs::CodeLemmas::found_by_code))]
    final fn of_column(column: i64) -> Option<Self>
        ensures value { result ≡ spec.with_code code all column }
        ensures found { IfSome result (λ x. column ≡ code x) }
        ensures only { (x : Self) → column ≡ code x → result ≡ Some x }
    {
        with_code(column)
    }
}

fn with_code<K: Coded>(column: i64) -> Option<K>
    ensures value { result ≡ spec.with_code K.code K.all column }
    ensures found { IfSome result (λ x. column ≡ K.code x) }
{
    K::all().iter().copied().find(|x| x.column() == column)
}

/// What a contact or a host is to a domain that names it.
#[derive(Clone, Copy, Debug, PartialEq, Eq, Drop)]
pub enum Role {
    Admin,
    Tech,
    Host,
}

impl Coded for LineKind {
    ghost code = { spec.kind_column };

    ghost all = { spec.all_kinds };

    ghost back = { Prim.search rules };

    fn all() -> &'static [LineKind] {
        &[
            LineKind::Deposit,
            LineKind::Create,
            LineKind::Renew,
            LineKind::AutoRenew,
            LineKind::Transfer,
            LineKind::Restore,
        ]
    }

    fn column(self) -> i64 {
        self as i64
    }
}

impl Coded for Subject {
    ghost code = { spec.subject_column };

    ghost all = { spec.all_subjects };

    ghost back = { Prim.search rules };

    fn all() -> &'static [Subject] {
        &[Subject::Contact, Subject::Domain]
    }

    fn column(self) -> i64 {
        self as i64
    }
}

impl Coded for TransferState {
    ghost code = { spec.state_column };

    ghost all = { spec.all_transfer_states };

    ghost back = { Prim.search rules };

    fn all() -> &'static [TransferState] {
        &[
            TransferState::Pending,
            TransferState::ClientApproved,
            TransferState::ClientRejected,
            TransferState::ClientCancelled,
            TransferState::ServerApproved,
        ]
    }

    fn column(self) -> i64 {
        self as i64
    }
}

impl Coded for Role {
    ghost code = { spec.role_column };

    ghost all = { spec.all_roles };

    ghost back = { Prim.search rules };

    fn all() -> &'static [Role] {
        &[Role::Admin, Role::Tech, Role::Host]
    }

    fn column(self) -> i64 {
        self as i64
    }
}
