//! What calls of a registry do in a transaction, and the one step that keeps it.
ghost use Rattle.std.specs.Prelude.{◌≡◌, true};
ghost use Rattle.registry.specs.inner.Steps.{KeepsStep};

use books::{Book, BookFault};
use policy::Policy;
use std::alloc::Global;

/// What a call of a registry does in a transaction.
pub(crate) trait Work {
    ghost use Rattle.std.specs.Prelude.{◌≡◌, true};
    ghost use Rattle.model.specs.Registry.{Registry};
    ghost use Rattle.policy.specs.Rules.{PolicyRules};
    ghost use Rattle.registry.specs.inner.Steps.{Works};

    /// What it answers.
    type Answer: Drop;

    /// The step of a registry that it is, under a policy, with its answer.
    ghost step: { Self → PolicyRules → Registry → Registry → Self.Answer → Type 0 };

    /// Does it in an open transaction.
    fn work<B: Book>(
        &self,
        book: &mut B,
        alloc: Global,
        policy: &Policy,
    ) -> Result<Self::Answer, BookFault>
        requires { (B.state book.old).is_open ≡ true }
        ensures { Works result (step self.now policy.now) (B.state book.old) (B.state book.new) };
}

/// Does the work of a call in an open transaction, and keeps what it did.
#[tactic(auto, using(crate::proofs::CrashLemmas::leaving))]
pub(crate) fn keep<B: Book, W: Work>(
    book: &mut B,
    alloc: Global,
    work: &W,
    policy: &Policy,
) -> Result<W::Answer, BookFault>
    requires { (B.state book.old).is_open ≡ true }
    ensures { KeepsStep result (W.step work.now policy.now) (B.state book.old) (B.state book.new) }
{
    let answer = work.work(book, alloc, policy)?;
    match book.commit() {
        Ok(()) => Ok(answer),
        Err(fault) => {
            drop(answer);
            Err(fault)
        }
    }
}
