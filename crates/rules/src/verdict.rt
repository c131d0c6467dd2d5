//! The verdict on a command: the code and the data of its reply.
ghost use Rattle.std.specs.Prelude.{◌≡◌, IfOk, None};
ghost use Rattle.rules.specs.{Laws.AnswersLawfully, Verdicts.judged};
ghost use Rattle.rules.specs.inner.KnownData.{answer_in, grant_in};

use crate::case::Case;
use crate::deletion::code_granted;
use crate::response::response_data;
use basis::registrar::RegistrarNo;
use calendar::Moment;
use facts::Facts;
use policy::Policy;
use protocol::{Code, Command, Data};
use std::alloc::{AllocError, Global};

/// The code that a command is answered, and its data.
#[derive(Drop)]
pub struct Verdict {
    pub code: Code,
    pub content: Option<Data>,
}

/// What a registrar's command at a moment is answered, by the facts that bear on it: the first
/// refusal of its table, or its data.
#[tactic(auto, unfolding(crate::specs::Verdicts::judged, crate::specs::Laws::AnswersLawfully))]
pub fn judge(
    alloc: Global,
    facts: &Facts,
    caller: RegistrarNo,
    command: &Command,
    moment: Moment,
    policy: &Policy,
) -> Result<Verdict, AllocError>
    ensures verdict { IfOk result (λ verdict. verdict ≡ judged policy.now caller moment command.now
        facts.now) }
    ensures laws { IfOk result (λ verdict. AnswersLawfully policy.now caller moment command.now
        facts.now verdict) }
{
    match command {
        Command::Bad { fault, .. } => Ok(refused(fault.code())),
        Command::Asked { request, .. } => {
            let case = Case {
                facts,
                caller,
                moment,
                request,
                policy,
            };
            answer(alloc, &case)
        }
    }
}

/// What a well formed command is answered.
fn answer(alloc: Global, case: &Case<'_>) -> Result<Verdict, AllocError>
    ensures { IfOk result (λ verdict. verdict ≡ answer_in case.now) }
{
    match case.refusal() {
        Some(code) => Ok(refused(code)),
        None => grant(alloc, case),
    }
}

/// What it is answered unless it is refused.
fn grant(alloc: Global, case: &Case<'_>) -> Result<Verdict, AllocError>
    ensures { IfOk result (λ verdict. verdict ≡ grant_in case.now) }
{
    let content = response_data(alloc, case)?;
    Ok(Verdict {
        code: code_granted(case.request, case.facts),
        content,
    })
}

fn refused(code: Code) -> Verdict
    ensures { result ≡ record { code = code; content = None } }
{
    Verdict {
        code,
        content: None,
    }
}
