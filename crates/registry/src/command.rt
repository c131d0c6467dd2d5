//! How a registrar's command is answered.
ghost use Rattle.std.specs.Prelude.{◌≡◌, true, IfOk};
ghost use Rattle.accounts.specs.Account.{saturating_next};
ghost use Rattle.registry.specs.Execution.{IsPrepared, IsStep};
ghost use Rattle.registry.specs.inner.Steps.{BookFindsSome, AreChangesMade, Works};
ghost use Rattle.decisions.specs.Steps.{reply_of};
ghost use Rattle.facts.specs.Facts.{facts};
ghost use Rattle.rules.specs.ResponseData.{id_of};
ghost use Rattle.protocol.specs.Requests.{cl_trid_of};

use crate::passing::{Scope, pass};
use crate::transaction::or_rollback;
use crate::work::Work;
use basis::list::Seq;
use basis::registrar::RegistrarNo;
use basis::text::{Text, copied};
use books::{Book, BookFault};
use calendar::Moment;
use decisions::{Change, decide};
use facts::Facts;
use policy::Policy;
use protocol::{Command, Reply, SvTrid};
use rules::{Verdict, id_of};
use std::alloc::{AllocError, Global};

/// A registrar's command at a moment.
#[derive(Drop)]
pub(crate) struct CommandWork<'c> {
    pub caller: RegistrarNo,
    pub command: &'c Command,
    pub moment: Moment,
}

impl Work for CommandWork<'_> {
    type Answer = Reply;

    ghost step = { λ it p. IsStep p it.caller it.command.now it.moment };

    fn work<B: Book>(
        &self,
        book: &mut B,
        alloc: Global,
        policy: &Policy,
    ) -> Result<Reply, BookFault> {
        let scope = Scope::Command(self.caller, self.command);
        let now = pass(book, alloc, &scope, self.moment, policy)?;
        let prepared = prepare(book, alloc, self.caller, self.command, now, policy)?;
        make_prepared(book, prepared, policy)
    }
}

/// A reply, and the changes that go with it.
#[derive(Drop)]
struct Prepared {
    reply: Reply,
    changes: Seq<Change>,
}

/// Decides on a command in an open transaction, and writes the reply.
fn prepare<B: Book>(
    book: &mut B,
    alloc: Global,
    caller: RegistrarNo,
    command: &Command,
    now: Moment,
    policy: &Policy,
) -> Result<Prepared, BookFault>
    requires { (B.state book.old).is_open ≡ true }
    ensures { BookFindsSome result (IsPrepared policy.now caller command.now now (facts policy.now
        caller command.now (B.state book.old).content.registry)) (B.state book.old)
        (B.state book.new) }
{
    let facts = book.facts_for(caller, command, policy)?;
    let prepared = prepared_by(alloc, &facts, caller, command, now, policy);
    drop(facts);
    or_rollback(book, prepared)
}

/// Decides on a command by the facts that bear on it, and writes the reply.
fn prepared_by(
    alloc: Global,
    facts: &Facts,
    caller: RegistrarNo,
    command: &Command,
    now: Moment,
    policy: &Policy,
) -> Result<Prepared, AllocError>
    ensures { IfOk result (λ prepared. IsPrepared policy.now caller command.now now facts.now
        prepared) }
{
    let decision = decide(alloc, facts, caller, command, now, policy)?;
    Ok(Prepared {
        reply: reply_to(alloc, policy, caller, command, decision.verdict, facts)?,
        changes: decision.changes,
    })
}

/// Makes the changes in an open transaction, and gives the reply.
fn make_prepared<B: Book>(
    book: &mut B,
    prepared: Prepared,
    policy: &Policy,
) -> Result<Reply, BookFault>
    requires { (B.state book.old).is_open ≡ true }
    ensures { Works result (AreChangesMade policy.now prepared.changes prepared.reply) (B.state book.old)
        (B.state book.new) }
{
    let Prepared { reply, changes } = prepared;
    match book.apply(changes, policy) {
        Ok(()) => Ok(reply),
        Err(fault) => {
            drop(reply);
            Err(fault)
        }
    }
}

/// The reply to a verdict, numbered by the caller's own commands.
fn reply_to(
    alloc: Global,
    policy: &Policy,
    caller: RegistrarNo,
    command: &Command,
    verdict: Verdict,
    facts: &Facts,
) -> Result<Reply, AllocError>
    ensures { IfOk result (λ reply. reply ≡ reply_of policy.now caller command.now verdict
        facts.now.account.commands) }
{
    let (cl_trid, sv_trid) = match identifiers(alloc, policy, caller, command, facts) {
        Ok(identifiers) => identifiers,
        Err(error) => {
            drop(verdict);
            return Err(error);
        }
    };
    Ok(Reply {
        cl_trid,
        code: verdict.code,
        content: verdict.content,
        sv_trid,
    })
}

/// The command's own identifier, and the registry's.
fn identifiers(
    alloc: Global,
    policy: &Policy,
    caller: RegistrarNo,
    command: &Command,
    facts: &Facts,
) -> Result<(Option<Text>, SvTrid), AllocError>
    ensures cl_trid { IfOk result (λ it. it.0 ≡ cl_trid_of command.now) }
    ensures sv_trid { IfOk result (λ it. it.1
        ≡ record {
          id = id_of policy.now caller;
          number = saturating_next facts.now.account.commands;
        }) }
{
    let cl_trid = copied(command.cl_trid())?;
    let sv_trid = SvTrid {
        id: id_of(alloc, policy, caller)?,
        number: facts.account.next_command(),
    };
    Ok((cl_trid, sv_trid))
}
