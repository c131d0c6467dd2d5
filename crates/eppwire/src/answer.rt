//! What a payload is answered, by who sends it.
ghost use Rattle.std.specs.Prelude.{◌≡◌, Some, None, IfSome};
ghost use Rattle.policy.specs.Rules.{IsRegistrar};
ghost use Rattle.frames.specs.Outcomes.{outcome_of};
ghost use Rattle.eppwire.specs.Answers as spec;
ghost use Rattle.eppwire.specs.Answers.{AnswersCommand, AnswersHello, AnswersRegistrar, AnswersBeforeLogin};

use basis::registrar::RegistrarNo;
use basis::text::Text;
use books::Book;
use calendar::Moment;
use eppcommands::{before_login, in_session};
use eppreplies::{anonymous_reply_bytes, greeting_bytes, reply_bytes};
use frames::Answer;
use policy::{Passwords, Policy};
use protocol::{BeforeLogin, Code, Command, Credentials, InSession, Reply};
use registry::Registry;
use std::alloc::{AllocError, Global};

/// The version of the protocol by which registrars log in.
const VERSION: &str = "1.0";

/// Answers what a registrar sends that is logged in (RFC 5730, 2.4 and 2.6): hello by the greeting, and a
/// command by its reply, the last one after a logout. A call that gives up, or a payload for which there is
/// no memory, is `Failed`, and nothing is changed. A text for which there is no memory is `Lost`, and what
/// was done stays.
pub fn answer_registrar<B: Book + Drop>(
    alloc: Global,
    registry: &mut Registry<B>,
    caller: RegistrarNo,
    payload: &[u8],
    moment: Moment,
) -> Answer
    requires { IsRegistrar registry.old.policy caller }
    ensures answered { AnswersRegistrar registry.old.policy caller payload.now moment
        (B.state registry.old.book) (outcome_of result) (B.state registry.new.book) }
    ensures policy { registry.new.policy ≡ registry.old.policy }
{
    match in_session(alloc, payload) {
        Ok(InSession::Hello) => answer_hello(alloc, registry, moment),
        Ok(InSession::Ordinary(command)) => {
            let answer = answer_command(alloc, registry, caller, &command, moment);
            drop(command);
            answer
        }
        Err(_) => Answer::Failed,
    }
}

/// What a registrar's command is answered.
fn answer_command<B: Book + Drop>(
    alloc: Global,
    registry: &mut Registry<B>,
    caller: RegistrarNo,
    command: &Command,
    moment: Moment,
) -> Answer
    requires { IsRegistrar registry.old.policy caller }
    ensures answered { AnswersCommand registry.old.policy caller command.now moment
        (B.state registry.old.book) (outcome_of result) (B.state registry.new.book) }
    ensures policy { registry.new.policy ≡ registry.old.policy }
{
    match registry.execute(caller, command, moment) {
        Ok(reply) => {
            let answer = reply_answer(alloc, &reply);
            drop(reply);
            answer
        }
        Err(_) => Answer::Failed,
    }
}

/// The reply to a command, which may be the last of its session.
fn reply_answer(alloc: Global, reply: &Reply) -> Answer
    ensures { spec.IsSentOrLost (spec.reply_outcome reply.now) (outcome_of result) }
{
    match reply_bytes(alloc, reply) {
        Ok(text) if is_last(reply.code) => Answer::LastReply(text),
        Ok(text) => Answer::Reply(text),
        Err(_) => Answer::Lost,
    }
}

/// Whether the session ends with the reply.
fn is_last(code: Code) -> bool
    ensures { result ≡ spec.is_last code }
{
    matches!(code, Code::CompletedEndingSession)
}

/// What hello is answered.
fn answer_hello<B: Book + Drop>(alloc: Global, registry: &mut Registry<B>, moment: Moment) -> Answer
    ensures answered { AnswersHello registry.old.policy moment (B.state registry.old.book)
        (outcome_of result) (B.state registry.new.book) }
    ensures policy { registry.new.policy ≡ registry.old.policy }
{
    match registry.greet(moment) {
        Ok(date) => greeting(alloc, date),
        Err(_) => Answer::Failed,
    }
}

fn greeting(alloc: Global, date: Moment) -> Answer
    ensures { spec.IsSentOrLost (spec.greeting_outcome date) (outcome_of result) }
{
    match greeting_bytes(alloc, date) {
        Ok(text) => Answer::Reply(text),
        Err(_) => Answer::Lost,
    }
}

/// What is answered before a registrar is logged in, and who is logged in then.
pub(crate) fn answer_before_login<B: Book + Drop>(
    alloc: Global,
    registry: &mut Registry<B>,
    passwords: &Passwords,
    payload: &[u8],
    moment: Moment,
) -> (Answer, Option<RegistrarNo>)
    ensures answered { AnswersBeforeLogin registry.old.policy passwords.now payload.now moment
        (B.state registry.old.book) (outcome_of result.0) (B.state registry.new.book) result.1 }
    ensures caller { IfSome result.1 (IsRegistrar registry.old.policy) }
    ensures policy { registry.new.policy ≡ registry.old.policy }
{
    match before_login(alloc, payload) {
        Ok(BeforeLogin::Hello) => (answer_hello(alloc, registry, moment), None),
        Ok(
            BeforeLogin::Login {
                cl_trid,
                credentials,
            },
        ) => answer_login(alloc, registry.policy(), passwords, &cl_trid, &credentials),
        Ok(BeforeLogin::Refused { cl_trid, fault }) => {
            (anonymous_answer(alloc, &cl_trid, fault.code()), None)
        }
        Err(_) => (Answer::Failed, None),
    }
}

/// What a login is answered, and who is logged in then.
fn answer_login(
    alloc: Global,
    policy: &Policy,
    passwords: &Passwords,
    cl_trid: &Option<Text>,
    credentials: &Credentials,
) -> (Answer, Option<RegistrarNo>)
    ensures answered { spec.AnswersLogin policy.now passwords.now cl_trid.now credentials.now
        (outcome_of result.0) result.1 }
    ensures caller { IfSome result.1 (IsRegistrar policy.now) }
{
    if !is_our_version(&credentials.version) {
        return (
            anonymous_answer(alloc, cl_trid, Code::UnimplementedVersion),
            None,
        );
    }
    match policy.login(
        passwords,
        credentials.id.as_str(),
        credentials.password.as_str(),
    ) {
        None => (
            anonymous_answer(alloc, cl_trid, Code::AuthenticationError),
            None,
        ),
        Some(caller) => (
            anonymous_answer(alloc, cl_trid, Code::Completed),
            Some(caller),
        ),
    }
}

fn is_our_version(version: &Text) -> bool
    ensures { result ≡ spec.is_our_version version.now }
{
    version.as_str() == VERSION
}

/// A reply for which no command is counted.
fn anonymous_answer(alloc: Global, cl_trid: &Option<Text>, code: Code) -> Answer
    ensures { spec.IsSentOrLost (spec.anonymous_outcome cl_trid.now code) (outcome_of result) }
{
    match anonymous_reply_bytes(alloc, cl_trid, code) {
        Ok(text) => Answer::Reply(text),
        Err(_) => Answer::Lost,
    }
}
