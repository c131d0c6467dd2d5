//! How time passes in an open transaction: what somebody asks for lapses, and all else that is due
//! stays behind the clock until it is asked for or settled.
ghost use Rattle.std.specs.Prelude.{◌≡◌, true};
ghost use Rattle.registry.specs.{Faces.balance_command, Lapsing.with_dues_lapsed};
ghost use Rattle.registry.specs.inner.{Passing.{IsPassed, extent_of}, Steps.Works};
ghost use Rattle.registry.specs.inner.Passing as spec;
ghost use Rattle.books.specs.Book.{BookFinds, BookMakes};

use crate::lapse::lapse_each;
use crate::transaction::move_clock;
use basis::list::Seq;
use basis::registrar::RegistrarNo;
use basis::text::Text;
use books::{Book, BookFault};
use calendar::Moment;
use lifecycle::Due;
use objects::ObjectKind;
use policy::Policy;
use protocol::{Command, Request};
use std::alloc::Global;

/// What lapses before something is done.
#[derive(Clone, Copy, Drop)]
pub(crate) enum Scope<'s> {
    Nothing,
    /// What concerns a registrar's command.
    Command(RegistrarNo, &'s Command),
    /// What concerns a registrar, as its question for the balance does.
    Registrar(RegistrarNo),
    /// What an info of an object concerns.
    Object(ObjectKind, &'s Text),
    /// The same, if there is a name.
    Named(ObjectKind, &'s Option<Text>),
    All,
}

/// Lets time pass up to a moment, lets what is in the scope lapse, and gives the clock.
pub(crate) fn pass<B: Book>(
    book: &mut B,
    alloc: Global,
    scope: &Scope<'_>,
    moment: Moment,
    policy: &Policy,
) -> Result<Moment, BookFault>
    requires { (B.state book.old).is_open ≡ true }
    ensures { Works result (IsPassed policy.now (extent_of scope.now) moment) (B.state book.old)
        (B.state book.new) }
{
    let now = move_clock(book, alloc, moment, policy)?;
    catch_up(book, alloc, scope, now, policy)?;
    Ok(now)
}

/// Lets what is in the scope and due by a moment lapse.
pub(crate) fn catch_up<B: Book>(
    book: &mut B,
    alloc: Global,
    scope: &Scope<'_>,
    moment: Moment,
    policy: &Policy,
) -> Result<(), BookFault>
    requires { (B.state book.old).is_open ≡ true }
    ensures { BookMakes result (with_dues_lapsed policy.now moment (spec.due_in policy.now
        (extent_of scope.now) moment (B.state book.old).content.registry)
        (B.state book.old).content) (B.state book.old) (B.state book.new) }
{
    let due = due_in(book, alloc, scope, moment, policy)?;
    lapse_each(book, alloc, due, moment, policy)
}

/// What is in the scope and due by a moment.
fn due_in<B: Book>(
    book: &mut B,
    alloc: Global,
    scope: &Scope<'_>,
    moment: Moment,
    policy: &Policy,
) -> Result<Seq<Due>, BookFault>
    ensures { BookFinds result (spec.due_in policy.now (extent_of scope.now) moment
        (B.state book.old).content.registry) (B.state book.old) (B.state book.new) }
{
    match *scope {
        Scope::Nothing => Ok(Seq::new(alloc)),
        Scope::Command(caller, command) => book.due_for(Some(caller), command, moment, policy),
        Scope::Registrar(registrar) => {
            book.due_for(Some(registrar), &balance_command(), moment, policy)
        }
        Scope::Object(kind, name) => book.due_at(kind, name, moment, policy),
        Scope::Named(kind, Some(name)) => book.due_at(kind, name, moment, policy),
        Scope::Named(_, None) => Ok(Seq::new(alloc)),
        Scope::All => book.due(moment, None, policy),
    }
}

/// The question for the balance.
fn balance_command() -> Command
    ensures { result ≡ balance_command }
{
    Command::Asked {
        cl_trid: None,
        request: Request::Balance,
    }
}
