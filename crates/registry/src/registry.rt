//! The registry.
ghost use Rattle.std.specs.Prelude.{◌≡◌, ◌≢◌, ◌<◌, nat_lt, true, false, ◌↔◌};
ghost use Rattle.std.specs.{Prelude.{IfOk, IfErr, Err, Some}, Coded.codes};
ghost use Rattle.std.proofs.Props.{props};
ghost use Rattle.basis.specs.Sets.{names_code};
ghost use Rattle.policy.specs.{Rules.{IsRegistrar, IsSound}, Terms.terms_of};
ghost use Rattle.isolation.specs.Runs as two_runs;
ghost use Rattle.registry.specs.Calls.{CallKeeps, IsOpenedAs, IsRefused, LooksUpKeeping, StepKeeps};
ghost use Rattle.registry.specs.Crashes.{Makes};
ghost use Rattle.registry.specs.Execution.{Fails, Greets, Isolates, OrderSteps, Settles, Steps};
ghost use Rattle.registry.specs.Execution.{IsBacklog, ShowsBacklog, last_call};
ghost use Rattle.registry.specs.Execution.{IsGreetingStep, IsOrderStep, IsSettlement, IsStep};
ghost use Rattle.registry.specs.Faces.{IsLookUp, LooksUp, lapsing_all, lapsing_at, lapsing_of};
ghost use Rattle.registry.specs.{inner.Passing.lapsing, Opening.{KeepsLengths, OpensAsItWas}};
ghost use Rattle.registry.specs.Sound.{BeginAfter-prop};
ghost use Rattle.objects.specs.declared.roid.ObjectKind.TheVariants as kinds;
ghost use Rattle.model.specs.{Registry.account_of, Zone.zone_data};
ghost use Rattle.books.specs.Faces.{contact_face_at, domain_face_at, host_face_at};

use crate::askable::show_can_be_asked;
use crate::backlog::{Backlog, BacklogWork};
use crate::command::CommandWork;
use crate::faces::{ContactAt, LinesOf, LookUp, LookUpWork, Zoned};
use crate::fault::{Fault, OpenFault};
use crate::greeting::GreetingWork;
use crate::opening::open_in;
use crate::order::OrderWork;
use crate::settlement::SettlementWork;
use crate::work::{Work, keep};
use accounts::Lines;
use basis::registrar::RegistrarNo;
use basis::text::Text;
use books::Book;
use calendar::Moment;
use names::{DomainName, HostName};
use objects::{ContactFace, DomainFace, HostFace, ZoneData};
use policy::Policy;
use protocol::{Code, Command, Order, Reply};
use std::alloc::Global;

/// The latest moment at which a call is taken: 2099-12-31T23:59:59Z.
pub const LAST_CALL: u64 = 4_102_444_799;

/// Whether no call is taken at the moment any more.
fn is_late(moment: Moment) -> bool
    ensures { result ≡ nat_lt LAST_CALL moment }
{
    moment.secs() > LAST_CALL as i64
}

/// A registry over a book, run by a policy.
#[derive(Drop)]
pub struct Registry<B: Book> {
    book: B,
    policy: Policy,
    alloc: Global,
    ghost sound: { IsSound policy } by { Prim.hlevel (props, BeginAfter-prop) },
    ghost idle: { (B.state book).is_open ≡ false },
    ghost kept: { (B.state book).is_clean ≡ true
        → (B.state book).content.terms ≡ Some (terms_of policy) } by { Prim.hlevel (codes, names_code) },
}

impl<B: Book + Drop> Registry<B> {
    /// Opens a book under a policy, and the accounts of the registrars that have none yet. A book
    /// is refused if it was used under another zone, reserved labels, lengths of periods or prices,
    /// or if its registrars aren't the first of the policy (`OpenFault::Policy`). What isn't a book
    /// of this form is refused too (`OpenFault::Schema`). Tables of lengths may have been added after
    /// the earlier ones, if each begins later than the book's clock. What is refused is given back as
    /// it was. Each period that began by the clock keeps its length, and the registry is now what it
    /// was under the earlier policy. A new book, or one of a well formed registry, is opened as a
    /// well formed registry.
    pub fn open(alloc: Global, book: B, policy: Policy) -> Result<Registry<B>, (OpenFault, B)>
        requires { (B.state book).is_open ≡ false }
        ensures opened { IfOk result (λ registry. IsOpenedAs policy registry.policy (B.state book)
            (B.state registry.book)) }
        ensures lengths { IfOk result (λ registry. (B.state registry.book).is_clean ≡ true
            → KeepsLengths policy (B.state book).content) }
        ensures same { IfOk result (λ registry. (B.state registry.book).is_clean ≡ true
            → OpensAsItWas policy (B.state book).content (B.state registry.book).content) }
        ensures refused { IfErr result (λ refusal. IsRefused refusal.0 policy (B.state book)
            (B.state refusal.1)) }
    {
        let mut book = book;
        policy.show_sound();
        match open_in(&mut book, alloc, &policy) {
            Ok(()) => Ok(Registry {
                book,
                policy,
                alloc,
            }),
            Err(fault) => Err((fault, book)),
        }
    }

    /// The policy that it is run by.
    pub fn policy(&self) -> &Policy
        ensures { result.now ≡ self.now.policy }
    {
        &self.policy
    }

    /// Gives the book back, as it is.
    pub fn into_book(self) -> B
        ensures { result ≡ self.book }
    {
        self.book
    }

    /// Answers a registrar's command at a moment; one before the clock counts as the clock.
    ///
    /// The reply, and what the registrar sees afterwards, are those in every registry that the
    /// registrar can't tell from this one. A well formed registry stays well formed.
    #[tactic(auto, using(crate::proofs::CallsKept::kept_late))]
    pub fn execute(
        &mut self,
        caller: RegistrarNo,
        command: &Command,
        moment: Moment,
    ) -> Result<Reply, Fault>
        requires { IsRegistrar self.old.policy caller }
        ensures step { IfOk result (λ reply. Steps self.old.policy caller command.now moment reply
            (B.state self.old.book) (B.state self.new.book)) }
        ensures isolation { IfOk result (λ reply. Isolates self.old.policy caller command.now moment
            reply (B.state self.old.book) (B.state self.new.book)) }
        ensures fault { IfErr result (λ fault. Fails fault (B.state self.old.book)
            (B.state self.new.book)) }
        ensures keeps { CallKeeps self.old.policy moment (two_runs.command caller command.now)
            two_runs.reply (Makes (IsStep self.old.policy caller command.now moment)) result
            self.new.policy (B.state self.old.book) (B.state self.new.book) }
        ensures late { (result ≡ Err Fault.Moment) ↔ (last_call < moment) }
    {
        if is_late(moment) {
            return Err(Fault::Moment);
        }
        show_can_be_asked(command);
        self.transact(&CommandWork {
            caller,
            command,
            moment,
        })
    }

    /// Carries out an order of the operator at a moment; one before the clock counts as the clock.
    /// The code is `ParameterRange` if the cents of a deposit aren't 1 to 10^12, and `ObjectMissing`
    /// if there is no such registrar or object or the name doesn't read. It is `StatusProhibits` if
    /// the deletion or transfer that a status prohibits has begun, `ParameterPolicy` if a status is
    /// amiss, and else `Completed`.
    #[tactic(auto, using(crate::proofs::CallsKept::kept_late, crate::proofs::Answering::order_kept))]
    pub fn operator(&mut self, order: &Order, moment: Moment) -> Result<Code, Fault>
        ensures step { IfOk result (λ code. OrderSteps self.old.policy order.now moment code
            (B.state self.old.book) (B.state self.new.book)) }
        ensures fault { IfErr result (λ fault. Fails fault (B.state self.old.book)
            (B.state self.new.book)) }
        ensures keeps { CallKeeps self.old.policy moment (two_runs.order order.now) two_runs.code
            (Makes (IsOrderStep self.old.policy order.now moment)) result
            self.new.policy (B.state self.old.book) (B.state self.new.book) }
        ensures late { (result ≡ Err Fault.Moment) ↔ (last_call < moment) }
    {
        if is_late(moment) {
            return Err(Fault::Moment);
        }
        self.transact(&OrderWork { order, moment })
    }

    /// Answers hello at a moment with the server's date (RFC 5730, 2.4), which is the clock; a
    /// moment before the clock counts as the clock. Nobody's command is counted. A well formed
    /// registry stays well formed.
    #[tactic(auto, using(crate::proofs::CallsKept::kept_late, crate::proofs::Answering::greeting_kept))]
    pub fn greet(&mut self, moment: Moment) -> Result<Moment, Fault>
        ensures step { IfOk result (λ date. Greets self.old.policy moment date
            (B.state self.old.book) (B.state self.new.book)) }
        ensures fault { IfErr result (λ fault. Fails fault (B.state self.old.book)
            (B.state self.new.book)) }
        ensures keeps { CallKeeps self.old.policy moment two_runs.date two_runs.dated
            (Makes (IsGreetingStep self.old.policy moment)) result
            self.new.policy (B.state self.old.book) (B.state self.new.book) }
        ensures late { (result ≡ Err Fault.Moment) ↔ (last_call < moment) }
    {
        if is_late(moment) {
            return Err(Fault::Moment);
        }
        self.transact(&GreetingWork { moment })
    }

    /// Lets the first so many objects lapse that are due by a moment: by due moment, contacts
    /// first, by name. It gives how many they were. A moment before the clock counts as the clock.
    /// No other call can tell later whether it was done.
    #[tactic(auto, using(crate::proofs::CallsKept::kept_late, crate::proofs::Answering::settlement_kept))]
    pub fn settle(&mut self, moment: Moment, at_most: u32) -> Result<u32, Fault>
        ensures step { IfOk result (λ done. Settles self.old.policy moment at_most done
            (B.state self.old.book) (B.state self.new.book)) }
        ensures fault { IfErr result (λ fault. Fails fault (B.state self.old.book)
            (B.state self.new.book)) }
        ensures keeps { LooksUpKeeping self.old.policy moment
            (Makes (IsSettlement self.old.policy moment at_most)) result
            self.new.policy (B.state self.old.book) (B.state self.new.book) }
        ensures late { (result ≡ Err Fault.Moment) ↔ (last_call < moment) }
    {
        if is_late(moment) {
            return Err(Fault::Moment);
        }
        self.transact(&SettlementWork { moment, at_most })
    }

    /// How many objects are due by a moment that haven't lapsed yet, and the clock; one moment before the clock counts
    /// as the clock. No time passes, and nothing else is done.
    pub fn backlog(&mut self, moment: Moment) -> Result<Backlog, Fault>
        ensures step { IfOk result (λ found. ShowsBacklog self.old.policy moment found
            (B.state self.old.book) (B.state self.new.book)) }
        ensures fault { IfErr result (λ fault. Fails fault (B.state self.old.book)
            (B.state self.new.book)) }
        ensures keeps { StepKeeps self.old.policy (Makes (IsBacklog self.old.policy moment)) result
            self.new.policy (B.state self.old.book) (B.state self.new.book) }
    {
        self.transact(&BacklogWork { moment })
    }

    /// What everyone may know of the domain under a name at a moment; a moment before the clock
    /// counts as the clock. Time passes as in every call, and nothing else is done.
    pub fn domain_face(
        &mut self,
        name: &DomainName,
        moment: Moment,
    ) -> Result<Option<DomainFace>, Fault>
        ensures step { IfOk result (λ found. LooksUp self.old.policy
            (λ s. domain_face_at self.old.policy s name.now)
            (lapsing_at self.old.policy kinds.Domain name.now) moment found
            (B.state self.old.book) (B.state self.new.book)) }
        ensures fault { IfErr result (λ fault. Fails fault (B.state self.old.book)
            (B.state self.new.book)) }
        ensures keeps { LooksUpKeeping self.old.policy moment
            (Makes (IsLookUp self.old.policy (λ s. domain_face_at self.old.policy s name.now)
            (lapsing_at self.old.policy kinds.Domain name.now) moment)) result
            self.new.policy (B.state self.old.book) (B.state self.new.book) }
        ensures late { (result ≡ Err Fault.Moment) ↔ (last_call < moment) }
    {
        self.look_up(name, moment)
    }

    /// The same of the host under a name.
    pub fn host_face(&mut self, name: &HostName, moment: Moment) -> Result<Option<HostFace>, Fault>
        ensures step { IfOk result (λ found. LooksUp self.old.policy
            (λ s. host_face_at self.old.policy s name.now)
            (lapsing_at self.old.policy kinds.Host name.now) moment found
            (B.state self.old.book) (B.state self.new.book)) }
        ensures fault { IfErr result (λ fault. Fails fault (B.state self.old.book)
            (B.state self.new.book)) }
        ensures keeps { LooksUpKeeping self.old.policy moment
            (Makes (IsLookUp self.old.policy (λ s. host_face_at self.old.policy s name.now)
            (lapsing_at self.old.policy kinds.Host name.now) moment)) result
            self.new.policy (B.state self.old.book) (B.state self.new.book) }
        ensures late { (result ≡ Err Fault.Moment) ↔ (last_call < moment) }
    {
        self.look_up(name, moment)
    }

    /// The same of the contact under a name, which shows whether it is linked.
    pub fn contact_face(
        &mut self,
        name: &Text,
        moment: Moment,
    ) -> Result<Option<ContactFace>, Fault>
        ensures step { IfOk result (λ found. LooksUp self.old.policy
            (λ s. contact_face_at s name.now)
            (lapsing_at self.old.policy kinds.Contact name.now) moment found
            (B.state self.old.book) (B.state self.new.book)) }
        ensures fault { IfErr result (λ fault. Fails fault (B.state self.old.book)
            (B.state self.new.book)) }
        ensures keeps { LooksUpKeeping self.old.policy moment
            (Makes (IsLookUp self.old.policy (λ s. contact_face_at s name.now)
            (lapsing_at self.old.policy kinds.Contact name.now) moment)) result
            self.new.policy (B.state self.old.book) (B.state self.new.book) }
        ensures late { (result ≡ Err Fault.Moment) ↔ (last_call < moment) }
    {
        self.look_up(&ContactAt(name), moment)
    }

    /// What a zone has at a moment; a moment before the clock counts as the clock. All that is due
    /// lapses first.
    pub fn zone_data(&mut self, moment: Moment) -> Result<ZoneData, Fault>
        ensures step { IfOk result (λ found. LooksUp self.old.policy
            (zone_data self.old.policy.zone) (lapsing_all self.old.policy) moment found
            (B.state self.old.book) (B.state self.new.book)) }
        ensures fault { IfErr result (λ fault. Fails fault (B.state self.old.book)
            (B.state self.new.book)) }
        ensures keeps { LooksUpKeeping self.old.policy moment
            (Makes (IsLookUp self.old.policy (zone_data self.old.policy.zone)
            (lapsing_all self.old.policy) moment)) result
            self.new.policy (B.state self.old.book) (B.state self.new.book) }
        ensures late { (result ≡ Err Fault.Moment) ↔ (last_call < moment) }
    {
        self.look_up(&Zoned, moment)
    }

    /// The lines of a registrar's account at a moment: none where it was never opened. What
    /// concerns the registrar lapses first, as for its question for the balance, so the charges of
    /// all that fell due by then are among them.
    pub fn lines(&mut self, registrar: RegistrarNo, moment: Moment) -> Result<Lines, Fault>
        ensures step { IfOk result (λ found. LooksUp self.old.policy
            (λ s. (account_of registrar s).lines) (lapsing_of self.old.policy registrar)
            moment found (B.state self.old.book) (B.state self.new.book)) }
        ensures fault { IfErr result (λ fault. Fails fault (B.state self.old.book)
            (B.state self.new.book)) }
        ensures keeps { LooksUpKeeping self.old.policy moment
            (Makes (IsLookUp self.old.policy (λ s. (account_of registrar s).lines)
            (lapsing_of self.old.policy registrar) moment)) result
            self.new.policy (B.state self.old.book) (B.state self.new.book) }
        ensures late { (result ≡ Err Fault.Moment) ↔ (last_call < moment) }
    {
        self.look_up(&LinesOf(registrar), moment)
    }

    /// Looks something up at a moment, in a transaction of its own.
    #[tactic(auto, using(crate::proofs::CallsKept::kept_late, crate::proofs::Answering::look_up_kept))]
    fn look_up<L: LookUp>(&mut self, what: &L, moment: Moment) -> Result<L::Found, Fault>
        ensures step { IfOk result (λ found. LooksUp self.old.policy
            (L.finds what.now self.old.policy) (lapsing self.old.policy (L.awaits what.now)) moment
            found (B.state self.old.book) (B.state self.new.book)) }
        ensures fault { IfErr result (λ fault. Fails fault (B.state self.old.book)
            (B.state self.new.book)) }
        ensures keeps { LooksUpKeeping self.old.policy moment
            (Makes (IsLookUp self.old.policy (L.finds what.now self.old.policy)
            (lapsing self.old.policy (L.awaits what.now)) moment)) result
            self.new.policy (B.state self.old.book) (B.state self.new.book) }
        ensures late { (result ≡ Err Fault.Moment) ↔ (last_call < moment) }
    {
        if is_late(moment) {
            return Err(Fault::Moment);
        }
        self.transact(&LookUpWork { what, moment })
    }

    /// Does the work of a call in a transaction of its own, and keeps what it did.
    #[tactic(auto, using(crate::proofs::CallsKept::step_gave_up))]
    fn transact<W: Work>(&mut self, work: &W) -> Result<W::Answer, Fault>
        ensures step { IfOk result (λ answer. (B.state self.new.book).is_clean ≡ true
            → W.step work.now self.old.policy (B.state self.old.book).content.registry
            (B.state self.new.book).content.registry answer) }
        ensures fault { IfErr result (λ fault. Fails fault (B.state self.old.book)
            (B.state self.new.book)) }
        ensures keeps { StepKeeps self.old.policy (Makes (W.step work.now self.old.policy)) result
            self.new.policy (B.state self.old.book) (B.state self.new.book) }
        ensures early { result ≢ Err Fault.Moment }
    {
        self.book.begin()?;
        match keep(&mut self.book, self.alloc, work, &self.policy) {
            Ok(answer) => Ok(answer),
            Err(fault) => Err(Fault::from(fault)),
        }
    }
}
