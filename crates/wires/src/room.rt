//! Connections that wait for their turn.
ghost use Rattle.std.specs.Prelude.{◌≡◌, ◌<◌, true, false, length, Bool, IfSome, ⊤};
ghost use Rattle.wires.specs.declared.room.Next.{Next};
ghost use Rattle.wires.specs.inner.Lateness as lateness;
ghost use Rattle.wires.specs.inner.Rooms as spec;

use crate::limits::has_passed;
use crate::turn::{Port, Turn};
use mio::unix::SourceFd;
use mio::{Interest, Registry, Token};
use std::alloc::Global;
use std::cell::Cell;
use std::io::{self, ErrorKind};
use std::net::{TcpListener, TcpStream};
use std::os::fd::AsRawFd;
use std::time::Duration;

/// How many connections wait at most.
const MOST_WAITING: usize = 256;

/// How many come in at once at most.
const MOST_ENTERING: usize = 1_024;

/// What waits, and tells whether a turn could come now. Contracts see what it may tell.
pub(crate) trait Waits {
    ghost Tells: { Self → Bool → Type 0 };

    fn is_ready(&self) -> bool
        ensures { Tells self.now result };
}

/// What has connections wait, and says what is to be done next. Contracts see what it may say.
pub(crate) trait Gives {
    ghost Says: { Self → Next → Type 0 };

    /// Lets in who came, and says what is to be done next.
    fn next(&self, now: Duration) -> Next
        ensures { Says self.now result };
}

/// Where guests come in. Contracts see who may come.
trait Accepts<W> {
    ghost Comes: { Self → W → Type 0 };

    /// Who comes next.
    fn accept(&self, now: Duration) -> Guest<W>
        ensures { spec.IsGuestOf (Comes self.now) result };
}

/// Who comes next.
#[derive(Drop)]
enum Guest<W> {
    One(W),
    /// One that is gone already, or can't be watched.
    Gone,
    /// All that came are in.
    Nobody,
    /// For want of a descriptor or of memory nobody can come in.
    Want,
    /// No connection can be accepted any more.
    Fault,
}

/// A connection that waits, and since when.
#[derive(Drop)]
struct Waiting {
    stream: TcpStream,
    came: Duration,
}

impl Waits for Waiting {
    ghost Tells = { λ waiting is_ready. ⊤ };

    /// Whether a first byte is there, or no byte will come any more.
    fn is_ready(&self) -> bool {
        let mut first = [0u8; 1];
        match self.stream.peek(&mut first) {
            Ok(_) => true,
            Err(error) => !is_passing(error.kind()),
        }
    }
}

/// What is to be done next.
#[derive(Drop)]
pub(crate) enum Next {
    /// To serve this connection.
    Turn(Turn),
    /// To wait until somebody comes.
    Nobody,
    /// To wait until a descriptor or memory is given back.
    Want,
    /// Nothing: no connection can be accepted any more.
    Fault,
}

/// How letting connections in ended.
#[derive(Clone, Copy)]
enum Entered {
    /// All that came are in, or as many as there is room for.
    All,
    /// For want of a descriptor or of memory.
    Want,
    /// No connection can be accepted any more.
    Fault,
}

/// Connections that wait for their turn, which comes with their first byte. Silent ones are let go after a
/// while, and the oldest of them where the room is full.
#[derive(Drop)]
pub struct Room<'l> {
    alloc: Global,
    port: Port,
    listener: &'l TcpListener,
    registry: &'l Registry,
    first: Duration,
    waiting: Cell<Vec<Waiting>>,
}

impl<'l> Room<'l> {
    pub fn new(
        alloc: Global,
        port: Port,
        listener: &'l TcpListener,
        registry: &'l Registry,
        first: Duration,
    ) -> Room<'l> {
        Room {
            alloc,
            port,
            listener,
            registry,
            first,
            waiting: Cell::new(Vec::new(alloc)),
        }
    }

    /// How many wait.
    pub(crate) fn count(&self) -> usize {
        let waiting = self.waiting.replace(Vec::new(self.alloc));
        let count = waiting.len();
        self.waiting.set(waiting);
        count
    }

    /// Lets in who came.
    pub(crate) fn let_in(&self, now: Duration) {
        let mut waiting = self.waiting.replace(Vec::new(self.alloc));
        let _entered = self.seat_all(&mut waiting, now);
        self.waiting.set(waiting);
    }

    /// The same, and those whose time is over go.
    fn seat_all(&self, waiting: &mut Vec<Waiting>, now: Duration) -> Entered {
        let first = self.first;
        waiting.retain(|it| may_wait(it, it.came, first, now));
        seat_guests(self, waiting, now)
    }

    /// Has the system tell when a byte of a connection comes.
    fn watch(&self, stream: &TcpStream) -> io::Result<()> {
        stream.set_nonblocking(true)?;
        let number = stream.as_raw_fd();
        self.registry
            .register(&mut SourceFd(&number), Token(0), Interest::READABLE)
    }
}

impl Accepts<Waiting> for Room<'_> {
    ghost Comes = { λ room waiting. ⊤ };

    /// A connection that can't be watched is let go.
    fn accept(&self, now: Duration) -> Guest<Waiting> {
        match self.listener.accept() {
            Ok((stream, _)) => match self.watch(&stream) {
                Ok(()) => Guest::One(Waiting { stream, came: now }),
                Err(_) => Guest::Gone,
            },
            Err(error) => guest_of(error.kind(), error.raw_os_error()),
        }
    }
}

impl Gives for Room<'_> {
    ghost Says = { λ room next. ⊤ };

    fn next(&self, now: Duration) -> Next {
        let mut waiting = self.waiting.replace(Vec::new(self.alloc));
        let entered = self.seat_all(&mut waiting, now);
        let taken = take_ready(&mut waiting);
        self.waiting.set(waiting);
        turn_of(self.port, taken, entered, now)
    }
}

impl Waits for Room<'_> {
    ghost Tells = { λ room is_ready. ⊤ };

    /// Whether somebody's turn could come.
    fn is_ready(&self) -> bool {
        let waiting = self.waiting.replace(Vec::new(self.alloc));
        let is_ready = ready_place(&waiting).is_some();
        self.waiting.set(waiting);
        is_ready
    }
}

/// What is to be done next, where this one's turn could come or nobody's.
fn turn_of(port: Port, taken: Option<Waiting>, entered: Entered, now: Duration) -> Next
    ensures { spec.IsTurnOf port taken entered now result }
{
    match taken {
        Some(Waiting { stream, came }) => Next::Turn(Turn {
            port,
            stream,
            waited: now.saturating_sub(came),
        }),
        None => next_of(entered),
    }
}

fn next_of(entered: Entered) -> Next
    ensures { result ≡ spec.next_of entered }
{
    match entered {
        Entered::All => Next::Nobody,
        Entered::Want => Next::Want,
        Entered::Fault => Next::Fault,
    }
}

/// Whether one that came then may wait on.
fn may_wait<W: Waits>(waiting: &W, came: Duration, first: Duration, now: Duration) -> bool
    ensures { spec.MayWait W.Tells waiting.now (lateness.has_passed first came now) result }
{
    !has_passed(first, came, now) || waiting.is_ready()
}

/// The place of the first one whose turn can come.
fn ready_place<W: Waits>(waiting: &[W]) -> Option<usize>
    ensures { spec.IsFirst W.Tells true false waiting.now result }
{
    waiting.iter().position(|it| it.is_ready())
}

/// Takes the first one whose turn can come.
#[tactic(auto, using(crate::proofs::RoomLemmas::within))]
fn take_ready<W: Waits>(waiting: &mut Vec<W>) -> Option<W>
    ensures { spec.TakesFirst W.Tells true false waiting.old.items waiting.new.items result }
{
    let place = ready_place(waiting);
    take_at(waiting, place)
}

/// Takes the oldest one of which no byte came.
#[tactic(auto, using(crate::proofs::RoomLemmas::within))]
fn take_silent<W: Waits>(waiting: &mut Vec<W>) -> Option<W>
    ensures { spec.TakesFirst W.Tells false true waiting.old.items waiting.new.items result }
{
    let place = silent_place(waiting);
    take_at(waiting, place)
}

/// Takes the one at a place.
fn take_at<W>(waiting: &mut Vec<W>, place: Option<usize>) -> Option<W>
    requires { IfSome place (λ i. i < length waiting.old.items) }
    ensures taken { result ≡ spec.taken_at waiting.old.items place }
    ensures left { waiting.new.items ≡ spec.left_at waiting.old.items place }
{
    match place {
        Some(place) => Some(waiting.remove(place)),
        None => None,
    }
}

/// Seats who comes, while there is room or something silent can go.
#[tactic(auto, using(crate::proofs::RoomLemmas::seats_same))]
fn seat_guests<W: Waits + Drop, A: Accepts<W>>(
    guests: &A,
    waiting: &mut Vec<W>,
    now: Duration,
) -> Entered
    ensures { spec.Seats W.Tells (A.Comes guests.now) waiting.old.items waiting.new.items }
{
    'guests: for _ in 0..MOST_ENTERING {
        if let Some(entered) = seat_next(guests, waiting, now) {
            return entered;
        }
    }
    Entered::All
}

/// Seats who comes next. Answers how letting in ended, if it did.
#[tactic(auto, using(crate::proofs::RoomLemmas::seats_left))]
fn seat_next<W: Waits + Drop, A: Accepts<W>>(
    guests: &A,
    waiting: &mut Vec<W>,
    now: Duration,
) -> Option<Entered>
    ensures { spec.Seats W.Tells (A.Comes guests.now) waiting.old.items waiting.new.items }
{
    if !has_room(waiting) {
        return Some(Entered::All);
    }
    match guests.accept(now) {
        Guest::One(guest) => {
            let _ = waiting.push(guest);
            None
        }
        Guest::Gone => None,
        Guest::Nobody => Some(Entered::All),
        Guest::Want if let_go_oldest_silent(waiting) => None,
        Guest::Want => Some(Entered::Want),
        Guest::Fault => Some(Entered::Fault),
    }
}

/// Whether one more may wait, for whom the oldest silent one goes where the room is full.
#[tactic(auto, using(crate::proofs::RoomLemmas::left_same))]
fn has_room<W: Waits + Drop>(waiting: &mut Vec<W>) -> bool
    ensures { spec.AreLeft W.Tells waiting.old.items waiting.new.items }
{
    waiting.len() < MOST_WAITING || let_go_oldest_silent(waiting)
}

/// What is known of who comes next where accepting failed so, with the system's number of it.
fn guest_of<W>(kind: ErrorKind, number: Option<i32>) -> Guest<W>
    ensures { result ≡ spec.guest_of kind number }
{
    if is_nobody(kind) {
        Guest::Nobody
    } else if is_of_one_connection(kind) {
        Guest::Gone
    } else if is_want(number) {
        Guest::Want
    } else {
        Guest::Fault
    }
}

/// Lets the oldest one go of which no byte came. Answers whether there was one.
fn let_go_oldest_silent<W: Waits + Drop>(waiting: &mut Vec<W>) -> bool
    ensures { spec.LetsGoSilent W.Tells waiting.old.items waiting.new.items result }
{
    let gone = take_silent(waiting);
    gone.is_some()
}

/// The place of the oldest one of which no byte came.
fn silent_place<W: Waits>(waiting: &[W]) -> Option<usize>
    ensures { spec.IsFirst W.Tells false true waiting.now result }
{
    waiting.iter().position(|it| !it.is_ready())
}

/// Whether a call that failed so may be made again.
pub(crate) fn is_passing(kind: ErrorKind) -> bool
    ensures { result ≡ spec.is_retryable kind }
{
    matches!(kind, ErrorKind::WouldBlock | ErrorKind::Interrupted)
}

/// Whether accepting failed since nobody else came.
fn is_nobody(kind: ErrorKind) -> bool
    ensures { result ≡ spec.is_nobody kind }
{
    matches!(kind, ErrorKind::WouldBlock)
}

/// Whether a fault of accepting concerns one connection alone.
fn is_of_one_connection(kind: ErrorKind) -> bool
    ensures { result ≡ spec.is_of_one_connection kind }
{
    matches!(kind, ErrorKind::ConnectionAborted | ErrorKind::Interrupted)
}

/// Whether a fault of accepting, by Linux's number of it, is want of what others may give back: of memory
/// (`ENOMEM`, `ENOBUFS`), or of descriptors, in the system (`ENFILE`) or in this process (`EMFILE`).
fn is_want(number: Option<i32>) -> bool
    ensures { result ≡ spec.is_want number }
{
    matches!(number, Some(12 | 23 | 24 | 105))
}
