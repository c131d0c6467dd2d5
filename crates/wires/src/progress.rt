//! The state of a connection, by the bytes that came and went.
ghost use Rattle.std.specs.{Prelude.{◌≡◌, ◌-◌, ◌||◌, take}, List.fold, Duration.as_nanos};
ghost use Rattle.wires.specs.inner.Lateness as spec;
ghost use Rattle.wires.specs.inner.Progress as states;

use crate::limits::{Limits, has_passed};
use crate::replies::code_of;
use std::time::Duration;

/// The bytes of a frame's length.
const HEADER: usize = 4;

/// The code of a reply to a login that opens a session.
const COMPLETED: u16 = 1_000;

/// How much of a frame was moved: its bytes so far, and its length as far as it came.
#[derive(Clone, Copy)]
struct Part {
    count: usize,
    total: u32,
}

impl Part {
    fn none() -> Part
        ensures { result ≡ states.no_part }
    {
        Part { count: 0, total: 0 }
    }

    /// Counts bytes of one frame, and answers whether they make it whole.
    fn moves(&mut self, bytes: &[u8]) -> bool
        ensures part { self.new ≡ states.with_bytes_moved self.old bytes.now }
        ensures complete { result ≡ states.is_whole self.new }
    {
        self.total = total_of(
            self.total,
            front_of(bytes, HEADER.saturating_sub(self.count)),
        );
        self.count = self.count.saturating_add(bytes.len());
        self.count >= HEADER && self.count >= self.total as usize
    }
}

/// So many bytes from the front on.
pub(crate) fn front_of(bytes: &[u8], most: usize) -> &[u8]
    ensures { result.now ≡ take most bytes.now }
{
    &bytes[..most.min(bytes.len())]
}

/// A length with more bytes of its number.
fn total_of(total: u32, bytes: &[u8]) -> u32
    ensures { result ≡ fold states.with_byte total bytes.now }
{
    bytes.iter().fold(total, |total, byte| {
        total.wrapping_mul(256).wrapping_add(u32::from(*byte))
    })
}

/// What a connection is about.
#[derive(Clone, Copy, PartialEq, Eq)]
enum Phase {
    /// Its first byte is waited for.
    First,
    /// A frame is coming.
    Frame,
    /// A frame is whole, or a reply is going.
    Reply,
    /// A reply went, and the next frame is waited for.
    Pause,
    /// The head of a request is coming.
    Head,
    /// Its answer is going.
    Answer,
}

impl Phase {
    /// How long it may last, where others wait or none does.
    fn limit(self, limits: &Limits, is_awaited: bool) -> Duration
        ensures { result ≡ spec.limit_of self limits.now is_awaited }
    {
        match self {
            Phase::First => limits.first,
            Phase::Head => limits.head,
            Phase::Frame => limits.frame,
            Phase::Pause => limits.pause,
            Phase::Reply | Phase::Answer if is_awaited => limits.still,
            Phase::Reply | Phase::Answer => limits.pause,
        }
    }

    /// Whether a session is late in it that nobody has logged in to.
    fn needs_login(self) -> bool
        ensures { result ≡ spec.needs_login self }
    {
        matches!(self, Phase::Frame | Phase::Pause)
    }

    fn is_pause(self) -> bool
        ensures { result ≡ spec.is_pause self }
    {
        matches!(self, Phase::Pause)
    }
}

/// What begins with bytes that are to go. They are all of it, since a reply and an answer go in one piece.
#[derive(Clone, Copy)]
pub(crate) enum Given {
    /// The payload of a reply.
    Reply,
    /// An answer over HTTP.
    Answer,
    /// Nothing: they are a length, or more of what was begun.
    Part,
}

/// The state of a connection.
#[derive(Clone, Copy)]
pub(crate) struct Progress {
    phase: Phase,
    /// How much of the frame that is coming, or of the reply that is going, was moved.
    part: Part,
    /// When its turn began, its phase, and when its last byte was moved.
    began: Duration,
    since: Duration,
    moved: Duration,
    /// When its last frame was whole, or its head began.
    asked: Duration,
    is_logged_in: bool,
    /// Whether it took longer than it may, as it was looked at.
    is_late: bool,
}

impl Progress {
    /// That of a connection whose turn begins.
    pub fn begun(now: Duration) -> Progress
        ensures { result ≡ states.first_progress now }
    {
        Progress {
            phase: Phase::First,
            part: Part::none(),
            began: now,
            since: now,
            moved: now,
            asked: now,
            is_logged_in: false,
            is_late: false,
        }
    }

    fn turn_to(&mut self, phase: Phase, now: Duration)
        ensures { self.new ≡ states.turned_to phase now self.old }
    {
        self.phase = phase;
        self.part = Part::none();
        self.since = now;
    }

    /// These bytes came.
    pub fn take(&mut self, bytes: &[u8], now: Duration)
        ensures { self.new ≡ states.received self.old bytes.now now }
    {
        self.moved = now;
        match self.phase {
            Phase::Head | Phase::Answer => {}
            Phase::First if begins_head(bytes) => self.turn_to(Phase::Head, now),
            Phase::Frame => self.take_frame(bytes, now),
            Phase::First | Phase::Reply | Phase::Pause => {
                self.turn_to(Phase::Frame, now);
                self.take_frame(bytes, now);
            }
        }
    }

    /// These bytes of a frame came.
    fn take_frame(&mut self, bytes: &[u8], now: Duration)
        ensures { self.new ≡ states.with_frame self.old bytes.now now }
    {
        if self.part.moves(bytes) {
            self.turn_to(Phase::Reply, now);
            self.asked = now;
        }
    }

    /// These bytes are to go, and answers what begins with them. What it took to make a reply counts for nobody.
    pub fn give(&mut self, bytes: &[u8], now: Duration) -> Given
        ensures given { result ≡ spec.given_in self.old.phase self.old.part.count }
        ensures state { self.new ≡ states.giving self.old bytes.now now }
    {
        if self.phase == Phase::Answer {
            return Given::Part;
        }
        if self.phase == Phase::Head {
            self.asked = self.since;
            self.begin(Phase::Answer, now);
            return Given::Answer;
        }
        if self.part.count == 0 || self.phase != Phase::Reply {
            self.begin(Phase::Reply, now);
            return Given::Part;
        }
        if self.part.count != HEADER {
            return Given::Part;
        }
        self.begin_payload(bytes);
        Given::Reply
    }

    /// A reply with this payload begins to go, by which somebody may be logged in.
    fn begin_payload(&mut self, reply: &[u8])
        ensures { self.new ≡ states.with_reply reply.now self.old }
    {
        self.is_logged_in = self.is_logged_in || code_of(reply) == Some(COMPLETED);
    }

    /// A reply or an answer begins to go.
    fn begin(&mut self, phase: Phase, now: Duration)
        ensures { self.new ≡ states.begun phase now self.old }
    {
        self.turn_to(phase, now);
        self.moved = now;
    }

    /// How long it took until a reply began to go.
    pub fn answering(&self, now: Duration) -> Duration
        ensures { as_nanos result ≡ as_nanos now - as_nanos self.now.asked }
    {
        now.saturating_sub(self.asked)
    }

    /// Whether a frame or a head is coming.
    pub fn is_asked(&self) -> bool
        ensures { result ≡ spec.is_asked self.now.phase }
    {
        matches!(self.phase, Phase::Frame | Phase::Head)
    }

    /// So many of these bytes went.
    pub fn gave(&mut self, bytes: &[u8], now: Duration)
        ensures { self.new ≡ states.gone self.old bytes.now now }
    {
        self.moved = now;
        if self.phase == Phase::Reply && self.part.moves(bytes) {
            self.turn_to(Phase::Pause, now);
        }
    }

    /// Looks whether it took longer than it may, where others wait or none does. What is late stays so.
    pub fn look(&mut self, limits: &Limits, is_awaited: bool, now: Duration)
        ensures { self.new ≡ record self.old {
          is_late = self.old.is_late
              || spec.takes_too_long self.old limits.now is_awaited now;
        } }
    {
        self.is_late = self.is_late || self.takes_too_long(limits, is_awaited, now);
    }

    /// Whether it took longer than it may, when it was looked at.
    pub fn is_late(&self) -> bool
        ensures { result ≡ self.now.is_late }
    {
        self.is_late
    }

    /// Whether it takes longer than it may.
    fn takes_too_long(&self, limits: &Limits, is_awaited: bool, now: Duration) -> bool
        ensures { result ≡ spec.takes_too_long self.now limits.now is_awaited now }
    {
        has_passed(self.phase.limit(limits, is_awaited), self.since, now)
            || self.lacks_login(limits, now)
            || is_awaited && self.holds_up(limits, now)
    }

    /// Whether nobody has logged in to a session in time.
    fn lacks_login(&self, limits: &Limits, now: Duration) -> bool
        ensures { result ≡ spec.lacks_login self.now limits.now now }
    {
        self.phase.needs_login() && !self.is_logged_in && has_passed(limits.login, self.began, now)
    }

    /// Whether it holds up others that wait.
    fn holds_up(&self, limits: &Limits, now: Duration) -> bool
        ensures { result ≡ spec.holds_up self.now limits.now now }
    {
        has_passed(limits.still, self.moved, now)
            || self.phase.is_pause() && has_passed(limits.session, self.began, now)
    }
}

/// Whether the first bytes of a connection begin a head. A frame begins with 0, since none is that long.
fn begins_head(bytes: &[u8]) -> bool
    ensures { result ≡ states.begins_head bytes.now }
{
    match bytes.first() {
        Some(byte) => *byte != 0,
        None => false,
    }
}
