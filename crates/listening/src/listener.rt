//! Connections of a port.
ghost use Rattle.std.specs.Prelude.{◌≡◌};
ghost use Rattle.server.specs.Listening.{ServesInTurn, ServesUnknown};
ghost use Rattle.books.specs.Book.{Follows};
ghost use Rattle.listening.specs.inner.Log as spec;

use books::Book;
use frames::SessionEnd;
use policy::Passwords;
use rdap::Routes;
use registry::Registry;
use server::{ConnectionEnd, HttpEnd, MachineClock, let_go, serve_one};
use std::alloc::Global;
use std::net::{Net, TcpListener};
use std::time;
use wires::{Door, Limits, Log, Port, Room, Rooms, Turn, Wire, WireReader, WireWriter, next_turn};

/// Serves connections without end, one after the other. Returns where no connection can be accepted any
/// more, or where the machine has no way to wait for one.
pub fn serve_port<M: time::Clock + Print + Net, B: Book + Drop>(
    alloc: Global,
    machine: &M,
    listener: &TcpListener,
    limits: &Limits,
    log: &Log<'_, M>,
    passwords: &Passwords,
    registry: Registry<B>,
) -> Registry<B>
    ensures served { ServesInTurn registry.policy passwords.now (B.state registry.book) (B.state result.book) }
    ensures follows { Follows (B.state registry.book) (B.state result.book) }
    ensures policy { result.policy ≡ registry.policy }
{
    let Ok(mut door) = Door::new(alloc, machine, listener) else {
        return registry;
    };
    let (Ok(routes), Ok(watch)) = (Routes::new(alloc), door.watch()) else {
        return registry;
    };
    let rooms = Rooms::of_one(Room::new(alloc, Port::Public, listener, &watch, limits.first));
    let mut registry = registry;
    'turns: for _ in 0..u64::MAX {
        let Some(turn) = next_turn(machine, &rooms, &mut door) else {
            return registry;
        };
        registry = serve_public(
            alloc, &routes, machine, &rooms, limits, log, &turn, passwords, registry,
        );
    }
    registry
}

/// Serves a connection until it ends, and hands the registry back.
pub(crate) fn serve_public<M: time::Clock + Print, B: Book + Drop>(
    alloc: Global,
    routes: &Routes,
    machine: &M,
    rooms: &Rooms<Room<'_>>,
    limits: &Limits,
    log: &Log<'_, M>,
    turn: &Turn,
    passwords: &Passwords,
    registry: Registry<B>,
) -> Registry<B>
    ensures served { ServesUnknown registry.policy passwords.now (B.state registry.book) (B.state result.book) }
    ensures follows { Follows (B.state registry.book) (B.state result.book) }
    ensures policy { result.policy ≡ registry.policy }
{
    // Where it can't be bounded how long a peer is waited for, it isn't served.
    let Ok(wire) = Wire::new(machine, rooms, limits, log, turn) else {
        return registry;
    };
    let (mut reader, mut writer) = (WireReader(&wire), WireWriter(&wire));
    let mut clock = MachineClock::new(machine);
    let served = serve_one(
        alloc,
        routes,
        &mut reader,
        &mut writer,
        &mut clock,
        registry,
        passwords,
    );
    let end = (!wire.is_late()).then_some(served.end);
    wire.end(word_of(end));
    let_go(alloc, &turn.stream, end);
    served.registry
}

/// How a connection ended, in a word. One that took longer than it may has no end of its own.
fn word_of(end: Option<ConnectionEnd>) -> &'static str
    ensures { result.now ≡ spec.end_word end }
{
    match end {
        None => "late",
        Some(ConnectionEnd::Session(session)) => session_word(session),
        Some(ConnectionEnd::Http(request)) => http_word(request),
        Some(ConnectionEnd::Unread) => "broken",
    }
}

fn session_word(end: SessionEnd) -> &'static str
    ensures { result.now ≡ spec.session_word end }
{
    match end {
        SessionEnd::Logout => "logout",
        SessionEnd::End => "closed",
        SessionEnd::Cut => "cut",
        SessionEnd::Length => "length",
        SessionEnd::Lost => "memory",
        SessionEnd::ReadFault | SessionEnd::WriteFault => "broken",
    }
}

fn http_word(end: HttpEnd) -> &'static str
    ensures { result.now ≡ spec.http_word end }
{
    match end {
        HttpEnd::Answered => "answered",
        HttpEnd::Unanswered => "unanswered",
        HttpEnd::WriteFault => "broken",
    }
}
