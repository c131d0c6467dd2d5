//! Connections of two ports.
ghost use Rattle.std.specs.Prelude.{◌≡◌, None};
ghost use Rattle.listening.specs.Ports.{LeavesOne, ServesPorts};
ghost use Rattle.listening.specs.inner.Log as spec;
ghost use Rattle.operator.specs.{Operations.Operates, declared.serving.RequestEnd.RequestEnd};
ghost use Rattle.books.specs.Book.{Follows};

use crate::listener::serve_public;
use books::Book;
use operator::{Figures, RequestEnd, serve_request};
use policy::Passwords;
use rdap::Routes;
use registry::Registry;
use server::{MachineClock, let_go_with_more};
use std::alloc::{AllocError, Global};
use std::net::{Net, TcpListener};
use std::rt::Files;
use std::{fs, time};
use wires::{
    Door, Limits, Log, Port, Room, Rooms, Turn, Wire, WireReader, WireWriter, next_turn,
    write_figures,
};

/// The operator's port, what is said there by whoever has its token, and the file of the database's log, if it is in a
/// file.
#[derive(Clone, Copy)]
pub struct Office<'o> {
    pub listener: &'o TcpListener,
    pub credentials: &'o [u8],
    pub log_file: Option<&'o str>,
}

/// Serves connections of two ports without end, one after the other: those of registrars and of the public, and the
/// operator's. Returns where no connection can be accepted any more, or where the machine has no way to wait for one.
pub fn serve_ports<M: time::Clock + Print + Net + Files, B: Book + Drop>(
    alloc: Global,
    machine: &M,
    public: &TcpListener,
    office: &Office<'_>,
    limits: &Limits,
    log: &Log<'_, M>,
    passwords: &Passwords,
    registry: Registry<B>,
) -> Registry<B>
    ensures served { ServesPorts registry.policy passwords.now office.now.credentials.now (B.state registry.book)
        (B.state result.book) }
    ensures follows { Follows (B.state registry.book) (B.state result.book) }
    ensures policy { result.policy ≡ registry.policy }
{
    let Ok(mut door) = Door::new(alloc, machine, public) else {
        return registry;
    };
    let added = door.add(office.listener);
    let (Ok(()), Ok(routes), Ok(watch)) = (added, Routes::new(alloc), door.watch()) else {
        return registry;
    };
    let rooms = Rooms::of_two(
        Room::new(alloc, Port::Public, public, &watch, limits.first),
        Room::new(alloc, Port::Office, office.listener, &watch, limits.first),
    );
    let mut registry = registry;
    'turns: for _ in 0..u64::MAX {
        let Some(turn) = next_turn(machine, &rooms, &mut door) else {
            return registry;
        };
        registry = serve_turn(
            alloc, &routes, machine, &rooms, limits, log, office, &turn, passwords, registry,
        );
    }
    registry
}

/// Serves a connection until it ends, and hands the registry back.
fn serve_turn<M: time::Clock + Print + Files, B: Book + Drop>(
    alloc: Global,
    routes: &Routes,
    machine: &M,
    rooms: &Rooms<Room<'_>>,
    limits: &Limits,
    log: &Log<'_, M>,
    office: &Office<'_>,
    turn: &Turn,
    passwords: &Passwords,
    registry: Registry<B>,
) -> Registry<B>
    ensures served { LeavesOne registry.policy passwords.now office.now.credentials.now
        (B.state registry.book) (B.state result.book) }
    ensures follows { Follows (B.state registry.book) (B.state result.book) }
    ensures policy { result.policy ≡ registry.policy }
{
    match turn.port {
        Port::Public => serve_public(
            alloc, routes, machine, rooms, limits, log, turn, passwords, registry,
        ),
        Port::Office => serve_office(alloc, machine, rooms, limits, log, office, turn, registry),
    }
}

/// Serves a connection of the operator's.
fn serve_office<M: time::Clock + Print + Files, B: Book + Drop>(
    alloc: Global,
    machine: &M,
    rooms: &Rooms<Room<'_>>,
    limits: &Limits,
    log: &Log<'_, M>,
    office: &Office<'_>,
    turn: &Turn,
    registry: Registry<B>,
) -> Registry<B>
    ensures served { (end : RequestEnd) × Operates registry.policy office.now.credentials.now None None
        (B.state registry.book) None None None (B.state result.book) end }
    ensures follows { Follows (B.state registry.book) (B.state result.book) }
    ensures policy { result.policy ≡ registry.policy }
{
    // Where it can't be bounded how long a peer is waited for, it isn't served.
    let Ok(wire) = Wire::new(machine, rooms, limits, log, turn) else {
        return registry;
    };
    let (mut reader, mut writer) = (WireReader(&wire), WireWriter(&wire));
    let mut clock = MachineClock::new(machine);
    let figures = LiveFigures {
        machine,
        log,
        rooms,
        log_file: office.log_file,
    };
    let mut registry = registry;
    let end = serve_request(
        alloc,
        office.credentials,
        &figures,
        &mut reader,
        &mut writer,
        &mut clock,
        &mut registry,
    );
    wire.end(word_of((!wire.is_late()).then_some(end)));
    let_go_with_more(alloc, &turn.stream);
    registry
}

/// The figures of the program.
#[derive(Drop)]
struct LiveFigures<'t, M: time::Clock + Print + Files> {
    machine: &'t M,
    log: &'t Log<'t, M>,
    rooms: &'t Rooms<Room<'t>>,
    log_file: Option<&'t str>,
}

impl<M: time::Clock + Print + Files> Figures for LiveFigures<'_, M> {
    fn write(&self, alloc: Global, text: &mut String) -> Result<(), AllocError> {
        let log_bytes = length_of(self.machine, self.log_file);
        write_figures(alloc, self.log, self.rooms, log_bytes, text)
    }
}

/// How long a file is: nothing where there is none.
fn length_of(files: &impl Files, path: Option<&str>) -> u64 {
    let Some(path) = path else {
        return 0;
    };
    match fs::metadata(files, path) {
        Ok(found) => found.len(),
        Err(_) => 0,
    }
}

/// How a connection ended, in a word. One that took longer than it may has no end of its own.
fn word_of(end: Option<RequestEnd>) -> &'static str
    ensures { result.now ≡ spec.request_word end }
{
    match end {
        None => "late",
        Some(RequestEnd::Answered) => "answered",
        Some(RequestEnd::Cut) => "broken",
        Some(RequestEnd::Unanswered) => "unanswered",
    }
}
