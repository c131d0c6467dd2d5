//! One connection.
ghost use Rattle.std.specs.Prelude.{◌≡◌};
ghost use Rattle.frames.specs.{Sessions.WritesFrames, declared.session.SessionEnd.SessionEnd};
ghost use Rattle.server.specs.Connections as spec;
ghost use Rattle.server.specs.{Connections.{IsServed, Serves}, Http.AnswersHttp};
ghost use Rattle.server.specs.declared.http.HttpEnd.{HttpEnd};
ghost use Rattle.server.specs.declared.connection.ConnectionEnd.TheVariants as ends;
ghost use Rattle.books.specs.Book.{Follows};

use crate::http::{HttpEnd, serve_http};
use books::Book;
use eppwire::Connection;
use frames::{Clock, SessionEnd, serve_session};
use policy::Passwords;
use rdap::Routes;
use registry::Registry;
use std::alloc::Global;
use std::io::{Read, Write};
use streams::read_to_fill;

/// How a connection ended.
#[derive(Clone, Copy, Debug, PartialEq, Eq)]
pub enum ConnectionEnd {
    /// It was one of EPP, and its session ended so.
    Session(SessionEnd),
    /// It was one of HTTP, and ended so.
    Http(HttpEnd),
    /// Not even its first byte could be read. Nothing was answered.
    Unread,
}

/// A registry after a connection that ended.
#[derive(Drop)]
pub struct Served<B: Book> {
    /// The registry, for the next connection.
    pub registry: Registry<B>,
    /// How the connection ended.
    pub end: ConnectionEnd,
}

/// Serves one connection, on which nobody is logged in, up to its end. Its first byte shows the protocol:
/// a frame of EPP begins with 0. All else is a request of HTTP, which is answered by what everyone may
/// know of the registry at the clock's moment.
pub fn serve_one<R: Read, W: Write, C: Clock, B: Book + Drop>(
    alloc: Global,
    routes: &Routes,
    reader: &mut R,
    writer: &mut W,
    clock: &mut C,
    registry: Registry<B>,
    passwords: &Passwords,
) -> Served<B>
    ensures served { Serves registry.policy passwords.now (R.remaining reader.old) (C.moments clock.old)
        (B.state registry.book) (W.contents writer.old) (W.contents writer.new)
        (C.moments clock.new) (B.state result.registry.book) result.end }
    ensures follows { Follows (B.state registry.book) (B.state result.registry.book) }
    ensures policy { result.registry.policy ≡ registry.policy }
{
    let mut first = [0u8; 1];
    let Ok(count) = read_to_fill(reader, &mut first) else {
        return Served {
            registry,
            end: ConnectionEnd::Unread,
        };
    };
    let first = &first[..count];
    if !begins_frame(first) {
        return serve_other(
            alloc,
            routes,
            &mut first.chain(reader),
            writer,
            clock,
            registry,
        );
    }
    serve_epp(
        alloc,
        &mut first.chain(reader),
        writer,
        clock,
        registry,
        passwords,
    )
}

/// Whether an input begins as a frame does.
fn begins_frame(input: &[u8]) -> bool
    ensures { result ≡ spec.begins_frame input.now }
{
    match input.first() {
        Some(first) => *first == 0,
        None => true,
    }
}

/// Serves a connection of EPP.
fn serve_epp<R: Read, W: Write, C: Clock, B: Book + Drop>(
    alloc: Global,
    reader: &mut R,
    writer: &mut W,
    clock: &mut C,
    registry: Registry<B>,
    passwords: &Passwords,
) -> Served<B>
    ensures served { (end : SessionEnd) × (result.end ≡ ends.Session end)
        × WritesFrames (W.contents writer.old) (W.contents writer.new)
        (λ written. IsServed registry.policy passwords.now (R.remaining reader.old) (C.moments clock.old)
        (B.state registry.book) written (C.moments clock.new) (B.state result.registry.book) end) }
    ensures policy { result.registry.policy ≡ registry.policy }
{
    let mut connection = Connection::new(alloc, registry, passwords);
    let end = serve_session(alloc, reader, writer, clock, &mut connection);
    Served {
        registry: connection.into_registry(),
        end: ConnectionEnd::Session(end),
    }
}

/// Serves a connection of HTTP.
fn serve_other<R: Read, W: Write, C: Clock, B: Book + Drop>(
    alloc: Global,
    routes: &Routes,
    reader: &mut R,
    writer: &mut W,
    clock: &mut C,
    registry: Registry<B>,
) -> Served<B>
    ensures served { (end : HttpEnd) × (result.end ≡ ends.Http end)
        × AnswersHttp registry.policy (R.remaining reader.old) (C.moments clock.old)
        (B.state registry.book) (W.contents writer.old) (W.contents writer.new)
        (C.moments clock.new) (B.state result.registry.book) end }
    ensures policy { result.registry.policy ≡ registry.policy }
{
    let served = serve_http(alloc, routes, reader, writer, clock, registry);
    Served {
        registry: served.registry,
        end: ConnectionEnd::Http(served.end),
    }
}
