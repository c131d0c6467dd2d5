//! The stream of a connection, read and written within limits.

use crate::limits::Limits;
use crate::log::Log;
use crate::progress::{Given, Progress};
use crate::room::{Room, is_passing};
use crate::rooms::Rooms;
use crate::turn::Turn;
use std::cell::Cell;
use std::io::{self, ErrorKind, Read, Write};
use std::net::TcpStream;
use std::time::{self, Duration};

/// How many milliseconds a read or a write waits until the clock and the room are looked at.
const TICK: u64 = 250;

/// A connection whose turn it is.
pub struct Wire<'w, M: time::Clock + Print> {
    stream: &'w TcpStream,
    machine: &'w M,
    rooms: &'w Rooms<Room<'w>>,
    limits: &'w Limits,
    log: &'w Log<'w, M>,
    progress: Cell<Progress>,
    /// Whether another connection waits, and when that was looked at.
    is_awaited: Cell<bool>,
    looked: Cell<Duration>,
}

impl<M: time::Clock + Print> Drop for Wire<'_, M> {
    fn drop(self) {
        let Wire {
            stream: _,
            machine: _,
            rooms: _,
            limits: _,
            log: _,
            progress: _,
            is_awaited: _,
            looked: _,
        } = self;
    }
}

impl<'w, M: time::Clock + Print> Wire<'w, M> {
    /// The wire of a connection whose turn begins. An error where it can't be bounded how long a peer is
    /// waited for.
    pub fn new(
        machine: &'w M,
        rooms: &'w Rooms<Room<'w>>,
        limits: &'w Limits,
        log: &'w Log<'w, M>,
        turn: &'w Turn,
    ) -> io::Result<Wire<'w, M>> {
        let stream = &turn.stream;
        set_up(stream)?;
        let now = machine.monotonic()?;
        log.begin(turn.port, turn.waited, now);
        Ok(Wire {
            stream,
            machine,
            rooms,
            limits,
            log,
            progress: Cell::new(Progress::begun(now)),
            is_awaited: Cell::new(false),
            looked: Cell::new(Duration::ZERO),
        })
    }

    /// Notes that the connection's turn ended so.
    pub fn end(&self, how: &str) {
        if let Ok(now) = self.machine.monotonic() {
            self.log.end(how, now);
        }
    }

    /// Whether the connection took longer than it may.
    pub fn is_late(&self) -> bool {
        self.progress.get().is_late()
    }

    /// The clock's time, if the connection may go on then.
    fn time(&self) -> io::Result<Duration> {
        let now = self.machine.monotonic()?;
        if now.saturating_sub(self.looked.get()) >= Duration::from_millis(TICK) {
            self.looked.set(now);
            self.is_awaited.set(self.rooms.is_awaited(now));
        }
        let mut progress = self.progress.get();
        progress.look(self.limits, self.is_awaited.get(), now);
        self.progress.set(progress);
        if progress.is_late() {
            return Err(io::Error::from(ErrorKind::TimedOut));
        }
        Ok(now)
    }

    /// Notes that bytes came.
    fn take(&self, bytes: &[u8]) -> io::Result<()> {
        let mut progress = self.progress.get();
        self.log.hear(bytes, !progress.is_asked());
        progress.take(bytes, self.machine.monotonic()?);
        self.progress.set(progress);
        Ok(())
    }

    /// Notes which bytes are to go.
    fn give(&self, bytes: &[u8], now: Duration) {
        let mut progress = self.progress.get();
        let given = progress.give(bytes, now);
        let took = progress.answering(now);
        match given {
            Given::Reply => self.log.reply(bytes, took),
            Given::Answer => self.log.answer(bytes, took),
            Given::Part => {}
        }
        self.progress.set(progress);
    }

    /// Notes that bytes went.
    fn gave(&self, bytes: &[u8]) -> io::Result<()> {
        let mut progress = self.progress.get();
        self.log.gave(bytes.len());
        progress.gave(bytes, self.machine.monotonic()?);
        self.progress.set(progress);
        Ok(())
    }
}

/// Reads from a wire. A read fails once the connection took longer than it may.
#[derive(Drop)]
pub struct WireReader<'w, M: time::Clock + Print>(pub &'w Wire<'w, M>);

impl<M: time::Clock + Print> Read for WireReader<'_, M> {
    fn read(&mut self, buffer: &mut [u8]) -> io::Result<usize> {
        let mut stream = self.0.stream;
        'tries: for _ in 0..u64::MAX {
            self.0.time()?;
            match stream.read(buffer) {
                Ok(count) => {
                    self.0.take(&buffer[..count])?;
                    return Ok(count);
                }
                Err(error) if is_passing(error.kind()) => {}
                Err(error) => return Err(error),
            }
        }
        Err(io::Error::from(ErrorKind::TimedOut))
    }
}

/// Writes to a wire. A write fails once a reply took longer than it may.
#[derive(Drop)]
pub struct WireWriter<'w, M: time::Clock + Print>(pub &'w Wire<'w, M>);

impl<M: time::Clock + Print> Write for WireWriter<'_, M> {
    fn write(&mut self, bytes: &[u8]) -> io::Result<usize> {
        let mut stream = self.0.stream;
        let now = self.0.machine.monotonic()?;
        self.0.give(bytes, now);
        'tries: for _ in 0..u64::MAX {
            self.0.time()?;
            match stream.write(bytes) {
                Ok(count) => {
                    self.0.gave(&bytes[..count])?;
                    return Ok(count);
                }
                Err(error) if is_passing(error.kind()) => {}
                Err(error) => return Err(error),
            }
        }
        Err(io::Error::from(ErrorKind::TimedOut))
    }

    fn flush(&mut self) -> io::Result<()> {
        Ok(())
    }
}

/// Lets no read and no write of a stream wait longer than a tick.
fn set_up(stream: &TcpStream) -> io::Result<()> {
    stream.set_nonblocking(false)?;
    // A reply isn't held back until its beginning is acknowledged.
    let _ = stream.set_nodelay(true);
    let tick = Duration::from_millis(TICK);
    stream.set_read_timeout(Some(tick))?;
    stream.set_write_timeout(Some(tick))
}
