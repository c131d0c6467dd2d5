//! Waiting until somebody comes.

use crate::room::{Next, Room};
use crate::rooms::Rooms;
use crate::turn::Turn;
use mio::unix::SourceFd;
use mio::{Events, Interest, Poll, Registry, Token};
use std::alloc::Global;
use std::net::{Net, TcpListener};
use std::os::fd::AsRawFd;
use std::time::{self, Duration};
use std::{io, thread};

/// How many milliseconds nobody is waited for at once.
const LONGEST_WAIT: u64 = 1_000;

/// How many milliseconds something that is wanting is waited for.
const WANT: u64 = 100;

/// How many events are taken at once. They only tell that it is worth while to look.
const EVENTS: usize = 16;

/// What shows that somebody comes.
#[derive(Drop)]
pub struct Door {
    poll: Poll,
    events: Events<Global>,
}

impl Door {
    /// The door of a listener.
    pub fn new(alloc: Global, net: &impl Net, listener: &TcpListener) -> io::Result<Door> {
        let poll = Poll::new(net)?;
        let events = Events::with_capacity(alloc, EVENTS)?;
        let door = Door { poll, events };
        door.add(listener)?;
        Ok(door)
    }

    /// Makes it the door of another listener too.
    pub fn add(&self, listener: &TcpListener) -> io::Result<()> {
        listener.set_nonblocking(true)?;
        let number = listener.as_raw_fd();
        self.poll
            .registry()
            .register(&mut SourceFd(&number), Token(0), Interest::READABLE)
    }

    /// What a room of this door has its connections watched by.
    pub fn watch(&self) -> io::Result<Registry> {
        self.poll.registry().try_clone()
    }

    /// Waits until somebody may have come.
    fn wait(&mut self) -> io::Result<()> {
        let longest = Duration::from_millis(LONGEST_WAIT);
        self.poll.poll(&mut self.events, Some(longest))
    }
}

/// The next connection whose turn it is. None where there can't be one any more.
pub fn next_turn<M: time::Clock>(
    machine: &M,
    rooms: &Rooms<Room<'_>>,
    door: &mut Door,
) -> Option<Turn> {
    'waits: for _ in 0..u64::MAX {
        let now = machine.monotonic().ok()?;
        match rooms.next(now) {
            Next::Turn(turn) => return Some(turn),
            Next::Nobody => door.wait().ok()?,
            Next::Want => thread::sleep(machine, Duration::from_millis(WANT)),
            Next::Fault => return None,
        }
    }
    None
}
