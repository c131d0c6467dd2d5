//! Readers and writers that move bytes in pieces, and fail.

use std::alloc::Global;
use std::io;
use std::io::{ErrorKind, Read, Write};

/// How the bytes of a connection move.
#[derive(Clone, Copy, Debug)]
pub struct Way {
    /// How many bytes a read gives at most.
    pub step: usize,
    /// Places that no read goes beyond.
    pub cuts: (usize, usize),
    /// How many bytes of what is sent come.
    pub front: usize,
    /// How many reads pass before one fails.
    pub reads: usize,
    /// How many writes of one byte pass before one fails; with none every write takes all its bytes.
    pub writes: Option<usize>,
    /// Whether a write that fails is an error, and not one that takes no byte.
    pub fails: bool,
    /// Whether the writes after it pass.
    pub recovers: bool,
    /// Whether a signal interrupts each read and write once.
    pub is_interrupted: bool,
    /// The order that settles before each line of a script.
    pub settlement: Option<&'static str>,
}

/// All in one piece.
pub const IN_ONE_PIECE: Way = Way {
    step: usize::MAX,
    cuts: (0, 0),
    front: usize::MAX,
    reads: usize::MAX,
    writes: None,
    fails: false,
    recovers: false,
    is_interrupted: false,
    settlement: None,
};

/// Fails each other call, where signals interrupt them.
fn interrupt(way: &Way, was_interrupted: &mut bool) -> io::Result<()> {
    *was_interrupted = way.is_interrupted && !*was_interrupted;
    if *was_interrupted {
        return Err(io::Error::from(ErrorKind::Interrupted));
    }
    Ok(())
}

/// A reader of bytes in pieces.
#[derive(Drop)]
pub struct Pieces<'a> {
    left: &'a [u8],
    given: usize,
    reads: usize,
    was_interrupted: bool,
    way: Way,
}

impl<'a> Pieces<'a> {
    pub fn new(bytes: &'a [u8], way: Way) -> Pieces<'a> {
        Pieces {
            left: &bytes[..way.front.min(bytes.len())],
            given: 0,
            reads: way.reads,
            was_interrupted: false,
            way,
        }
    }

    /// How many bytes the next read gives at most, so that it doesn't go beyond a cut.
    fn most(&self) -> usize {
        let (first, second) = self.way.cuts;
        if self.given < first {
            first - self.given
        } else if self.given < second {
            second - self.given
        } else {
            usize::MAX
        }
    }
}

impl Read for Pieces<'_> {
    fn read(&mut self, buf: &mut [u8]) -> io::Result<usize> {
        interrupt(&self.way, &mut self.was_interrupted)?;
        if self.reads == 0 {
            return Err(io::Error::from(ErrorKind::ConnectionReset));
        }
        self.reads -= 1;
        let most = self.most().min(self.way.step).min(buf.len());
        let count = most.min(self.left.len());
        let (bytes, others) = self.left.split_at(count);
        buf[..count].copy_from_slice(bytes);
        self.left = others;
        self.given = self.given.saturating_add(count);
        Ok(count)
    }
}

/// A writer that keeps what it takes.
#[derive(Drop)]
pub struct Narrow {
    pub bytes: Vec<u8>,
    writes: Option<usize>,
    was_interrupted: bool,
    way: Way,
}

impl Narrow {
    pub fn new(alloc: Global, way: Way) -> Narrow {
        Narrow {
            bytes: Vec::new(alloc),
            writes: way.writes,
            was_interrupted: false,
            way,
        }
    }

    /// How many bytes the next write takes at most.
    fn most(&mut self) -> io::Result<usize> {
        match self.writes {
            None => Ok(usize::MAX),
            Some(0) => {
                if self.way.recovers {
                    self.writes = None;
                }
                if self.way.fails {
                    return Err(io::Error::from(ErrorKind::BrokenPipe));
                }
                Ok(0)
            }
            Some(writes) => {
                self.writes = Some(writes.saturating_sub(1));
                Ok(1)
            }
        }
    }
}

impl Write for Narrow {
    fn write(&mut self, buf: &[u8]) -> io::Result<usize> {
        interrupt(&self.way, &mut self.was_interrupted)?;
        let count = self.most()?.min(buf.len());
        match self.bytes.extend_from_slice(&buf[..count]) {
            Ok(()) => Ok(count),
            Err(_) => Err(io::Error::from(ErrorKind::OutOfMemory)),
        }
    }

    fn flush(&mut self) -> io::Result<()> {
        Ok(())
    }
}
