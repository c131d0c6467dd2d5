//! A block, carried out over a registry.

use crate::length_peer::LengthPeer;
use crate::moments::{reading_of, sum_of};
use crate::pieces::{Narrow, Pieces, Way};
use crate::step::Step;
use accounts::Lines;
use anyhow::{Context, Result, bail};
use books::Book;
use eppwire::Connection;
use frames::{ListClock, SessionEnd, serve_session};
use policy::Passwords;
use protocol::Code;
use rdap::Routes;
use registry::Registry;
use script::{Exit, deposit_on, order_on, run_on};
use server::{ConnectionEnd, HttpEnd, serve_one, zone_on};
use statements::{Bounds, account_asked, bounds_asked, statement};
use std::alloc::Global;
use std::str;

/// How a block ended.
#[derive(Drop)]
enum End {
    Word(&'static str),
    Exit(Exit),
    Text(String),
}

impl End {
    fn is_well(&self) -> bool {
        match self {
            End::Exit(exit) => matches!(exit, Exit::Done),
            _ => false,
        }
    }
}

/// A block, the way in which its bytes move, what came, how often its line failed, and how it ended once it was
/// carried out.
#[derive(Drop)]
pub struct Wire<'a> {
    alloc: Global,
    pub step: &'a Step<'a>,
    way: Way,
    clock: ListClock,
    pub writer: Narrow,
    pub failures: u32,
    end: Option<Result<End>>,
}

/// How often a line is sent again.
const TIMES: u32 = 3;

/// What is printed in place of the reply to a line that couldn't be carried out.
pub const FAILED: &[u8] = b"{\"code\":2400,\"msg\":\"Command failed\",\"svTRID\":\"ANON\"}\n";

impl<'a> Wire<'a> {
    pub fn new(alloc: Global, step: &'a Step<'a>, way: Way) -> Result<Wire<'a>> {
        Ok(Wire {
            alloc,
            step,
            way,
            clock: step.clock(alloc)?,
            writer: Narrow::new(alloc, way),
            failures: 0,
            end: None,
        })
    }

    /// Has a registry answer.
    pub fn carry<B: Book + Drop>(
        &mut self,
        registry: Registry<B>,
        passwords: &Passwords,
    ) -> Registry<B> {
        match self.step.kind {
            "connection" => self.connected(registry, passwords),
            "session" => self.in_session(registry, passwords),
            _ => {
                let mut registry = registry;
                let end = self.asked(&mut registry);
                self.end = Some(end);
                registry
            }
        }
    }

    fn connected<B: Book + Drop>(
        &mut self,
        registry: Registry<B>,
        passwords: &Passwords,
    ) -> Registry<B> {
        let Ok(routes) = Routes::new(self.alloc) else {
            return registry;
        };
        let mut reader = Pieces::new(&self.step.sent, self.way);
        let served = serve_one(
            self.alloc,
            &routes,
            &mut reader,
            &mut self.writer,
            &mut self.clock,
            registry,
            passwords,
        );
        self.end = Some(Ok(End::Word(connection_word(served.end))));
        served.registry
    }

    fn in_session<B: Book + Drop>(
        &mut self,
        registry: Registry<B>,
        passwords: &Passwords,
    ) -> Registry<B> {
        let mut connection = Connection::new(self.alloc, registry, passwords);
        let mut reader = Pieces::new(&self.step.sent, self.way);
        let end = serve_session(
            self.alloc,
            &mut reader,
            &mut self.writer,
            &mut self.clock,
            &mut connection,
        );
        self.end = Some(Ok(End::Word(session_word(end))));
        connection.into_registry()
    }

    /// A session with a peer that knows no registry.
    fn with_lengths(&mut self) -> End {
        let mut peer = LengthPeer::new(self.alloc);
        let mut reader = Pieces::new(&self.step.sent, self.way);
        let end = serve_session(
            self.alloc,
            &mut reader,
            &mut self.writer,
            &mut self.clock,
            &mut peer,
        );
        End::Word(session_word(end))
    }

    fn asked<B: Book + Drop>(&mut self, registry: &mut Registry<B>) -> Result<End> {
        match self.step.kind {
            "script" => self.script(registry),
            "line" => Ok(End::Exit(self.retried(registry))),
            "look" | "look if failed" => Ok(End::Exit(self.sent(registry))),
            "zone" => self.zone(registry),
            "deposit" => self.deposit(registry),
            "order" => self.order(registry),
            "statement" => self.account(registry),
            "lengths" => Ok(self.with_lengths()),
            "sums" | "moments" => self.calendar(),
            kind => bail!("no block is a {kind}"),
        }
    }

    fn script<B: Book + Drop>(&mut self, registry: &mut Registry<B>) -> Result<End> {
        let Some(order) = self.way.settlement else {
            return Ok(End::Exit(self.sent(registry)));
        };
        let script = self.step.with_settlements(self.alloc, order)?;
        let exit = run_on(self.alloc, registry, script.as_slice(), &mut self.writer);
        Ok(End::Exit(exit))
    }

    fn sent<B: Book + Drop>(&mut self, registry: &mut Registry<B>) -> Exit {
        let reader = Pieces::new(&self.step.sent, self.way);
        run_on(self.alloc, registry, reader, &mut self.writer)
    }

    /// Sends a line again where it can't be carried out.
    fn retried<B: Book + Drop>(&mut self, registry: &mut Registry<B>) -> Exit {
        for _ in 0..TIMES {
            let exit = self.sent(registry);
            if !has_failed(&exit, &self.writer.bytes) {
                return exit;
            }
            self.failures = self.failures.saturating_add(1);
            self.writer.bytes.clear();
        }
        self.sent(registry)
    }

    fn zone<B: Book + Drop>(&mut self, registry: &mut Registry<B>) -> Result<End> {
        match zone_on(self.alloc, registry, self.step.moment(), &mut self.writer) {
            Ok(()) => Ok(End::Word("done")),
            Err(fault) => Ok(End::Text(format!(in self.alloc; "{fault}")?)),
        }
    }

    fn deposit<B: Book + Drop>(&mut self, registry: &mut Registry<B>) -> Result<End> {
        let text = str::from_utf8(&self.step.sent)?;
        let (registrar, cents) = text.split_once(' ').context("a deposit without cents")?;
        let (at, cents) = (self.step.moment(), cents.parse::<i64>()?);
        let code = deposit_on(self.alloc, registry, at, registrar, cents, &mut self.writer);
        self.coded(code)
    }

    fn order<B: Book + Drop>(&mut self, registry: &mut Registry<B>) -> Result<End> {
        let (at, payload) = (self.step.moment(), self.step.sent.as_slice());
        let code = order_on(self.alloc, registry, at, payload, &mut self.writer);
        self.coded(code)
    }

    fn coded(&self, code: Result<Code, Exit>) -> Result<End> {
        match code {
            Ok(code) => Ok(End::Text(format!(in self.alloc; "{}", code.number())?)),
            Err(exit) => Ok(End::Exit(exit)),
        }
    }

    fn account<B: Book + Drop>(&mut self, registry: &mut Registry<B>) -> Result<End> {
        let asked = self.step.sent.as_slice();
        let registrar = account_asked(registry.policy(), asked).context("nobody's account")?;
        let bounds = bounds_asked(asked).context("no bounds")?;
        match registry.lines(registrar, self.step.moment()) {
            Ok(lines) => self.stated(&lines, bounds),
            Err(fault) => Ok(End::Text(format!(in self.alloc; "{fault}")?)),
        }
    }

    fn stated(&mut self, lines: &Lines, bounds: Bounds) -> Result<End> {
        let text = statement(self.alloc, lines, bounds)?;
        self.writer.bytes.extend_from_slice(text.as_bytes())?;
        Ok(End::Word("done"))
    }

    fn calendar(&mut self) -> Result<End> {
        for line in str::from_utf8(&self.step.sent)?.lines() {
            let answer = match self.step.kind {
                "sums" => sum_of(self.alloc, line)?,
                _ => reading_of(self.alloc, line)?,
            };
            match answer {
                Some(text) => self.writer.bytes.extend_from_slice(text.as_bytes())?,
                None => self.writer.bytes.extend_from_slice(b"none")?,
            }
            self.writer.bytes.push(b'\n')?;
        }
        Ok(End::Word("done"))
    }

    /// Whether it is a script that ended well, or wasn't carried out.
    pub fn ends_well(&self) -> bool {
        match &self.end {
            None => true,
            Some(Ok(end)) => end.is_well(),
            Some(Err(_)) => false,
        }
    }

    /// How it ended; if it wasn't carried out, as the opening before it did.
    pub fn end(&self, opening: &Exit) -> Result<String> {
        let exit = match &self.end {
            Some(Ok(End::Word(word))) => return Ok(String::from_str(self.alloc, word)?),
            Some(Ok(End::Text(text))) => return Ok(text.clone()?),
            Some(Err(error)) => bail!("{error:#}"),
            Some(Ok(End::Exit(exit))) => exit,
            None => opening,
        };
        match exit {
            Exit::Done => Ok(String::from_str(self.alloc, "done")?),
            exit => Ok(format!(in self.alloc; "{exit}")?),
        }
    }

    /// Refuses what isn't as it must come.
    pub fn compare(&self, opening: &Exit) -> Result<()> {
        let (step, way, bytes) = (self.step, &self.way, &self.writer.bytes);
        let number = step.number;
        let end = self.end(opening).context(format_args!("line {number}"))?;
        if !step.is_wanted(self.alloc, bytes, way)? {
            let (wanted, given) = first_difference(&step.wanted, bytes);
            bail!("line {number}: {way:?}: ends by {end}\n  wanted {wanted}\n  given  {given}");
        }
        if step.end != Some(end.as_str()) {
            bail!("line {number}: {way:?}: ends by {end}");
        }
        Ok(())
    }
}

/// Whether a line couldn't be carried out: a call on the book was refused to it, or memory. The fixed text is printed,
/// or where memory lacked for the text around it nothing is.
fn has_failed(exit: &Exit, printed: &[u8]) -> bool {
    match exit {
        Exit::Done => printed == FAILED,
        Exit::Memory | Exit::File => printed.is_empty(),
        _ => false,
    }
}

/// The first line that differs, or the last that both have.
fn first_difference<'a>(wanted: &'a [u8], given: &'a [u8]) -> (&'a str, &'a str) {
    let mut last = ("", "");
    let given = given.split(|byte| *byte == b'\n');
    for (wanted, given) in wanted.split(|byte| *byte == b'\n').zip(given) {
        last = (text_of(wanted), text_of(given));
        if wanted != given {
            return last;
        }
    }
    last
}

fn text_of(line: &[u8]) -> &str {
    str::from_utf8(line).unwrap_or("what is no text")
}

fn connection_word(end: ConnectionEnd) -> &'static str {
    match end {
        ConnectionEnd::Session(end) => session_word(end),
        ConnectionEnd::Http(HttpEnd::Answered) => "answered",
        ConnectionEnd::Http(HttpEnd::Unanswered) => "not answered",
        ConnectionEnd::Http(HttpEnd::WriteFault) => "answer cut by a write fault",
        ConnectionEnd::Unread => "not read",
    }
}

fn session_word(end: SessionEnd) -> &'static str {
    match end {
        SessionEnd::Logout => "last reply",
        SessionEnd::End => "end of input",
        SessionEnd::Cut => "cut frame",
        SessionEnd::Length => "bad length",
        SessionEnd::ReadFault => "read fault",
        SessionEnd::WriteFault => "write fault",
        SessionEnd::Lost => "lost reply",
    }
}
