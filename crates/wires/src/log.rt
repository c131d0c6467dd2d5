//! A log: a line for each command and for each connection, of what is asked and answered; and counts of these.
ghost use Rattle.std.specs.Prelude.{◌≡◌, OnOk};
ghost use Rattle.wires.specs.inner.Log as spec;

use crate::asks::{Members, is_word, members_of, target_of};
use crate::counts::{Tally, count};
use crate::line::Line;
use crate::replies::{code_of, http_code_of, sv_trid_of};
use crate::turn::Port;
use calendar::Moment;
use std::alloc::{AllocError, Global};
use std::cell::Cell;
use std::io::{self, Write};
use std::time::{self, Duration};

/// Commands, objects and operations that there are.
const COMMANDS: &[&str] = &[
    "balance", "check", "create", "delete", "hello", "info", "login", "logout", "poll", "renew",
    "restore", "transfer", "update",
];

const OBJECTS: &[&str] = &["contact", "domain", "host"];

const OPERATIONS: &[&str] = &[
    "ack", "approve", "cancel", "query", "reject", "report", "req", "request",
];

/// The beginning of a statement's target, before the registrar's id and the moments.
const STATEMENT: &[u8] = b"/statement/";

/// The most bytes of a frame or of a head that are kept: those of a frame.
const MOST_ASKED: usize = 65_540;

/// The bytes of a frame's length.
const HEADER: usize = 4;

/// The last moment, 2199-12-31T23:59:59Z, in seconds since 1970-01-01T00:00:00Z.
const LAST: u64 = 7_258_118_399;

/// The code of a reply to a login that opens a session.
const COMPLETED: u16 = 1_000;

/// What is logged, and where. A line that can't be written is left out.
#[derive(Drop)]
pub struct Log<'l, M: time::Clock + Print> {
    alloc: Global,
    machine: &'l M,
    is_quiet: bool,
    is_counting: bool,
    /// The number of the connection whose turn it is, whether it came by the operator's port, how many commands it
    /// sent, and when its turn began.
    connection: Cell<u64>,
    is_office: Cell<bool>,
    commands: Cell<u64>,
    began: Cell<Duration>,
    /// The second of the last line, and the text of its moment.
    second: Cell<u64>,
    at: Cell<Vec<u8>>,
    /// The memory that lines are made in.
    line: Cell<Vec<u8>>,
    /// The frame or the head that came last, and who is logged in.
    asked: Cell<Vec<u8>>,
    registrar: Cell<Vec<u8>>,
    /// How often what was answered, for how long connections waited, and how many bytes came and went.
    counts: Cell<Vec<Tally>>,
    waited: Cell<Duration>,
    heard: Cell<u64>,
    sent: Cell<u64>,
}

impl<'l, M: time::Clock + Print> Log<'l, M> {
    /// A log, of which a quiet one prints nothing. Answers are counted by one that counts.
    pub fn new(alloc: Global, machine: &'l M, is_quiet: bool, is_counting: bool) -> Log<'l, M> {
        Log {
            alloc,
            machine,
            is_quiet,
            is_counting,
            connection: Cell::new(0),
            is_office: Cell::new(false),
            commands: Cell::new(0),
            began: Cell::new(Duration::ZERO),
            second: Cell::new(u64::MAX),
            at: Cell::new(Vec::new(alloc)),
            line: Cell::new(Vec::new(alloc)),
            asked: Cell::new(Vec::new(alloc)),
            registrar: Cell::new(Vec::new(alloc)),
            counts: Cell::new(Vec::new(alloc)),
            waited: Cell::new(Duration::ZERO),
            heard: Cell::new(0),
            sent: Cell::new(0),
        }
    }

    /// The turn of a connection of a port begins, which waited so long.
    pub(crate) fn begin(&self, port: Port, waited: Duration, now: Duration) {
        self.connection.set(self.connection.get().wrapping_add(1));
        self.is_office.set(port == Port::Office);
        self.waited.set(self.waited.get().saturating_add(waited));
        self.commands.set(0);
        self.began.set(now);
        self.asked.set(Vec::new(self.alloc));
        self.registrar.set(Vec::new(self.alloc));
    }

    /// Whether nothing is made of what is asked and answered.
    fn is_idle(&self) -> bool {
        self.is_quiet && !self.is_counting
    }

    /// Keeps bytes of a frame or of a head, which may begin with them.
    pub(crate) fn hear(&self, bytes: &[u8], is_begin: bool) {
        self.heard
            .set(self.heard.get().wrapping_add(bytes.len() as u64));
        if self.is_idle() {
            return;
        }
        let mut asked = self.asked.replace(Vec::new(self.alloc));
        if is_begin {
            asked.clear();
        }
        if asked.len() < MOST_ASKED {
            let _ = asked.extend_from_slice(bytes);
        }
        self.asked.set(asked);
    }

    /// Logs the reply to the frame that came last.
    pub(crate) fn reply(&self, reply: &[u8], took: Duration) {
        self.commands.set(self.commands.get().wrapping_add(1));
        if self.is_idle() {
            return;
        }
        let asked = self.asked.replace(Vec::new(self.alloc));
        let _ = self.note_reply(&asked, reply, took);
        self.asked.set(asked);
    }

    /// Logs the answer to the head that came.
    pub(crate) fn answer(&self, answer: &[u8], took: Duration) {
        self.commands.set(self.commands.get().wrapping_add(1));
        if self.is_idle() {
            return;
        }
        let asked = self.asked.replace(Vec::new(self.alloc));
        let entry = Entry {
            command: self.service(),
            operation: "-",
            object: "-",
            name: shown_of(target_of(&asked), self.is_office.get()),
            code: http_code_of(answer),
            sv_trid: b"",
        };
        let _ = self.note_line(&entry, took);
        self.asked.set(asked);
    }

    /// What answers over HTTP.
    fn service(&self) -> &'static str {
        if self.is_office.get() {
            "operator"
        } else {
            "rdap"
        }
    }

    /// Counts bytes that went.
    pub(crate) fn gave(&self, count: usize) {
        self.sent.set(self.sent.get().wrapping_add(count as u64));
    }

    /// Logs that a connection's turn ended so.
    pub fn end(&self, how: &str, now: Duration) {
        if !self.is_quiet {
            let _ = self.print_end(how, now.saturating_sub(self.began.get()));
        }
    }

    fn note_reply(&self, asked: &[u8], reply: &[u8], took: Duration) -> io::Result<()> {
        let members = members_of(asked.get(HEADER..).unwrap_or(b""));
        let code = code_of(reply);
        let sv_trid = sv_trid_of(reply);
        let command = word_of(members.cmd, COMMANDS);
        self.log_in(&members, code)?;
        let entry = Entry {
            command,
            operation: word_of(members.op, OPERATIONS),
            object: word_of(members.obj, OBJECTS),
            name: if is_fault_of_form(code) {
                b""
            } else {
                members.name
            },
            code,
            sv_trid,
        };
        self.note_line(&entry, took)
    }

    /// Counts what a line says, and prints it unless the log is quiet.
    fn note_line(&self, entry: &Entry<'_>, took: Duration) -> io::Result<()> {
        if self.is_counting {
            self.count(entry)?;
        }
        if self.is_quiet {
            return Ok(());
        }
        self.print_line(entry, took)
    }

    fn count(&self, entry: &Entry<'_>) -> Result<(), AllocError> {
        let registrar = self.registrar.replace(Vec::new(self.alloc));
        let mut counts = self.take_counts();
        let (command, code) = (entry.command, entry.code.unwrap_or(0));
        let counted = count(self.alloc, &mut counts, &registrar, command, code);
        self.keep_counts(counts);
        self.registrar.set(registrar);
        counted
    }

    /// Keeps who is logged in.
    fn log_in(&self, members: &Members<'_>, code: Option<u16>) -> io::Result<()> {
        if code == Some(COMPLETED) && is_word(members.cmd, b"login") {
            self.registrar.set(Vec::from_slice(self.alloc, members.id)?);
        }
        Ok(())
    }

    fn print_line(&self, entry: &Entry<'_>, took: Duration) -> io::Result<()> {
        let mut line = self.begin_line()?;
        add_entry(&mut line, entry, micros_of(took))?;
        self.print(line)
    }

    fn print_end(&self, how: &str, took: Duration) -> io::Result<()> {
        let mut line = self.begin_line()?;
        line.number(" commands=", self.commands.get())?;
        line.word(" end=", how)?;
        line.number(" us=", micros_of(took))?;
        self.print(line)
    }

    /// Prints a line, and keeps its memory for the next one.
    fn print(&self, line: Line) -> io::Result<()> {
        let mut line = line;
        let printed = io::writer(self.machine).write_all(line.ended()?);
        self.line.set(line.into_memory());
        printed
    }

    /// A line with the clock's moment, the connection and its registrar.
    fn begin_line(&self) -> io::Result<Line> {
        let at = self.moment()?;
        let begun = Line::at(self.line.replace(Vec::new(self.alloc)), &at);
        self.at.set(at);
        let mut line = begun?;
        let registrar = self.registrar.replace(Vec::new(self.alloc));
        let added = add_head(&mut line, self.connection.get(), &registrar);
        self.registrar.set(registrar);
        added?;
        Ok(line)
    }

    /// The text of the clock's moment, which is made once a second.
    fn moment(&self) -> io::Result<Vec<u8>> {
        let secs = self.machine.since_1970()?.as_secs().min(LAST);
        if secs == self.second.get() {
            return Ok(self.at.replace(Vec::new(self.alloc)));
        }
        let moment = match Moment::of_secs(secs as i64) {
            Ok(moment) => moment,
            Err(_) => Moment::first(),
        };
        let text = moment.text(self.alloc)?;
        let at = Vec::from_slice(self.alloc, text.as_bytes())?;
        self.second.set(secs);
        Ok(at)
    }

    /// What was counted, until it is given back.
    pub(crate) fn take_counts(&self) -> Vec<Tally> {
        self.counts.replace(Vec::new(self.alloc))
    }

    pub(crate) fn keep_counts(&self, counts: Vec<Tally>) {
        self.counts.set(counts);
    }

    /// How many connections had their turn, and for how long they waited.
    pub(crate) fn turns(&self) -> u64 {
        self.connection.get()
    }

    pub(crate) fn waited(&self) -> Duration {
        self.waited.get()
    }

    /// How many bytes came and went.
    pub(crate) fn heard_bytes(&self) -> u64 {
        self.heard.get()
    }

    pub(crate) fn sent_bytes(&self) -> u64 {
        self.sent.get()
    }
}

/// What a line says of a command.
#[derive(Clone, Copy)]
struct Entry<'p> {
    command: &'static str,
    operation: &'static str,
    object: &'static str,
    name: &'p [u8],
    code: Option<u16>,
    sv_trid: &'p [u8],
}

/// Adds the number of a connection and its registrar.
fn add_head(line: &mut Line, connection: u64, registrar: &[u8]) -> Result<(), AllocError>
    ensures { OnOk result (line.new.bytes.items ≡ spec.with_head line.old.bytes.items connection registrar.now) }
{
    line.number(" connection=", connection)?;
    line.sent(" registrar=", registrar)
}

/// Adds what a line says of a command.
fn add_entry(line: &mut Line, entry: &Entry<'_>, micros: u64) -> Result<(), AllocError>
    ensures { OnOk result (line.new.bytes.items ≡ spec.with_entry line.old.bytes.items entry.now micros) }
{
    line.word(" command=", entry.command)?;
    line.word(" operation=", entry.operation)?;
    line.word(" object=", entry.object)?;
    line.sent(" name=", entry.name)?;
    line.number(" code=", entry.code.unwrap_or(0))?;
    line.sent(" svTRID=", entry.sv_trid)?;
    line.number(" us=", micros)
}

/// How many microseconds something took.
fn micros_of(took: Duration) -> u64 {
    u64::try_from(took.as_micros()).unwrap_or(u64::MAX)
}

/// So much of a request's target as a line has. On the operator's port an unknown one may be a slip, so it isn't printed,
/// and of a statement's only the beginning is.
fn shown_of(target: &[u8], is_office: bool) -> &[u8]
    ensures { result.now ≡ spec.shown_of target.now is_office }
{
    if !is_office || is_office_target(target) {
        target
    } else if target.starts_with(STATEMENT) {
        STATEMENT
    } else {
        b""
    }
}

/// Whether the operator's port has such a target.
fn is_office_target(target: &[u8]) -> bool
    ensures { result ≡ spec.is_office_target target.now }
{
    target == b"/orders".as_slice()
        || target == b"/zone".as_slice()
        || target == b"/metrics".as_slice()
}

/// Whether a command had another form than it may, so that a secret may be in the place of a name.
fn is_fault_of_form(code: Option<u16>) -> bool
    ensures { result ≡ spec.is_fault_of_form code }
{
    matches!(code, Some(2000..=2005))
}

/// One of some words, or that it is none of them.
fn word_of(text: &[u8], words: &'static [&'static str]) -> &'static str {
    if text.is_empty() {
        return "-";
    }
    for word in words.iter() {
        if is_word(text, word.as_bytes()) {
            return word;
        }
    }
    "-"
}
