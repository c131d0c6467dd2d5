//! What was counted, as a text for Prometheus.

use crate::counts::Tally;
use crate::line::plain;
use crate::log::Log;
use crate::room::Room;
use crate::rooms::Rooms;
use std::alloc::{AllocError, Global};
use std::time::{self, Duration};

/// The code of a login that opens a session.
const COMPLETED: u16 = 1_000;

/// Writes what a program's log counted, how many connections wait, and how long the log of its database is.
pub fn write_figures<M: time::Clock + Print>(
    alloc: Global,
    log: &Log<'_, M>,
    rooms: &Rooms<Room<'_>>,
    log_bytes: u64,
    text: &mut String,
) -> Result<(), AllocError> {
    let counts = log.take_counts();
    let written = write_counts(alloc, &counts, text);
    log.keep_counts(counts);
    written?;
    write_connections(alloc, log, rooms, text)?;
    write_number(alloc, "tldreg_log_bytes", "gauge", log_bytes, text)
}

/// Writes how often each command was answered so.
fn write_counts(alloc: Global, counts: &[Tally], text: &mut String) -> Result<(), AllocError> {
    text.push_str("# TYPE tldreg_commands_total counter\n")?;
    let mut refused = 0u64;
    for it in counts {
        let (registrar, command) = (plain(alloc, it.registrar.as_slice())?, it.command.as_str());
        let (code, times) = (it.code, it.times);
        let line = format!(in alloc;
            "tldreg_commands_total{{registrar=\"{registrar}\",command=\"{command}\",code=\"{code}\"}} {times}\n"
        )?;
        text.push_str(line.as_str())?;
        if command == "login" && code != COMPLETED {
            refused = refused.wrapping_add(times);
        }
    }
    write_number(
        alloc,
        "tldreg_logins_refused_total",
        "counter",
        refused,
        text,
    )
}

/// Writes the figures of connections.
fn write_connections<M: time::Clock + Print>(
    alloc: Global,
    log: &Log<'_, M>,
    rooms: &Rooms<Room<'_>>,
    text: &mut String,
) -> Result<(), AllocError> {
    let (turns, waiting) = (log.turns(), rooms.count() as u64);
    let (heard, sent) = (log.heard_bytes(), log.sent_bytes());
    write_number(alloc, "tldreg_connections_total", "counter", turns, text)?;
    write_time(
        alloc,
        "tldreg_connections_waited_seconds_total",
        log.waited(),
        text,
    )?;
    write_number(alloc, "tldreg_connections_waiting", "gauge", waiting, text)?;
    write_number(alloc, "tldreg_received_bytes_total", "counter", heard, text)?;
    write_number(alloc, "tldreg_sent_bytes_total", "counter", sent, text)
}

/// Writes how long something took in all.
fn write_time(
    alloc: Global,
    name: &'static str,
    time: Duration,
    text: &mut String,
) -> Result<(), AllocError> {
    let (secs, millis) = (time.as_secs(), time.subsec_millis());
    let line = format!(in alloc; "# TYPE {name} counter\n{name} {secs}.{millis:03}\n")?;
    text.push_str(line.as_str())
}

/// Writes one number with its kind.
fn write_number(
    alloc: Global,
    name: &'static str,
    kind: &'static str,
    number: u64,
    text: &mut String,
) -> Result<(), AllocError> {
    let line = format!(in alloc; "# TYPE {name} {kind}\n{name} {number}\n")?;
    text.push_str(line.as_str())
}
