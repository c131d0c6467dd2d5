//! The program `tldreg`: the registry of a top-level domain.
#![tactic(auto)]

ghost use Rattle.std.specs.Prelude.{◌≡◌, false, IfErr, IfOk, IfSome, None, option_copied};
ghost use Rattle.books.specs.Book.{Follows};
ghost use Rattle.script.specs.Exits.{exit_of_book};
ghost use Rattle.protocol.specs.declared.order.OperatorRequest.TheVariants as requests;
ghost use Rattle.protocol.specs.declared.order.Order.TheVariants as orders;
ghost use Rattle.tldreg.specs.inner.Databases as databases;
ghost use Rattle.tldreg.specs.inner.Ends as spec;
ghost use Rattle.tldreg.specs.inner.Ends.{EndsJob, EndsOrder, EndsRequest, EndsWithin, EndsZone};
ghost use Rattle.tldreg.specs.inner.Words as words;

mod command_line;
mod database;
mod nearness;
mod settings;
mod texts;
mod token;

use books::{Book, BookFault};
use calendar::Moment;
use command_line::{Asked, Job, Task, read_task};
use database::{file_in, is_in_memory, log_file_of, open};
use frames::Clock;
use listening::{Office, serve_port, serve_ports};
use memory::run_script;
use nearness::require_near;
use policy::{Passwords, Policy, PolicyFile};
use protocol::Code;
use registry::{OpenFault, Registry};
use script::{Exit, deposit_on, order_on};
use server::{MachineClock, ZoneExportFault, zone_on};
use settings::Settings;
use sqlite::{Alter, Connection, Start, Unknown, Wary};
use std::alloc::Global;
use std::io::Write;
use std::net::{Ipv4Addr, TcpListener};
use std::process::ExitCode;
use std::rt::Files;
use std::{fs, io, time};
use takeover::migrate_on;
use texts::{HELP, VERSION};
use token::{End, credentials_of, ended};
use wires::Log;
use zonefile::ZoneFault;

/// Answers the script that standard input is.
fn run(rt: &(impl Files + Input + Print + AllocGlobal), policy: &str) -> Result<(), Exit> {
    let policy = fs::read(rt, policy)?;
    run_script(rt.alloc(), &policy, rt.reader(), &mut io::writer(rt)).result()
}

/// How a job is done: what the options say, how registrars log in, what is said by whoever has the operator's token, and
/// the file of the database's log, if it is in a file.
#[derive(Clone, Copy)]
struct Means<'m> {
    settings: &'m Settings,
    passwords: &'m Passwords,
    credentials: &'m [u8],
    log_file: &'m str,
}

/// Does a job with the registry of a database.
fn work_on(
    rt: &HostRuntime,
    policy: &str,
    database: &str,
    job: &Job,
    settings: &Settings,
) -> Result<(), End> {
    let credentials = credentials_of(rt, job)?;
    let PolicyFile { policy, passwords } = file_in(rt, policy)?;
    let log_file = log_file_of(rt.alloc(), database)?;
    let means = Means {
        settings,
        passwords: &passwords,
        credentials: &credentials,
        log_file: log_file.as_str(),
    };
    if is_in_memory(database) {
        ended(work_over(rt, sqlbook::in_memory(rt.alloc()), policy, job, &means))
    } else {
        ended(work_in_file(rt, database, policy, job, &means))
    }
}

/// The same over a file. It hands on what opening gave: a call with a book of a known kind costs the prover
/// much.
fn work_in_file(
    rt: &HostRuntime,
    path: &str,
    policy: Policy,
    job: &Job,
    means: &Means<'_>,
) -> Result<(), Exit> {
    work_with(
        rt,
        bookfiles::registry_in(rt, path, Unknown, policy),
        job,
        means,
    )
}

/// The same over a book, if it was made, in which no transaction is open.
fn work_over<B: Book + Drop>(
    rt: &HostRuntime,
    made: Result<B, BookFault>,
    policy: Policy,
    job: &Job,
    means: &Means<'_>,
) -> Result<(), Exit>
    requires { IfOk made (λ book. (B.state book).is_open ≡ false) }
    ensures { IfErr made (λ fault. result ≡ Err (exit_of_book fault)) }
{
    match made {
        Ok(book) => work_with(rt, open(rt.alloc(), book, policy), job, means),
        Err(fault) => Err(Exit::from(fault)),
    }
}

/// The same with a registry, if it was opened. It is let go in the end, so no clause here knows what became of it:
/// `work` and `serve_then` say that.
fn work_with<B: Book + Drop>(
    rt: &HostRuntime,
    opened: Result<Registry<B>, OpenFault>,
    job: &Job,
    means: &Means<'_>,
) -> Result<(), Exit>
    ensures { IfErr opened (λ fault. result ≡ Err (Exit.Open fault)) }
{
    match opened {
        Ok(registry) => {
            let mut registry = registry;
            work(rt, &mut registry, job, means.settings.within)?;
            serve_then(rt, registry, job, means)
        }
        Err(fault) => Err(Exit::Open(fault)),
    }
}

/// Does a job that doesn't serve, if its moment, or the machine's, is no further from the registry's clock than it may be.
fn work<B: Book + Drop>(
    rt: &(impl time::Clock + Print + AllocGlobal),
    registry: &mut Registry<B>,
    job: &Job,
    within: Option<u32>,
) -> Result<(), Exit>
    ensures { EndsWithin within registry.old.policy job.now (B.state registry.old.book)
        (B.state registry.new.book) result }
{
    let Some(days) = within else {
        return do_job(rt, registry, job);
    };
    require_near(registry, moment_of(rt, job), days)?;
    do_job(rt, registry, job)
}

/// The moment of a job. That of `serve` is the machine's.
fn moment_of(machine: &impl time::Clock, job: &Job) -> Moment
    ensures { IfSome (words.moment_of_job job.now) (λ moment. result ≡ moment) }
{
    match job {
        Job::Serve { .. } | Job::ServeBoth { .. } => MachineClock::new(machine).moment(),
        Job::Zone { moment } | Job::Deposit { moment, .. } | Job::Order { moment, .. } => *moment,
    }
}

/// Does a job that doesn't serve, whatever its moment.
fn do_job<B: Book + Drop>(
    rt: &(impl Print + AllocGlobal),
    registry: &mut Registry<B>,
    job: &Job,
) -> Result<(), Exit>
    ensures ends { EndsJob registry.old.policy job.now (B.state registry.old.book)
        (B.state registry.new.book) result }
    ensures follows { Follows (B.state registry.old.book) (B.state registry.new.book) }
{
    match job {
        Job::Serve { .. } | Job::ServeBoth { .. } => Ok(()),
        Job::Zone { moment } => zone(rt, registry, *moment),
        Job::Deposit {
            moment,
            registrar,
            cents,
        } => deposit(rt, registry, *moment, registrar.as_str(), *cents),
        Job::Order { moment, json } => order(rt, registry, *moment, json.as_str()),
    }
}

/// Serves, if the job is to serve.
fn serve_then<B: Book + Drop>(
    rt: &HostRuntime,
    registry: Registry<B>,
    job: &Job,
    means: &Means<'_>,
) -> Result<(), Exit>
    ensures { result ≡ spec.served job.now }
{
    match job {
        Job::Serve { port } => serve(rt, registry, *port, means),
        Job::ServeBoth {
            port,
            operator_port,
            ..
        } => serve_both(rt, registry, *port, *operator_port, means),
        Job::Zone { .. } | Job::Deposit { .. } | Job::Order { .. } => Ok(()),
    }
}

/// Serves connections to a port of this machine, which ends only where none can be accepted.
fn serve<B: Book + Drop>(
    rt: &HostRuntime,
    registry: Registry<B>,
    port: u16,
    means: &Means<'_>,
) -> Result<(), Exit>
    ensures { result ≡ Err Exit.Network }
{
    let Ok(listener) = TcpListener::bind(rt, (Ipv4Addr::LOCALHOST, port)) else {
        return Err(Exit::Network);
    };
    let log = Log::new(rt.alloc(), rt, means.settings.is_quiet, false);
    serve_port(
        rt.alloc(),
        rt,
        &listener,
        &means.settings.limits,
        &log,
        means.passwords,
        registry,
    );
    Err(Exit::Network)
}

/// The same with the operator's port.
fn serve_both<B: Book + Drop>(
    rt: &HostRuntime,
    registry: Registry<B>,
    port: u16,
    operator_port: u16,
    means: &Means<'_>,
) -> Result<(), Exit>
    ensures { result ≡ Err Exit.Network }
{
    let Ok(public) = TcpListener::bind(rt, (Ipv4Addr::LOCALHOST, port)) else {
        return Err(Exit::Network);
    };
    let Ok(listener) = TcpListener::bind(rt, (Ipv4Addr::LOCALHOST, operator_port)) else {
        return Err(Exit::Network);
    };
    let office = Office {
        listener: &listener,
        credentials: means.credentials,
        log_file: file_named(means.log_file),
    };
    serve_office(rt, registry, &public, &office, means);
    Err(Exit::Network)
}

/// The file of a name; the empty name is that of none.
fn file_named(name: &str) -> Option<&str>
    ensures { option_copied result ≡ databases.file_named name.now }
{
    if name.is_empty() { None } else { Some(name) }
}

/// Serves connections to both ports.
fn serve_office<B: Book + Drop>(
    rt: &HostRuntime,
    registry: Registry<B>,
    public: &TcpListener,
    office: &Office<'_>,
    means: &Means<'_>,
) {
    let log = Log::new(rt.alloc(), rt, means.settings.is_quiet, true);
    serve_ports(
        rt.alloc(),
        rt,
        public,
        office,
        &means.settings.limits,
        &log,
        means.passwords,
        registry,
    );
}

/// Prints the zone at a moment. No clause knows what was printed.
fn zone<B: Book + Drop>(
    rt: &(impl Print + AllocGlobal),
    registry: &mut Registry<B>,
    moment: Moment,
) -> Result<(), Exit>
    ensures { EndsZone registry.old.policy moment (B.state registry.old.book)
        (B.state registry.new.book) None None result }
{
    zone_to(rt.alloc(), registry, moment, &mut io::writer(rt))
}

/// Writes the zone at a moment, and says how the program ends.
fn zone_to<B: Book + Drop, W: Write>(
    alloc: Global,
    registry: &mut Registry<B>,
    moment: Moment,
    out: &mut W,
) -> Result<(), Exit>
    ensures { EndsZone registry.old.policy moment (B.state registry.old.book)
        (B.state registry.new.book) (W.contents out.old) (W.contents out.new) result }
{
    zone_end(zone_on(alloc, registry, moment, out))
}

/// How the program ends after a zone.
fn zone_end(written: Result<(), ZoneExportFault>) -> Result<(), Exit>
    ensures { result ≡ spec.zone_end written }
{
    match written {
        Ok(()) => Ok(()),
        Err(ZoneExportFault::Registry(fault)) => Err(Exit::Registry(fault)),
        Err(ZoneExportFault::Zone(ZoneFault::Memory)) => Err(Exit::Memory),
        Err(ZoneExportFault::Zone(ZoneFault::Write)) => Err(Exit::File),
    }
}

/// Enters what a registrar has paid at a moment, and prints the answer. No clause knows what was printed.
fn deposit<B: Book + Drop>(
    rt: &(impl Print + AllocGlobal),
    registry: &mut Registry<B>,
    moment: Moment,
    registrar: &str,
    cents: i64,
) -> Result<(), Exit>
    ensures ends { EndsRequest registry.old.policy
        (requests.Order (orders.Deposit registrar.now cents)) moment (B.state registry.old.book)
        (B.state registry.new.book) None None result }
    ensures follows { Follows (B.state registry.old.book) (B.state registry.new.book) }
{
    let mut out = io::writer(rt);
    deposit_to(rt.alloc(), registry, moment, registrar, cents, &mut out)
}

/// The same, with the answer written, and how the program ends.
fn deposit_to<B: Book + Drop, W: Write>(
    alloc: Global,
    registry: &mut Registry<B>,
    moment: Moment,
    registrar: &str,
    cents: i64,
    out: &mut W,
) -> Result<(), Exit>
    ensures ends { EndsRequest registry.old.policy
        (requests.Order (orders.Deposit registrar.now cents)) moment (B.state registry.old.book)
        (B.state registry.new.book) (W.contents out.old) (W.contents out.new) result }
    ensures follows { Follows (B.state registry.old.book) (B.state registry.new.book) }
{
    request_end(deposit_on(alloc, registry, moment, registrar, cents, out))
}

/// Carries out what the operator sends at a moment, and prints the answer. No clause knows what was printed.
fn order<B: Book + Drop>(
    rt: &(impl Print + AllocGlobal),
    registry: &mut Registry<B>,
    moment: Moment,
    json: &str,
) -> Result<(), Exit>
    ensures ends { EndsOrder registry.old.policy json.now moment (B.state registry.old.book)
        (B.state registry.new.book) None None result }
    ensures follows { Follows (B.state registry.old.book) (B.state registry.new.book) }
{
    order_to(rt.alloc(), registry, moment, json, &mut io::writer(rt))
}

/// The same, with the answer written, and how the program ends.
fn order_to<B: Book + Drop, W: Write>(
    alloc: Global,
    registry: &mut Registry<B>,
    moment: Moment,
    json: &str,
    out: &mut W,
) -> Result<(), Exit>
    ensures ends { EndsOrder registry.old.policy json.now moment (B.state registry.old.book)
        (B.state registry.new.book) (W.contents out.old) (W.contents out.new) result }
    ensures follows { Follows (B.state registry.old.book) (B.state registry.new.book) }
{
    request_end(order_on(alloc, registry, moment, json.as_bytes(), out))
}

/// How the program ends after what the operator sent.
fn request_end(answered: Result<Code, Exit>) -> Result<(), Exit>
    ensures { result ≡ spec.request_end answered }
{
    match answered {
        Ok(Code::Completed) => Ok(()),
        Ok(_) => Err(Exit::Refused),
        Err(exit) => Err(exit),
    }
}

/// Takes the registry of one database file over into another. Where there is no file of the first name, none
/// is made. Two types stand for what the two files hold, since one would say that they hold the same.
fn migrate(rt: &HostRuntime, policy: &str, from: &str, to: &str) -> Result<(), Exit> {
    let policy = file_in(rt, policy)?.policy;
    drop(fs::open(rt, from)?);
    migrate_from(
        rt,
        &policy,
        bookfiles::connection_in(rt, from, Wary),
        to,
        Unknown,
    )
}

/// The same from a connection, if it was opened. `T` stands for what the other file holds.
fn migrate_from<S: Alter + Drop, T: Start>(
    rt: &HostRuntime,
    policy: &Policy,
    from: Result<Connection<S>, OpenFault>,
    to: &str,
    start: T,
) -> Result<(), Exit>
    ensures { IfErr from (λ fault. result ≡ Err (Exit.Open fault)) }
{
    match from {
        Ok(from) => migrate_to(rt, policy, from, bookfiles::connection_in(rt, to, start)),
        Err(fault) => Err(Exit::Open(fault)),
    }
}

/// The same into a connection, if it was opened.
fn migrate_to<S: Alter + Drop, T: Alter + Drop>(
    rt: &HostRuntime,
    policy: &Policy,
    from: Connection<S>,
    to: Result<Connection<T>, OpenFault>,
) -> Result<(), Exit>
    ensures { IfErr to (λ fault. result ≡ Err (Exit.Open fault)) }
{
    match to {
        Ok(to) => migrate_on(rt.alloc(), policy, from, to)?.exit.result(),
        Err(fault) => Err(Exit::Open(fault)),
    }
}

/// Prints a text of the program's own.
fn print(rt: &impl Print, text: &str) -> Result<(), Exit> {
    println!(rt; "{text}")?;
    Ok(())
}

fn perform(rt: &HostRuntime) -> Result<(), End> {
    let Asked { task, settings } = read_task(rt)?;
    match task {
        Task::Help => ended(print(rt, HELP)),
        Task::Version => ended(print(rt, VERSION)),
        Task::Run { policy } => ended(run(rt, policy.as_str())),
        Task::Migrate { policy, from, to } => {
            ended(migrate(rt, policy.as_str(), from.as_str(), to.as_str()))
        }
        Task::OnDatabase {
            policy,
            database,
            job,
        } => work_on(rt, policy.as_str(), database.as_str(), &job, &settings),
    }
}

fn main(rt: HostRuntime) -> ExitCode {
    let done = perform(&rt);
    tell(&rt, &done);
    ExitCode::from(status_of(&done))
}

/// Prints the line of standard error, where there is one.
fn tell(rt: &impl Eprint, done: &Result<(), End>) {
    match done {
        Ok(()) => {}
        Err(End::Exit(exit)) => {
            if exit.has_line() {
                let _ = eprintln!(rt; "{exit}");
            }
        }
        Err(End::Token(unfit)) => {
            let _ = eprintln!(rt; "{}", unfit.text());
        }
    }
}

/// The exit status.
fn status_of(done: &Result<(), End>) -> u8
    ensures { result ≡ spec.status_of_end done.now }
{
    match done {
        Ok(()) => 0,
        Err(End::Exit(exit)) => exit.status(),
        Err(End::Token(_)) => 1,
    }
}
