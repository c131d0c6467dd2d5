//! The command line.
ghost use Rattle.std.specs.Prelude.{◌≡◌, ◌⊎◌, ◌∷◌, IfErr, codes, drop};
ghost use Rattle.script.specs.declared.exit.Exit.TheVariants as exits;
ghost use Rattle.tldreg.specs.inner.Asking.{ReadsAll};
ghost use Rattle.tldreg.specs.inner.Words as spec;

use crate::settings::{OptionKind, Settings, Split, split_of};
use calendar::Moment;
use script::Exit;
use std::alloc::Global;
use std::env::{self, Args};
use std::rt::Env;

/// What a command line asks for.
#[derive(Drop)]
pub enum Task {
    /// `--help`
    Help,
    /// `--version`
    Version,
    /// `run POLICY`
    Run {
        policy: String,
    },
    /// `migrate POLICY OLD NEW`
    Migrate {
        policy: String,
        from: String,
        to: String,
    },
    /// `serve`, `zone`, `deposit` or `order` with `POLICY DB`, and what the job has besides
    OnDatabase {
        policy: String,
        database: String,
        job: Job,
    },
}

/// What is done with the registry of a database.
#[derive(Drop)]
pub enum Job {
    /// `serve POLICY DB PORT`
    Serve {
        port: u16,
    },
    /// `serve POLICY DB PORT OPERATOR_PORT TOKEN_FILE`
    ServeBoth {
        port: u16,
        operator_port: u16,
        token_file: String,
    },
    /// `zone POLICY DB MOMENT`
    Zone {
        moment: Moment,
    },
    /// `deposit POLICY DB MOMENT REGISTRAR CENTS`
    Deposit {
        moment: Moment,
        registrar: String,
        cents: i64,
    },
    /// `order POLICY DB MOMENT JSON`
    Order {
        moment: Moment,
        json: String,
    },
}

/// A task, and what its options say.
#[derive(Drop)]
pub struct Asked {
    pub task: Task,
    pub settings: Settings,
}

/// The task of the words that the program was started with, and what its options say. No clause can say what
/// words the machine gives: `asked_of` says what is made of any.
pub fn read_task(rt: &(impl Env + AllocGlobal)) -> Result<Asked, Exit>
    ensures { IfErr result (λ exit. (exit ≡ exits.Usage) ⊎ (exit ≡ exits.Memory)) }
{
    asked_of(rt.alloc(), words_of(rt)?)
}

/// The task of the words, of which the first is the program's name, and what its options say.
fn asked_of(alloc: Global, words: Args) -> Result<Asked, Exit>
    ensures { ReadsAll (spec.texts words) result }
{
    let Split { plain, settings } = split_of(alloc, words)?;
    let task = task_of(plain.into_iter())?;
    if !settings.kind().is_among(options_of(&task)) {
        return Err(Exit::Usage);
    }
    Ok(Asked { task, settings })
}

/// Which options a task takes.
fn options_of(task: &Task) -> OptionKind
    ensures { result ≡ spec.options_of task.now }
{
    match task {
        Task::OnDatabase {
            job: Job::Serve { .. } | Job::ServeBoth { .. },
            ..
        } => OptionKind::Serving,
        Task::OnDatabase { .. } => OptionKind::OnDatabase,
        _ => OptionKind::None,
    }
}

/// All words. One that isn't UTF-8 makes a wrong command line.
fn words_of(rt: &(impl Env + AllocGlobal)) -> Result<Args, Exit>
    ensures { IfErr result (λ exit. (exit ≡ exits.Usage) ⊎ (exit ≡ exits.Memory)) }
{
    match env::args(rt) {
        Ok(words) => Ok(words),
        Err(error) => match Exit::from(error) {
            Exit::File => Err(Exit::Usage),
            exit => Err(exit),
        },
    }
}

// ---- tasks

/// The task of the words, of which the first is the program's name.
fn task_of(words: Args) -> Result<Task, Exit>
    ensures { spec.ReadsOrUsage (spec.AsksTask (drop 1 (spec.texts words))) result }
{
    let mut words = words;
    let _program = words.next();
    let word = next_word(&mut words)?;
    match word.as_str() {
        "--help" => {
            end_of_words(words)?;
            Ok(Task::Help)
        }
        "--version" => {
            end_of_words(words)?;
            Ok(Task::Version)
        }
        "run" => run_of(words),
        "migrate" => migrate_of(words),
        "serve" => serve_of(words),
        "zone" => zone_of(words),
        "deposit" => deposit_of(words),
        "order" => order_of(words),
        _ => Err(Exit::Usage),
    }
}

/// `run POLICY`, of the words after the first.
fn run_of(words: Args) -> Result<Task, Exit>
    ensures { spec.ReadsOrUsage (spec.AsksTask (codes "run" ∷ spec.texts words)) result }
{
    let mut words = words;
    let policy = next_word(&mut words)?;
    end_of_words(words)?;
    Ok(Task::Run { policy })
}

/// `migrate POLICY OLD NEW`
fn migrate_of(words: Args) -> Result<Task, Exit>
    ensures { spec.ReadsOrUsage (spec.AsksTask (codes "migrate" ∷ spec.texts words)) result }
{
    let mut words = words;
    let policy = next_word(&mut words)?;
    let from = next_word(&mut words)?;
    let to = next_word(&mut words)?;
    end_of_words(words)?;
    Ok(Task::Migrate { policy, from, to })
}

/// `serve POLICY DB PORT`, and maybe `OPERATOR_PORT TOKEN_FILE`
fn serve_of(words: Args) -> Result<Task, Exit>
    ensures { spec.ReadsOrUsage (spec.AsksTask (codes "serve" ∷ spec.texts words)) result }
{
    let mut words = words;
    let policy = next_word(&mut words)?;
    let database = next_word(&mut words)?;
    let port = next_word(&mut words)?;
    let job = serving_of(port_of(port.as_str())?, words)?;
    Ok(Task::OnDatabase {
        policy,
        database,
        job,
    })
}

/// A port to serve, and what the words after it say of the operator's.
fn serving_of(port: u16, words: Args) -> Result<Job, Exit>
    ensures { spec.ReadsOrUsage (spec.AsksServing port (spec.texts words)) result }
{
    let mut words = words;
    match words.next() {
        None => Ok(Job::Serve { port }),
        Some(operator_port) => {
            let token_file = next_word(&mut words)?;
            end_of_words(words)?;
            Ok(Job::ServeBoth {
                port,
                operator_port: port_of(operator_port.as_str())?,
                token_file,
            })
        }
    }
}

/// `zone POLICY DB MOMENT`
fn zone_of(words: Args) -> Result<Task, Exit>
    ensures { spec.ReadsOrUsage (spec.AsksTask (codes "zone" ∷ spec.texts words)) result }
{
    let mut words = words;
    let policy = next_word(&mut words)?;
    let database = next_word(&mut words)?;
    let moment = next_word(&mut words)?;
    end_of_words(words)?;
    let job = Job::Zone {
        moment: moment_of(moment.as_str())?,
    };
    Ok(Task::OnDatabase {
        policy,
        database,
        job,
    })
}

/// `deposit POLICY DB MOMENT REGISTRAR CENTS`
fn deposit_of(words: Args) -> Result<Task, Exit>
    ensures { spec.ReadsOrUsage (spec.AsksTask (codes "deposit" ∷ spec.texts words)) result }
{
    let mut words = words;
    let policy = next_word(&mut words)?;
    let database = next_word(&mut words)?;
    let moment = next_word(&mut words)?;
    let registrar = next_word(&mut words)?;
    let cents = next_word(&mut words)?;
    end_of_words(words)?;
    let job = Job::Deposit {
        moment: moment_of(moment.as_str())?,
        registrar,
        cents: cents_of(cents.as_str())?,
    };
    Ok(Task::OnDatabase {
        policy,
        database,
        job,
    })
}

/// `order POLICY DB MOMENT JSON`
fn order_of(words: Args) -> Result<Task, Exit>
    ensures { spec.ReadsOrUsage (spec.AsksTask (codes "order" ∷ spec.texts words)) result }
{
    let mut words = words;
    let policy = next_word(&mut words)?;
    let database = next_word(&mut words)?;
    let moment = next_word(&mut words)?;
    let json = next_word(&mut words)?;
    end_of_words(words)?;
    let job = Job::Order {
        moment: moment_of(moment.as_str())?,
        json,
    };
    Ok(Task::OnDatabase {
        policy,
        database,
        job,
    })
}

// ---- words

/// The next word, where there is one.
fn next_word(words: &mut Args) -> Result<String, Exit>
    ensures { spec.IsNext (spec.texts words.old) result (spec.texts words.new) }
{
    match words.next() {
        Some(word) => Ok(word),
        None => Err(Exit::Usage),
    }
}

/// The end, where no word is left.
fn end_of_words(words: Args) -> Result<(), Exit>
    ensures { spec.IsEnd (spec.texts words) result }
{
    let mut words = words;
    match words.next() {
        None => Ok(()),
        Some(_) => Err(Exit::Usage),
    }
}

/// A port, from 1 to 65535.
fn port_of(word: &str) -> Result<u16, Exit>
    ensures { spec.ReadsOrUsage (spec.IsPort word.now) result }
{
    match word.parse() {
        Ok(0) | Err(_) => Err(Exit::Usage),
        Ok(port) => Ok(port),
    }
}

/// A moment's text.
fn moment_of(word: &str) -> Result<Moment, Exit>
    ensures { spec.ReadsOrUsage (spec.IsMomentText word.now) result }
{
    match Moment::read(word) {
        Some(moment) => {
            // Shows the prover that it is within the range.
            let _secs = moment.secs();
            Ok(moment)
        }
        None => Err(Exit::Usage),
    }
}

/// A number of cents, whether so many can be deposited or not.
fn cents_of(word: &str) -> Result<i64, Exit>
    ensures { spec.ReadsOrUsage (spec.IsCents word.now) result }
{
    match word.parse() {
        Ok(cents) => Ok(cents),
        Err(_) => Err(Exit::Usage),
    }
}
