//! The options of a command line: `--NAME VALUE`, and `--quiet`, among its other words.
ghost use Rattle.std.specs.Prelude.{◌≡◌, ◌∷◌, string_bytes};
ghost use Rattle.tldreg.specs.inner.Options as spec;
ghost use Rattle.tldreg.specs.inner.Words.{ReadsOrUsage, texts};

use script::Exit;
use std::alloc::Global;
use std::env::Args;
use std::time::Duration;
use wires::Limits;

/// The most seconds of a limit: a day.
const MOST_SECONDS: u32 = 86_400;

/// The most days between a moment and the registry's clock: two hundred years.
const MOST_DAYS: u32 = 73_049;

/// Which options are meant: each kind has those of the ones before it.
#[derive(Clone, Copy, Debug, PartialEq, Eq, PartialOrd, Ord)]
pub enum OptionKind {
    /// None at all.
    None,
    /// Those of a job with the registry of a database.
    OnDatabase,
    /// Those of `serve`.
    Serving,
}

impl OptionKind {
    /// Whether a task that takes options of another kind takes these.
    pub fn is_among(self, taken: OptionKind) -> bool
        ensures { result ≡ spec.is_among self taken }
    {
        self <= taken
    }
}

/// What the options of a command line say.
#[derive(Clone, Copy)]
pub struct Settings {
    /// How many days a moment may be from the registry's clock.
    pub within: Option<u32>,
    /// Whether no log is printed.
    pub is_quiet: bool,
    /// How long a connection may take.
    pub limits: Limits,
    kind: OptionKind,
}

impl Settings {
    /// Those of a command line without options.
    fn usual() -> Settings
        ensures { spec.IsUsual result }
    {
        Settings {
            within: None,
            is_quiet: false,
            limits: Limits::usual(),
            kind: OptionKind::None,
        }
    }

    /// Which options there were.
    pub fn kind(&self) -> OptionKind
        ensures { result ≡ self.now.kind }
    {
        self.kind
    }

    /// Takes an option with its value.
    #[tactic(auto, using(crate::proofs::OptionLemmas::limit_set))]
    fn set(&mut self, name: &str, value: &str) -> Result<(), Exit>
        ensures { spec.IsSet (spec.Says self.old name.now value.now) self.new result }
    {
        if name == "--within" {
            return self.set_days(value);
        }
        self.set_limit(name, value)
    }

    /// Takes how many days a moment may be from the registry's clock.
    fn set_days(&mut self, value: &str) -> Result<(), Exit>
        ensures { spec.IsSet (spec.SaysDays self.old value.now) self.new result }
    {
        self.within = Some(number_of(value, MOST_DAYS)?);
        self.kind = self.kind.max(OptionKind::OnDatabase);
        Ok(())
    }

    /// Takes a limit of a connection.
    fn set_limit(&mut self, name: &str, value: &str) -> Result<(), Exit>
        ensures { spec.IsSet (spec.SaysLimit self.old name.now value.now) self.new result }
    {
        let time = Duration::from_secs(u64::from(number_of(value, MOST_SECONDS)?));
        let Some(limits) = with_limit(self.limits, name, time) else {
            return Err(Exit::Usage);
        };
        self.limits = limits;
        self.kind = OptionKind::Serving;
        Ok(())
    }

    /// Takes an option without a value.
    fn set_quiet(&mut self)
        ensures { self.new ≡ spec.quiet self.old }
    {
        self.is_quiet = true;
        self.kind = OptionKind::Serving;
    }
}

/// A command line without its options, and what they say.
#[derive(Drop)]
pub struct Split {
    pub plain: Vec<String>,
    pub settings: Settings,
}

/// Takes the options out of the words of a command line.
pub fn split_of(alloc: Global, words: Args) -> Result<Split, Exit>
    ensures { spec.SplitsWords (texts words) result }
{
    let mut words = words;
    let mut split = Split {
        plain: Vec::new(alloc),
        settings: Settings::usual(),
    };
    'words: for _ in 0..words.len() {
        let Some(word) = words.next() else {
            return Ok(split);
        };
        take_word(&mut split, word, &mut words)?;
    }
    Ok(split)
}

/// Takes one word, and its value where it is an option that has one.
fn take_word(split: &mut Split, word: String, words: &mut Args) -> Result<(), Exit>
    ensures { spec.TakesWord (string_bytes word ∷ texts words.old) split.old (texts words.new) split.new result }
{
    if !is_option(word.as_str()) {
        split.plain.push(word)?;
        return Ok(());
    }
    if word.as_str() == "--quiet" {
        split.settings.set_quiet();
        return Ok(());
    }
    let Some(value) = words.next() else {
        return Err(Exit::Usage);
    };
    split.settings.set(word.as_str(), value.as_str())
}

/// Whether a word is an option. Those that ask for a text alone are words.
fn is_option(word: &str) -> bool
    ensures { result ≡ spec.is_option word.now }
{
    word.as_bytes().starts_with(b"--") && word != "--help" && word != "--version"
}

/// The limits where an option of this name says another time, if there is such an option.
fn with_limit(limits: Limits, name: &str, time: Duration) -> Option<Limits>
    ensures { result ≡ spec.with_limit limits name.now time }
{
    let mut limits = limits;
    match name {
        "--first" => limits.first = time,
        "--head" => limits.head = time,
        "--frame" => limits.frame = time,
        "--login" => limits.login = time,
        "--pause" => limits.pause = time,
        "--still" => limits.still = time,
        "--session" => limits.session = time,
        _ => return None,
    }
    Some(limits)
}

/// A number from 1 to the most.
fn number_of(word: &str, most: u32) -> Result<u32, Exit>
    ensures { ReadsOrUsage (spec.IsCount most word.now) result }
{
    match word.parse::<u32>() {
        Ok(number) if number > 0 && number <= most => Ok(number),
        _ => Err(Exit::Usage),
    }
}
