//! Figures of a program and of its registry, as a text for Prometheus.
ghost use Rattle.std.specs.Prelude.{◌≡◌, ◌++◌, ℕ, List, string_bytes, IfOk, OnOk};
ghost use Rattle.operator.specs.Answers.{clock_figure, due_figure, registry_figures};

use calendar::Moment;
use registry::Backlog;
use std::alloc::{AllocError, Global};

/// The figures of a program.
pub trait Figures {
    /// Writes lines of Prometheus' text format.
    fn write(&self, alloc: Global, text: &mut String) -> Result<(), AllocError>;
}

/// All figures, with the registry's at their end.
pub(crate) fn figures_of<F: Figures>(
    alloc: Global,
    figures: &F,
    backlog: Backlog,
) -> Result<String, AllocError>
    ensures { IfOk result (λ text. (front : List ℕ) × (string_bytes text ≡ front ++ registry_figures backlog)) }
{
    let mut text = String::new(alloc);
    figures.write(alloc, &mut text)?;
    push_registry(alloc, &mut text, backlog)?;
    Ok(text)
}

fn push_registry(alloc: Global, text: &mut String, backlog: Backlog) -> Result<(), AllocError>
    ensures { OnOk result (string_bytes text.new ≡ string_bytes text.old ++ registry_figures backlog) }
{
    let (clock, due) = (
        clock_lines(alloc, backlog.clock)?,
        due_lines(alloc, backlog.due)?,
    );
    text.push_str(clock.as_str())?;
    text.push_str(due.as_str())
}

#[tactic(auto, unfolding(crate::specs::Answers::clock_figure))]
fn clock_lines(alloc: Global, clock: Moment) -> Result<String, AllocError>
    ensures { IfOk result (λ text. string_bytes text ≡ clock_figure clock) }
{
    let secs = secs_of(clock);
    format!(in alloc;
        "# TYPE tldreg_registry_clock_seconds gauge\ntldreg_registry_clock_seconds {secs}\n"
    )
}

#[tactic(auto, unfolding(crate::specs::Answers::due_figure))]
fn due_lines(alloc: Global, due: usize) -> Result<String, AllocError>
    ensures { IfOk result (λ text. string_bytes text ≡ due_figure due) }
{
    format!(in alloc; "# TYPE tldreg_due_objects gauge\ntldreg_due_objects {due}\n")
}

fn secs_of(moment: Moment) -> u64
    ensures { result ≡ moment }
{
    moment.secs().unsigned_abs()
}
