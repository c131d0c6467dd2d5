//! Below which name of two labels a name lies.
ghost use Rattle.std.specs.Prelude.{◌≡◌, map, IfOk};
ghost use Rattle.sqlcolumns.specs.Above as spec;

use crate::texts::pieces_of;
use basis::text::Text;
use std::alloc::{AllocError, Global};

/// The last two labels of a name, and the whole name where it has fewer.
#[tactic(auto, using(crate::proofs::TextLemmas::joined_is), unfolding(crate::specs::Above::above))]
pub fn above_column(alloc: Global, name: &str) -> Result<Text, AllocError>
    ensures { IfOk result (λ text. text ≡ spec.above name.now) }
{
    let labels = pieces_of(alloc, name, '.')?;
    Ok(Text::from_string(last_two(&labels).join(alloc, ".")?))
}

#[tactic(auto, using(crate::proofs::AboveLemmas::last_two_is))]
fn last_two<'a, 'b>(labels: &'b [&'a str]) -> &'b [&'a str]
    ensures { map (λ l. l.now) result.now ≡ spec.last_two (map (λ l. l.now) labels.entry.now) }
{
    &labels[labels.len().saturating_sub(2)..]
}
