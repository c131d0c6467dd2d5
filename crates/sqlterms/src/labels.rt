//! Labels as one text, one in each line.
ghost use Rattle.std.specs.Prelude.{◌≡◌, IfOk};
ghost use Rattle.sqlterms.specs.Terms as spec;

use basis::sets::NameSet;
use basis::text::Text;
use sqlcolumns::{street_column, street_of_column};
use std::alloc::{AllocError, Global};

/// The labels with a line feed between them; none where one has a line feed.
pub(crate) fn labels_column(alloc: Global, labels: &[Text]) -> Result<Option<Text>, AllocError>
    ensures { IfOk result (λ text. text ≡ spec.labels_column labels.now) }
{
    if labels.is_empty() {
        return Ok(Some(Text::from_string(String::new(alloc))));
    }
    street_column(alloc, labels)
}

/// The set of the labels of a text.
pub(crate) fn reserved_of_column(alloc: Global, text: &str) -> Result<NameSet, AllocError>
    ensures { IfOk result (λ names. names ≡ spec.reserved_in text.now) }
{
    if text.is_empty() {
        return Ok(NameSet::of_list(Vec::new(alloc)));
    }
    let labels = street_of_column(alloc, text)?;
    Ok(NameSet::of_list(labels.into_vec()))
}
