//! The labels of a set that was read.
ghost use Rattle.std.specs.Prelude.{◌≡◌, IfOk};
ghost use Rattle.raw_lines.specs.LabelsOf.{places_in};
ghost use Rattle.raw_debug_live.specs.Serving.{labels_of};

use raw_lines::TextLabels;
use raw_live_head::Begun;
use std::alloc::{AllocError, Global};

/// The labels of the programs of a set that was read.
pub(crate) fn labels_of(alloc: Global, begun: &Begun) -> Result<TextLabels<'_>, AllocError>
    ensures { IfOk result (λ labels. places_in labels ≡ labels_of begun.now) }
{
    let count = begun.text.line_count();
    let Ok(labels) = TextLabels::new(alloc, &begun.text, count, &begun.set.topo) else {
        return Err(AllocError);
    };
    Ok(labels)
}
