//! The labels of streams.

ghost use Rattle.std.specs.Prelude.{◌≡◌, ℕ, List, IfOk, map};
ghost use Rattle.std.specs.Global.{Vec};
ghost use Rattle.pr_lens_notes.specs.Labels.{label_of};

use pr_lens_origins::{Stream, put_stream};
use pr_lens_text::{put, put_counted};
use std::alloc::{AllocError, Global};

/// A stream with the line of its name, as in `line 12, s[3]`.
fn label_of(alloc: Global, stream: &Stream) -> Result<Vec<u8>, AllocError>
    ensures { IfOk result (λ text. text.items ≡ label_of stream.now) }
{
    let mut text = Vec::new(alloc);
    put_counted(&mut text, "line ", stream.spot.line)?;
    put(&mut text, ", ")?;
    put_stream(&mut text, stream)?;
    Ok(text)
}

/// The labels of streams.
pub fn labels(alloc: Global, streams: &[Stream]) -> Result<Vec<Vec<u8>>, AllocError>
    ensures { IfOk result (λ labels. map (λ (text : Vec ℕ). text.items) labels.items ≡ map label_of streams.now) }
{
    let mut labels = Vec::new(alloc);
    for stream in streams {
        labels.push(label_of(alloc, stream)?)?;
    }
    Ok(labels)
}
