//! Streams as texts.

ghost use Rattle.std.specs.Prelude.{◌≡◌, ◌++◌, OnOk};
ghost use Rattle.pr_lens_origins.specs.Origins.{stream_text};

use crate::streams::Stream;
use pr_lens_tracks::put_index;
use std::alloc::AllocError;

/// Adds the name of a stream, with its index.
pub fn put_stream(text: &mut Vec<u8>, stream: &Stream) -> Result<(), AllocError>
    ensures { OnOk result (text.new.items ≡ text.old.items ++ stream_text stream.now) }
{
    text.extend_from_slice(stream.name.as_bytes())?;
    put_index(text, stream.index)
}
