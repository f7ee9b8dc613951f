//! The streams that take most units, as a table.

ghost use Rattle.std.specs.Prelude.{◌≡◌, ◌++◌, OnOk};
ghost use Rattle.std.specs.List.{flat_map};
ghost use Rattle.pr_lens_cost.specs.Texts.{share_text, streams_text};

use crate::tables::put_right;
use pr_lens_shares::Share;
use pr_lens_text::put;
use pr_lens_tracks::put_index;
use std::alloc::AllocError;

/// Adds the line of a stream.
#[tactic(auto, unfolding(crate::specs::Texts::share_text))]
fn put_share(text: &mut Vec<u8>, share: &Share) -> Result<(), AllocError>
    ensures { OnOk result (text.new.items ≡ text.old.items ++ share_text share.now) }
{
    put_right(text, 8, share.units as u64)?;
    put(text, "  ")?;
    text.extend_from_slice(share.name.as_bytes())?;
    put_index(text, share.index)?;
    put(text, "\n")
}

/// Adds the lines of streams.
fn put_shares(text: &mut Vec<u8>, shares: &[Share]) -> Result<(), AllocError>
    ensures { OnOk result (text.new.items ≡ text.old.items ++ flat_map share_text shares.now) }
{
    for share in shares {
        put_share(text, share)?;
    }
    Ok(())
}

/// Adds the table of streams, where there are any.
#[tactic(auto, unfolding(crate::specs::Texts::streams_text))]
pub fn put_streams(text: &mut Vec<u8>, shares: &[Share]) -> Result<(), AllocError>
    ensures { OnOk result (text.new.items ≡ text.old.items ++ streams_text shares.now) }
{
    if 0 < shares.len() {
        put(text, "\n   units  stream\n")?;
        return put_shares(text, shares);
    }
    Ok(())
}
