//! What is told of accepted programs.

ghost use Rattle.std.specs.Prelude.{◌≡◌, ◌≤◌, length, IfOk};
ghost use Rattle.pr_lens_tool.specs.Accepted.{TellsAccepted, accepted_text};

use pr_lens_warn::put_warnings;
use std::alloc::{AllocError, Global};

/// That a program is accepted; nothing as JSON.
fn accepted_text(json: bool) -> &'static [u8]
    ensures { result.now ≡ accepted_text json }
{
    if json { b"" } else { b"accepted\n" }
}

/// That a program is accepted, and what is pointed out in it, unless that is left out.
pub fn accepted(
    alloc: Global,
    json: bool,
    warnings: bool,
    name: &str,
    text: &[u8],
) -> Result<Vec<u8>, AllocError>
    requires { length text.now ≤ 1048576 }
    ensures { IfOk result (λ told. TellsAccepted json warnings name.now text.now told.items) }
{
    let mut told = Vec::from_slice(alloc, accepted_text(json))?;
    if warnings {
        put_warnings(alloc, &mut told, json, name, text)?;
    }
    Ok(told)
}
