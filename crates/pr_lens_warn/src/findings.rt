//! Warnings, told one after the other.

ghost use Rattle.std.specs.Prelude.{◌≡◌, ◌≤◌, OnOk, length};
ghost use Rattle.pr_lens_warn.specs.Findings.{AreTold, IsTold, WarnsOf};

use crate::comparisons::verdicts_in;
use crate::remarks::Warning;
use crate::telling::{code_of, heading_of, put_message};
use crate::warnings::warnings_of;
use pr_lens_show::{Finding, Severity, put_as};
use pr_lens_source::{Source, spans_of};
use pr_lens_waste::lines_of;
use pr_parse::tokens;
use std::alloc::{AllocError, Global};

/// Tells a warning about the text of a file of this name.
fn put_warning(
    alloc: Global,
    told: &mut Vec<u8>,
    json: bool,
    name: &str,
    source: &Source,
    warning: &Warning,
) -> Result<(), AllocError>
    ensures { OnOk result (IsTold json name.now source.now.text.now source.now.tokens.now warning.now
        told.old.items told.new.items) }
{
    let mut message = Vec::new(alloc);
    put_message(&mut message, source, warning)?;
    let start = source.start(warning.first);
    let finding = Finding {
        severity: Severity::Warning,
        code: code_of(&warning.remark),
        heading: heading_of(&warning.remark),
        start,
        end: source.end(warning.last).max(start),
        message: &message,
    };
    put_as(alloc, told, json, name, source.text, &finding)
}

/// Tells warnings about the text of a file of this name.
fn put_all(
    alloc: Global,
    told: &mut Vec<u8>,
    json: bool,
    name: &str,
    source: &Source,
    warnings: &[Warning],
) -> Result<(), AllocError>
    ensures { OnOk result (AreTold json name.now source.now.text.now source.now.tokens.now warnings.now
        told.old.items told.new.items) }
{
    for warning in warnings {
        put_warning(alloc, told, json, name, source, warning)?;
    }
    Ok(())
}

/// Tells what is pointed out in the text of a file of this name, as JSON or as people read it.
pub fn put_warnings(
    alloc: Global,
    told: &mut Vec<u8>,
    json: bool,
    name: &str,
    text: &[u8],
) -> Result<(), AllocError>
    requires { length text.now ≤ 1048576 }
    ensures { OnOk result (WarnsOf json name.now text.now told.old.items told.new.items) }
{
    let found = tokens(alloc, text)?;
    let spans = spans_of(alloc, &found)?;
    let source = Source {
        text,
        tokens: &found,
        spans: &spans,
    };
    let verdicts = verdicts_in(alloc, text, &found)?;
    let lines = lines_of(alloc, text)?;
    let warnings = warnings_of(alloc, &source, &verdicts, &lines)?;
    put_all(alloc, told, json, name, &source, &warnings)
}
