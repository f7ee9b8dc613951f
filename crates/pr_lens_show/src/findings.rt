//! Findings about a text.

ghost use Rattle.std.specs.Prelude.{◌≡◌, ◌≤◌, ◌++◌, OnOk, length};
ghost use Rattle.pr_lens_show.specs.Findings.{IsFindingText, IsObject, IsPut, place_text, severity_text, what_text, where_text, without_end};

use crate::json::put_string;
use crate::lines::put_source;
use crate::names::put_name;
use pr_lens_text::{Place, place_at, put, put_counted};
use std::alloc::{AllocError, Global};

/// How grave a finding is.
#[derive(Clone, Copy, PartialEq, Eq, Debug)]
pub enum Severity {
    /// The text is refused for it.
    Error,
    /// The text is accepted all the same.
    Warning,
}

/// A finding about a text.
#[derive(Clone, Copy)]
pub struct Finding<'a> {
    pub severity: Severity,
    /// A short word for its kind, which never changes.
    pub code: &'a [u8],
    /// What stands behind its place, with a line feed.
    pub heading: &'a [u8],
    /// The first byte to look at.
    pub start: usize,
    /// The byte behind the last one.
    pub end: usize,
    /// What is wrong and what to do, in lines.
    pub message: &'a [u8],
}

/// Adds a file's name, a line and a column.
#[tactic(auto, unfolding(crate::specs::Findings::place_text))]
fn put_place(told: &mut Vec<u8>, name: &str, place: Place) -> Result<(), AllocError>
    ensures { OnOk result (told.new.items ≡ told.old.items ++ place_text name.now place) }
{
    put_name(told, name)?;
    put_counted(told, ":", place.line)?;
    put_counted(told, ":", place.column)?;
    put(told, ": ")
}

/// Adds a finding about the text of a file of this name: its place with the heading, the line with marks, and the message.
fn put_finding(
    alloc: Global,
    told: &mut Vec<u8>,
    name: &str,
    text: &[u8],
    finding: &Finding,
) -> Result<(), AllocError>
    requires { finding.now.start ≤ length text.now }
    ensures { OnOk result (IsFindingText name.now text.now finding.now told.old.items told.new.items) }
{
    put_place(told, name, place_at(text, finding.start))?;
    told.extend_from_slice(finding.heading)?;
    put_source(alloc, told, text, finding.start, finding.end)?;
    told.extend_from_slice(finding.message)
}

fn severity_text(severity: Severity) -> &'static str
    ensures { result.now ≡ severity_text severity }
{
    match severity {
        Severity::Error => "error",
        Severity::Warning => "warning",
    }
}

/// A message without its last line feed.
fn without_end(message: &[u8]) -> &[u8]
    ensures { result.now ≡ without_end message.now }
{
    if message.ends_with(b"\n") {
        &message[..message.len() - 1]
    } else {
        message
    }
}

/// Adds where a finding stands in a file of this name: line, column, and the column behind it.
#[tactic(auto, unfolding(crate::specs::Findings::where_text))]
fn put_where(told: &mut Vec<u8>, name: &str, place: Place, bytes: usize) -> Result<(), AllocError>
    ensures { OnOk result (told.new.items ≡ told.old.items ++ where_text name.now place bytes) }
{
    put(told, "{\"file\":")?;
    put_string(told, name.as_bytes())?;
    put_counted(told, ",\"line\":", place.line)?;
    put_counted(told, ",\"column\":", place.column)?;
    put_counted(told, ",\"end_column\":", place.column.saturating_add(bytes))
}

/// Adds what is found: its severity, its code and its message.
#[tactic(auto, unfolding(crate::specs::Findings::what_text))]
fn put_what(told: &mut Vec<u8>, finding: &Finding) -> Result<(), AllocError>
    ensures { OnOk result (told.new.items ≡ told.old.items ++ what_text finding.now) }
{
    put(told, ",\"severity\":\"")?;
    put(told, severity_text(finding.severity))?;
    put(told, "\",\"code\":\"")?;
    told.extend_from_slice(finding.code)?;
    put(told, "\",\"message\":")?;
    put_string(told, without_end(finding.message))?;
    put(told, "}\n")
}

/// Adds a finding about the text of a file of this name as a line of JSON: an object with the members `file`, `line`,
/// `column`, `end_column`, `severity`, `code` and `message`, in this order. Columns are counted in bytes from 1, and
/// `end_column` is just behind the last byte to look at.
fn put_object(
    told: &mut Vec<u8>,
    name: &str,
    text: &[u8],
    finding: &Finding,
) -> Result<(), AllocError>
    requires within { finding.now.start ≤ length text.now }
    requires order { finding.now.start ≤ finding.now.end }
    ensures { OnOk result (IsObject name.now text.now finding.now told.old.items told.new.items) }
{
    let place = place_at(text, finding.start);
    put_where(told, name, place, finding.end - finding.start)?;
    put_what(told, finding)
}

/// Adds a finding about the text of a file of this name, as JSON or as people read it.
pub fn put_as(
    alloc: Global,
    told: &mut Vec<u8>,
    json: bool,
    name: &str,
    text: &[u8],
    finding: &Finding,
) -> Result<(), AllocError>
    requires within { finding.now.start ≤ length text.now }
    requires order { finding.now.start ≤ finding.now.end }
    ensures { OnOk result (IsPut json name.now text.now finding.now told.old.items told.new.items) }
{
    if json {
        return put_object(told, name, text, finding);
    }
    put_finding(alloc, told, name, text, finding)
}
